// Runs of chains, eight side by side.
ghost use Rattle.std.specs.Prelude.{◌≡◌, ◌≤◌, ◌<◌, ◌+◌, ◌%◌, ◌^◌, ℕ, length, slice_index};
ghost use Rattle.sha_lanes.specs.Run.{HasRun, RunsOn, place_in, run_at, IsOrder};

use crate::groups::run_eight;
use crate::runs::ChainRun;

// The most runs that one call takes: those of eight one-time keys with 265 chains each.
const MOST_RUNS: usize = 2_120;

/// Runs each chain to its end, eight side by side, those with the most steps left first, so that
/// the eight end at about the same time.
pub fn run_chains(runs: &mut [ChainRun])
    requires { length runs.old ≤ 2120 }
    ensures { (k : ℕ) → k < length runs.old → HasRun (run_at runs.old k) (run_at runs.new k) }
{
    let mut keys = [0u32; MOST_RUNS];
    let order = &mut keys[..runs.len()];
    set_order(order, runs);
    for group in 0..runs.len().div_ceil(8) {
        run_group(runs, order, 8 * group);
    }
}

// Puts the places of the runs into an order, those with the most steps left first. A place is the
// low 16 bits of a number that is the lower the more steps are left.
fn set_order(order: &mut [u32], runs: &[ChainRun])
    requires size { length order.old ≡ length runs.now }
    requires few { length runs.now ≤ 2120 }
    ensures { IsOrder order.new }
{
    for (k, run) in runs.iter().enumerate() {
        order[k] = u32::from(256 - run.left) * 65_536 + k as u32;
    }
    order.sort_unstable();
}

// Runs the eight chains that stand in the order at `first` and behind it; behind the last of all, it
// is the last again.
fn run_group(runs: &mut [ChainRun], order: &[u32], first: usize)
    requires size { length order.now ≡ length runs.old }
    requires order { IsOrder order.now }
    requires inside { first < length runs.old }
    ensures on { (k : ℕ) → RunsOn (run_at runs.old k) (run_at runs.new k) }
    ensures kept { (k : ℕ) → (run_at runs.old k).left ≡ 0 → (run_at runs.new k).left ≡ 0 }
    ensures ended { (p : ℕ) → first ≤ p → p < first + 8
        → (run_at runs.new (place_in order.now p)).left ≡ 0 }
{
    let group = [
        runs[place_in(order, first)],
        runs[place_in(order, first + 1)],
        runs[place_in(order, first + 2)],
        runs[place_in(order, first + 3)],
        runs[place_in(order, first + 4)],
        runs[place_in(order, first + 5)],
        runs[place_in(order, first + 6)],
        runs[place_in(order, first + 7)],
    ];
    let ended = run_eight(&group);
    for (l, run) in ended.iter().enumerate() {
        runs[place_in(order, first + l)] = *run;
    }
}

// The place that stands at `at` in the order, or the last one behind its end.
fn place_in(order: &[u32], at: usize) -> usize
    requires { 0 < length order.now }
    ensures { result ≡ place_in order.now at }
{
    (order[at.min(order.len() - 1)] % 65_536) as usize
}
