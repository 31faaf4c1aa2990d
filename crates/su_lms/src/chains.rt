// The chains of one-time keys, which run side by side.
ghost use Rattle.std.specs.Prelude.{◌≡◌, ◌≤◌, ◌<◌, ◌+◌, ◌*◌, ◌/◌, ◌%◌, ◌^◌, ◌-◌, ℕ, length};
ghost use Rattle.sha_lanes.specs.Run.{end_of, run_at};
ghost use Rattle.su_lms.specs.ParameterSets.{IsOneTimeType, chain_count, width_of};
ghost use Rattle.su_lms.specs.Strings.{coef};
ghost use Rattle.su_lms.specs.OneTime.{end_from, hash_of_ends};
ghost use Rattle.su_lms.specs.Runs.{AtPrivateValue, value_after};
ghost use Rattle.su_lms.specs.Signature.{chain_value_of, leaf_of};

use crate::digits::coef;
use crate::parameters::step_count;
use crate::strings::{PUBLIC_KEY, hasher_of, number_at, part_at};
use sha_lanes::{ChainRun, run_chains};
use sha2::Digest;

/// Puts chains at their private values: `count` chains of leaf q, as many of the leaf behind it, and
/// so on (RFC 8554, Appendix A). A private value is step 255 from SEED.
pub fn set_private_values(
    runs: &mut [ChainRun],
    id: &[u8; 16],
    seed: &[u8; 32],
    q: u32,
    count: usize,
)
    requires some { 1 ≤ count }
    requires few { length runs.old ≤ 2120 }
    requires leaves { q + length runs.old < 2 ^ 32 }
    ensures { (k : ℕ) → k < length runs.old
        → AtPrivateValue id.now seed.now (q + k / count) (k % count) (run_at runs.new k) }
{
    for k in 0..runs.len() {
        runs[k] = ChainRun {
            id: *id,
            leaf: q + (k / count) as u32,
            chain: (k % count) as u16,
            step: 255,
            left: 1,
            value: *seed,
        };
    }
    run_chains(runs);
}

/// Runs whole chains, each from its private value (RFC 8554, Section 4.3).
pub fn run_whole(runs: &mut [ChainRun], ots: u32)
    requires listed { IsOneTimeType ots }
    requires few { length runs.old ≤ 2120 }
    ensures { (k : ℕ) → k < length runs.old
        → (run_at runs.new k).value ≡ value_after (run_at runs.old k) (2 ^ width_of ots - 1) }
{
    let last = step_count(ots);
    for k in 0..runs.len() {
        runs[k] = from_start(&runs[k], last);
    }
    run_chains(runs);
}

/// Runs the chains of a key as far as a signature goes, each from its private value (RFC 8554,
/// Section 4.5).
pub fn run_signed(runs: &mut [ChainRun], ots: u32, digits: &[u8; 34])
    requires listed { IsOneTimeType ots }
    requires few { length runs.old ≤ 265 }
    requires count { length runs.old ≡ chain_count ots }
    ensures { (i : ℕ) → i < length runs.old → (run_at runs.new i).value
        ≡ value_after (run_at runs.old i) (coef digits.now i (width_of ots)) }
{
    for i in 0..runs.len() {
        runs[i] = from_start(&runs[i], coef(digits, i as u16, ots));
    }
    run_chains(runs);
}

// The chain as it goes from step 0.
fn from_start(run: &ChainRun, steps: u8) -> ChainRun
    ensures { end_of result ≡ value_after run.now steps }
{
    ChainRun {
        id: run.id,
        leaf: run.leaf,
        chain: run.chain,
        step: 0,
        left: u16::from(steps),
        value: run.value,
    }
}

/// Puts the chains of a signature at its values, each at the step that comes next, with the steps
/// up to its end (RFC 8554, Section 4.6).
pub fn set_signed_values(
    runs: &mut [ChainRun],
    ots: u32,
    id: &[u8; 16],
    digits: &[u8; 34],
    signature: &[u8],
)
    requires listed { IsOneTimeType ots }
    requires few { length runs.old ≤ 265 }
    requires count { length runs.old ≡ chain_count ots }
    requires size { 40 + 32 * chain_count ots ≤ length signature.now }
    ensures { (i : ℕ) → i < chain_count ots → end_of (run_at runs.new i)
        ≡ end_from ots id.now (leaf_of signature.now) digits.now i (chain_value_of signature.now i) }
{
    let leaf = number_at(signature, 0);
    let last = step_count(ots);
    for i in 0..runs.len() {
        let step = coef(digits, i as u16, ots);
        runs[i] = ChainRun {
            id: *id,
            leaf,
            chain: i as u16,
            step: u16::from(step),
            left: u16::from(last - step),
            value: part_at(signature, 40 + 32 * i),
        };
    }
}

/// The one-time public key of the values at which its chains end (RFC 8554, Section 4.3).
pub fn key_of_ends(ots: u32, id: &[u8; 16], q: u32, ends: &[ChainRun]) -> [u8; 32]
    requires { length ends.now ≡ chain_count ots }
    ensures { result ≡ hash_of_ends ots id.now q (λ i. (run_at ends.now i).value) }
{
    let mut hasher = hasher_of(id, q, PUBLIC_KEY);
    for end in ends {
        hasher.update(end.value);
    }
    hasher.finalize()
}
