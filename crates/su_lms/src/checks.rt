// Checks of many signatures, with the chains of eight of them side by side.
ghost use Rattle.std.specs.Prelude.{◌≡◌, ◌≤◌, ◌<◌, ◌+◌, ◌*◌, ◌↔◌, ℕ, IsTrue, length, slice_index_or};
ghost use Rattle.sha_lanes.specs.Run.{end_of, run_at};
ghost use Rattle.su_lms.specs.ParameterSets.{chain_count};
ghost use Rattle.su_lms.specs.Signature.{IsSigned, ots_of};
ghost use Rattle.su_lms.specs.Check.{EndsSo, HaveAtMost, IsChecked};

use crate::parameters::chain_count;
use crate::public_keys::{PublicKey, has_shape, leads_to_root, set_chains};
use crate::strings::number_at;
use sha_lanes::{ChainRun, run_chains};

// The most chains that eight signatures have: 265 each.
const MOST_CHAINS: usize = 2_120;

/// A signature that is checked.
#[derive(Clone, Copy, Debug)]
pub struct Check<'a> {
    /// The key under which the message may be signed.
    pub key: &'a PublicKey,
    /// The message.
    pub message: &'a [u8],
    /// What may be its signature.
    pub signature: &'a [u8],
    /// Whether it is, once it was checked.
    pub is_signed: bool,
}

impl Check<'_> {
    // How many chains a signature under the key has.
    fn chain_count(&self) -> usize
        ensures value { result ≡ chain_count (ots_of self.now.key.now) }
        ensures range { result ≤ 265 }
    {
        usize::from(chain_count(number_at(self.key.as_bytes(), 4)))
    }

    // Puts the chains of the signature at its values, if its shape is the key's.
    fn set_chains(&self, runs: &mut [ChainRun])
        requires { chain_count (ots_of self.now.key.now) ≤ length runs.old }
        ensures { EndsSo self.now (λ i. end_of (run_at runs.new i)) }
    {
        let key = self.key.as_bytes();
        if has_shape(key, self.signature) {
            let count = self.chain_count();
            set_chains(&mut runs[..count], key, self.message, self.signature);
        }
    }

    // Whether the message is signed so, by the ends of the chains.
    fn verdict(&self, ends: &[ChainRun]) -> bool
        requires room { chain_count (ots_of self.now.key.now) ≤ length ends.now }
        requires ends { EndsSo self.now (λ i. (run_at ends.now i).value) }
        ensures { IsTrue result
            ↔ IsSigned self.now.key.now self.now.message.now self.now.signature.now }
    {
        let key = self.key.as_bytes();
        if !has_shape(key, self.signature) {
            return false;
        }
        leads_to_root(&ends[..self.chain_count()], key, self.signature)
    }
}

/// Verifies each signature, as `verify` does, and sets its `is_signed`. It takes no memory. The
/// chains of eight signatures run side by side, so it is faster than as many calls of `verify`.
pub fn verify_all(checks: &mut [Check<'_>])
    ensures { (k : ℕ) (d : Check) → k < length checks.old
        → IsChecked (slice_index_or checks.old k d) (slice_index_or checks.new k d) }
{
    let mut runs = [ChainRun::idle(); MOST_CHAINS];
    for group in 0..checks.len().div_ceil(8) {
        let first = 8 * group;
        let end = checks.len().min(first + 8);
        verify_group(&mut checks[first..end], &mut runs);
    }
}

// Verifies at most eight signatures, by the runs that are lent for it.
fn verify_group(checks: &mut [Check<'_>], runs: &mut [ChainRun])
    requires few { length checks.old ≤ 8 }
    requires room { length runs.old ≡ 2120 }
    ensures { (k : ℕ) (d : Check) → k < length checks.old
        → IsChecked (slice_index_or checks.old k d) (slice_index_or checks.new k d) }
{
    let stride = most_chains(checks);
    let count = checks.len() * stride;
    verify_by_runs(checks, &mut runs[..count], stride);
}

// The same, by `stride` runs for each signature.
fn verify_by_runs(checks: &mut [Check<'_>], runs: &mut [ChainRun], stride: usize)
    requires few { length checks.old ≤ 8 }
    requires stride { stride ≤ 265 }
    requires most { HaveAtMost checks.old stride }
    requires size { length runs.old ≡ length checks.old * stride }
    ensures { (k : ℕ) (d : Check) → k < length checks.old
        → IsChecked (slice_index_or checks.old k d) (slice_index_or checks.new k d) }
{
    set_all_chains(runs, checks, stride);
    run_chains(runs);
    set_verdicts(checks, runs, stride);
}

// The most chains that one of the signatures has.
fn most_chains(checks: &[Check<'_>]) -> usize
    ensures most { HaveAtMost checks.now result }
    ensures range { result ≤ 265 }
{
    let mut most = 0;
    for check in checks {
        most = most.max(check.chain_count());
    }
    most
}

// Puts the chains of each signature at its values: those of the k-th from place `k * stride` on.
fn set_all_chains(runs: &mut [ChainRun], checks: &[Check<'_>], stride: usize)
    requires few { length checks.now ≤ 8 }
    requires stride { stride ≤ 265 }
    requires most { HaveAtMost checks.now stride }
    requires size { length runs.old ≡ length checks.now * stride }
    ensures { (k : ℕ) (d : Check) → k < length checks.now
        → EndsSo (slice_index_or checks.now k d) (λ i. end_of (run_at runs.new (k * stride + i))) }
{
    for k in 0..checks.len() {
        let first = k * stride;
        checks[k].set_chains(&mut runs[first..first + stride]);
    }
}

// Sets the verdicts, by the ends of the chains.
fn set_verdicts(checks: &mut [Check<'_>], ends: &[ChainRun], stride: usize)
    requires few { length checks.old ≤ 8 }
    requires stride { stride ≤ 265 }
    requires most { HaveAtMost checks.old stride }
    requires size { length ends.now ≡ length checks.old * stride }
    requires ends { (k : ℕ) (d : Check) → k < length checks.old
        → EndsSo (slice_index_or checks.old k d) (λ i. (run_at ends.now (k * stride + i)).value) }
    ensures { (k : ℕ) (d : Check) → k < length checks.old
        → IsChecked (slice_index_or checks.old k d) (slice_index_or checks.new k d) }
{
    for k in 0..checks.len() {
        let first = k * stride;
        let is_signed = checks[k].verdict(&ends[first..first + stride]);
        checks[k].is_signed = is_signed;
    }
}
