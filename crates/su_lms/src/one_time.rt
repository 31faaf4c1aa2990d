// One-time keys and signatures (RFC 8554, Section 4).
ghost use Rattle.std.specs.Prelude.{◌≡◌, ◌≤◌, ◌<◌, ◌+◌, ◌*◌, ◌^◌, ℕ, [], length, slice_index_or};
ghost use Rattle.sha_lanes.specs.Run.{run_at};
ghost use Rattle.su_lms.specs.ParameterSets.{IsOneTimeType, chain_count};
ghost use Rattle.su_lms.specs.OneTime.{hash_of_ends, message_hash, one_time_key};
ghost use Rattle.su_lms.specs.PrivateKey.{randomizer};

use crate::chains::{key_of_ends, run_whole, set_private_values};
use crate::parameters::chain_count;
use crate::strings::{MESSAGE, hasher_of};
use sha_lanes::ChainRun;
use sha2::{Digest, Sha256};

/// The one-time public keys of leaf q and the seven behind it (RFC 8554, Section 4.3).
pub fn one_time_keys(ots: u32, id: &[u8; 16], seed: &[u8; 32], q: u32) -> [[u8; 32]; 8]
    requires listed { (3 ≤ ots) × (ots ≤ 4) }
    requires leaves { q < 2 ^ 25 }
    ensures { (l : ℕ) → l < 8
        → slice_index_or result l [] ≡ one_time_key ots id.now seed.now (q + l) }
{
    let count = usize::from(chain_count(ots));
    let mut runs = [ChainRun::idle(); 536];
    whole_keys(&mut runs[..8 * count], ots, id, seed, q, count)
}

// The same, by the chains of eight leaves.
fn whole_keys(
    runs: &mut [ChainRun],
    ots: u32,
    id: &[u8; 16],
    seed: &[u8; 32],
    q: u32,
    count: usize,
) -> [[u8; 32]; 8]
    requires listed { IsOneTimeType ots }
    requires leaves { q < 2 ^ 25 }
    requires count { count ≡ chain_count ots }
    requires size { length runs.old ≡ 8 * count }
    requires some { 1 ≤ count }
    requires few { count ≤ 265 }
    ensures { (l : ℕ) → l < 8
        → slice_index_or result l [] ≡ one_time_key ots id.now seed.now (q + l) }
{
    set_private_values(runs, id, seed, q, count);
    run_whole(runs, ots);
    keys_of_ends(ots, id, q, runs, count)
}

// The one-time public keys of eight leaves, of the values at which their chains end.
fn keys_of_ends(ots: u32, id: &[u8; 16], q: u32, ends: &[ChainRun], count: usize) -> [[u8; 32]; 8]
    requires leaves { q < 2 ^ 25 }
    requires count { count ≡ chain_count ots }
    requires size { length ends.now ≡ 8 * count }
    requires few { count ≤ 265 }
    ensures { (l : ℕ) → l < 8 → slice_index_or result l []
        ≡ hash_of_ends ots id.now (q + l) (λ i. (run_at ends.now (l * count + i)).value) }
{
    let mut keys = [[0u8; 32]; 8];
    for l in 0..8usize {
        let first = l * count;
        keys[l] = key_of_ends(ots, id, q + l as u32, &ends[first..first + count]);
    }
    keys
}

/// The hash of a message with its randomizer (RFC 8554, Section 4.5).
#[tactic(auto, unfolding(crate::specs::OneTime::message_hash))]
pub fn message_hash(id: &[u8; 16], q: u32, randomizer: &[u8; 32], message: &[u8]) -> [u8; 32]
    ensures { result ≡ message_hash id.now q randomizer.now message.now }
{
    let mut hasher = hasher_of(id, q, MESSAGE);
    hasher.update(randomizer);
    hasher.update(message);
    hasher.finalize()
}

/// The randomizer of leaf q.
#[tactic(auto, unfolding(crate::specs::PrivateKey::randomizer))]
pub fn randomizer(seed: &[u8; 32], q: u32) -> [u8; 32]
    ensures { result ≡ randomizer seed.now q }
{
    let mut hasher = Sha256::new();
    hasher.update(seed);
    hasher.update(b"C");
    hasher.update(q.to_be_bytes());
    hasher.finalize()
}
