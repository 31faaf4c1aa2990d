// How many blocks of 64 bytes SHA-256 takes in at each operation. An input of n bytes has
// (n + 8) / 64 + 1: a step of a chain, a private value, a randomizer and a leaf have one, an inner
// node and the hash of a short message have two.
use sha2::{Digest, Sha256};

/// I of the measured keys.
pub const ID: [u8; 16] = [7; 16];

/// Returns the chains of a one-time key, the steps of a whole chain, and the blocks of K, which is
/// hashed over 22 bytes and 32 for each chain.
pub fn chains(ots: u32) -> (f64, f64, f64) {
    if ots == 3 {
        (67.0, 15.0, 34.0)
    } else {
        (34.0, 255.0, 18.0)
    }
}

/// The blocks of `generate`: a private value and the steps of each chain, K, the leaf, and the
/// inner nodes.
pub fn generate_blocks(ots: u32, leaves: f64) -> f64 {
    let (count, last, of_key) = chains(ots);
    leaves * (count * (1.0 + last) + of_key + 1.0) + 2.0 * (leaves - 1.0)
}

/// The blocks of `sign`: the randomizer, the hash of the message, a private value for each chain,
/// and the steps signed.
pub fn sign_blocks(ots: u32, steps: f64) -> f64 {
    let (count, _, _) = chains(ots);
    1.0 + 2.0 + count + steps
}

/// The blocks of `verify`: the hash of the message, the steps that are left, K, the leaf, and the
/// path.
pub fn verify_blocks(ots: u32, steps: f64, height: f64) -> f64 {
    let (count, last, of_key) = chains(ots);
    2.0 + count * last - steps + of_key + 1.0 + 2.0 * height
}

/// How many steps of the chains a signature has gone, by the hash of its message and the checksum.
pub fn steps_signed(ots: u32, message: &[u8], signature: &[u8]) -> f64 {
    let mut hasher = Sha256::new();
    hasher.update(ID);
    hasher.update(signature.get(..4).unwrap_or(&[]));
    hasher.update([0x81u8, 0x81]);
    hasher.update(signature.get(8..40).unwrap_or(&[]));
    hasher.update(message);
    let hash = hasher.finalize();
    if ots == 3 {
        let sum = sum_of_halves(&hash);
        let checksum = 960u16.wrapping_sub(sum).wrapping_mul(16);
        f64::from(sum.wrapping_add(sum_of_halves(&checksum.to_be_bytes())))
    } else {
        let sum = sum_of_bytes(&hash);
        let checksum = 8160u16.wrapping_sub(sum);
        f64::from(sum.wrapping_add(sum_of_bytes(&checksum.to_be_bytes())))
    }
}

fn sum_of_bytes(bytes: &[u8]) -> u16 {
    let mut sum = 0u16;
    for byte in bytes {
        sum = sum.wrapping_add(u16::from(*byte));
    }
    sum
}

fn sum_of_halves(bytes: &[u8]) -> u16 {
    let mut sum = 0u16;
    for byte in bytes {
        sum = sum.wrapping_add(u16::from(*byte / 16));
        sum = sum.wrapping_add(u16::from(*byte % 16));
    }
    sum
}
