// Parts of a byte string at fixed places, and the hashes that begin with I, a number and a purpose.
ghost use Rattle.std.specs.Prelude.{◌≡◌, ◌≤◌, ◌+◌, ◌++◌, length, take, drop};
ghost use Rattle.sha2.specs.Hashers.{Holds256};
ghost use Rattle.su_lms.specs.Strings.{number_at, part_at, u16str, u32str};

use sha2::{Digest, Sha256};

// D_PBLC, D_MESG, D_LEAF and D_INTR (RFC 8554, Section 7.1): what a hash is for.
pub const PUBLIC_KEY: u16 = 0x8080;

pub const MESSAGE: u16 = 0x8181;

pub const LEAF: u16 = 0x8282;

pub const INNER: u16 = 0x8383;

/// The number that four bytes spell, high byte first.
#[tactic(auto, unfolding(crate::specs::Strings::number_at))]
pub fn number_at(bytes: &[u8], place: usize) -> u32
    requires { place + 4 ≤ length bytes.now }
    ensures { result ≡ number_at place bytes.now }
{
    let mut word = [0u8; 4];
    word.copy_from_slice(&bytes[place..place + 4]);
    u32::from_be_bytes(word)
}

/// The 32 bytes at a place.
pub fn part_at(bytes: &[u8], place: usize) -> [u8; 32]
    requires { place + 32 ≤ length bytes.now }
    ensures { result ≡ part_at place bytes.now }
{
    let mut part = [0u8; 32];
    part.copy_from_slice(&bytes[place..place + 32]);
    part
}

/// Puts a part at a place.
pub fn write_at(bytes: &mut [u8], place: usize, part: &[u8])
    requires { place + length part.now ≤ length bytes.old }
    ensures { bytes.new ≡ take place bytes.old ++ part.now ++ drop (place + length part.now) bytes.old }
{
    bytes[place..place + part.len()].copy_from_slice(part);
}

/// A hasher that has taken in `I || u32str(number) || u16str(purpose)`.
pub fn hasher_of(id: &[u8; 16], number: u32, purpose: u16) -> Sha256
    ensures { Holds256 result (id.now ++ u32str number ++ u16str purpose) }
{
    let mut hasher = Sha256::new();
    hasher.update(id);
    hasher.update(number.to_be_bytes());
    hasher.update(purpose.to_be_bytes());
    hasher
}
