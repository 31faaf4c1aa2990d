// The coefficients of a hash, and its checksum.
ghost use Rattle.std.specs.Prelude.{◌≡◌, ◌≤◌, ◌<◌, ◌*◌, ◌/◌, ◌-◌, ◌^◌, ◌++◌, length};
ghost use Rattle.su_lms.specs.ParameterSets.{IsOneTimeType, width_of};
ghost use Rattle.su_lms.specs.Strings.{coef};
ghost use Rattle.su_lms.specs.OneTime.{checksum, with_checksum};

use crate::parameters::{checksum_shift, step_count, width_of};

/// Coefficient i of a string (RFC 8554, Section 3.1.3).
pub fn coef(bytes: &[u8], i: u16, ots: u32) -> u8
    requires listed { IsOneTimeType ots }
    requires inside { i * width_of ots / 8 < length bytes.now }
    ensures value { result ≡ coef bytes.now i (width_of ots) }
    ensures bound { result ≤ 2 ^ width_of ots - 1 }
{
    let width = width_of(ots);
    let index = u32::from(i);
    let byte = bytes[(index * width / 8) as usize];
    let shift = 8 - (width * (index % (8 / width)) + width);
    step_count(ots) & (byte >> shift)
}

/// The checksum of a hash: the steps that its chains leave out, added up and shifted (RFC 8554,
/// Section 4.4).
pub fn checksum(ots: u32, hash: &[u8; 32]) -> u16
    requires { IsOneTimeType ots }
    ensures { result ≡ checksum ots hash.now }
{
    let last = step_count(ots);
    let mut sum: u32 = 0;
    let count = 256 / width_of(ots);
    for i in 0..count as u16 {
        sum += u32::from(last - coef(hash, i, ots));
    }
    (sum << checksum_shift(ots)) as u16
}

/// A hash with its checksum behind it, 34 bytes.
pub fn with_checksum(ots: u32, hash: &[u8; 32]) -> [u8; 34]
    requires { IsOneTimeType ots }
    ensures value { result ≡ with_checksum ots hash.now }
    ensures size { length result ≡ 34 }
{
    let mut digits = [0u8; 34];
    digits[..32].copy_from_slice(hash);
    digits[32..].copy_from_slice(&checksum(ots, hash).to_be_bytes());
    digits
}
