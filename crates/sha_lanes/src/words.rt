// The functions of FIPS 180-4, Section 4.1.2, on words of eight messages side by side. The letters
// are the standard's.
ghost use Rattle.std.specs.Prelude.{◌≡◌, slice_index};
ghost use Rattle.sha2.specs.Sha256.{add32, big_sigma0, big_sigma1, ch, maj, small_sigma0, small_sigma1};
ghost use Rattle.sha_lanes.specs.Lanes.{EachLane};

use std::simd::u32x8;

#[inline(always)]
pub fn ch(x: u32x8, y: u32x8, z: u32x8) -> u32x8
    ensures { EachLane (λ l. slice_index result l
        ≡ ch (slice_index x l) (slice_index y l) (slice_index z l)) }
{
    z ^ (x & (y ^ z))
}

#[inline(always)]
pub fn maj(x: u32x8, y: u32x8, z: u32x8) -> u32x8
    ensures { EachLane (λ l. slice_index result l
        ≡ maj (slice_index x l) (slice_index y l) (slice_index z l)) }
{
    y ^ ((x ^ y) & (y ^ z))
}

#[inline(always)]
pub fn big_sigma0(x: u32x8) -> u32x8
    ensures { EachLane (λ l. slice_index result l ≡ big_sigma0 (slice_index x l)) }
{
    ((x >> 2) | (x << 30)) ^ ((x >> 13) | (x << 19)) ^ ((x >> 22) | (x << 10))
}

#[inline(always)]
pub fn big_sigma1(x: u32x8) -> u32x8
    ensures { EachLane (λ l. slice_index result l ≡ big_sigma1 (slice_index x l)) }
{
    ((x >> 6) | (x << 26)) ^ ((x >> 11) | (x << 21)) ^ ((x >> 25) | (x << 7))
}

#[inline(always)]
pub fn small_sigma0(x: u32x8) -> u32x8
    ensures { EachLane (λ l. slice_index result l ≡ small_sigma0 (slice_index x l)) }
{
    ((x >> 7) | (x << 25)) ^ ((x >> 18) | (x << 14)) ^ (x >> 3)
}

#[inline(always)]
pub fn small_sigma1(x: u32x8) -> u32x8
    ensures { EachLane (λ l. slice_index result l ≡ small_sigma1 (slice_index x l)) }
{
    ((x >> 17) | (x << 15)) ^ ((x >> 19) | (x << 13)) ^ (x >> 10)
}

/// The sum of two words (Section 3.2).
#[inline(always)]
pub fn add(x: u32x8, y: u32x8) -> u32x8
    ensures { EachLane (λ l. slice_index result l ≡ add32 (slice_index x l) (slice_index y l)) }
{
    x + y
}

/// The sum of a word and a number that is the same in each lane.
#[inline(always)]
pub fn add_number(x: u32x8, number: u32) -> u32x8
    ensures { EachLane (λ l. slice_index result l ≡ add32 (slice_index x l) number) }
{
    x + u32x8::splat(number)
}
