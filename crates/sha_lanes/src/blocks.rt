// The hash values of eight blocks side by side (FIPS 180-4, Section 6.2).
ghost use Rattle.std.specs.Prelude.{◌≡◌, List, ℕ, slice_index};
ghost use Rattle.sha2.specs.Sha256.{add32, compress, initial_hash_256};
ghost use Rattle.sha_lanes.specs.Lanes.{EachLane, HoldsBlock, lane};

use crate::schedules::{first_four_steps, four_steps};
use std::simd::u32x8;

// The initial hash value in each lane (FIPS 180-4, Section 5.3.3).
#[inline(always)]
fn start() -> [u32x8; 8]
    ensures { EachLane (λ l. lane l result ≡ initial_hash_256) }
{
    [
        u32x8::splat(0x6a09e667),
        u32x8::splat(0xbb67ae85),
        u32x8::splat(0x3c6ef372),
        u32x8::splat(0xa54ff53a),
        u32x8::splat(0x510e527f),
        u32x8::splat(0x9b05688c),
        u32x8::splat(0x1f83d9ab),
        u32x8::splat(0x5be0cd19),
    ]
}

#[inline(always)]
fn add_start(number: u32, x: u32x8) -> u32x8
    ensures { EachLane (λ l. slice_index result l ≡ add32 number (slice_index x l)) }
{
    u32x8::splat(number) + x
}

/// The hash values of eight blocks, each after the initial hash value.
#[inline(always)]
pub fn hash_blocks(block: &[u32x8; 16]) -> [u32x8; 8]
    ensures { EachLane (λ l. (b : List ℕ) → HoldsBlock b l block.now
        → lane l result ≡ compress initial_hash_256 b) }
{
    let mut window = *block;
    let state = first_four_steps(&window, start(), 0);
    let state = first_four_steps(&window, state, 4);
    let state = first_four_steps(&window, state, 8);
    let mut state = first_four_steps(&window, state, 12);
    // Sixteen rounds a turn, so that each word's place in the ring is a constant.
    'schedule: for turn in 1..4 {
        state = four_steps(&mut window, state, turn, 0);
        state = four_steps(&mut window, state, turn, 4);
        state = four_steps(&mut window, state, turn, 8);
        state = four_steps(&mut window, state, turn, 12);
    }
    let a = add_start(0x6a09e667, state[0]);
    let b = add_start(0xbb67ae85, state[1]);
    let c = add_start(0x3c6ef372, state[2]);
    let d = add_start(0xa54ff53a, state[3]);
    let e = add_start(0x510e527f, state[4]);
    let f = add_start(0x9b05688c, state[5]);
    let g = add_start(0x1f83d9ab, state[6]);
    let h = add_start(0x5be0cd19, state[7]);
    [a, b, c, d, e, f, g, h]
}
