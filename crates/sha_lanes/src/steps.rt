// Steps of eight chains side by side. The input of a step is I || u32str(q) || u16str(i) ||
// u8str(j) || value, 55 bytes, which fill one block with their padding. It stands on words: the
// first five are I and q, and from step to step only those behind them change.
ghost use Rattle.std.specs.Prelude.{◌≡◌, ◌≤◌, ◌<◌, ◌+◌, ◌*◌, ◌/◌, ◌%◌, ◌^◌, List, ℕ, slice_index};
ghost use Rattle.sha_lanes.specs.Chain.{chain, chain_step};
ghost use Rattle.sha_lanes.specs.Lanes.{EachLane, HoldsPlace, HoldsValue};

use crate::blocks::hash_blocks;
use crate::words::add_number;
use std::simd::u32x8;

// A word of I and q, as it is.
#[inline(always)]
fn whole(x: u32x8) -> u32x8
    ensures { EachLane (λ l. slice_index result l ≡ slice_index x l % 2 ^ 32) }
{
    x
}

// The chain's number, the step's number and the first byte of the value.
#[inline(always)]
fn middle(index: u32x8, step: u32x8, value: u32x8) -> u32x8
    ensures { EachLane (λ l. slice_index step l < 256
        → slice_index result l ≡ slice_index index l % 2 ^ 16 * 2 ^ 16 + slice_index step l * 2 ^ 8 + slice_index value l / 2 ^ 24 % 2 ^ 8) }
{
    (index << 16) + (step << 8) + (value >> 24)
}

// The last three bytes of one word and the first of the next.
#[inline(always)]
fn join(x: u32x8, y: u32x8) -> u32x8
    ensures { EachLane (λ l. slice_index result l
        ≡ slice_index x l % 2 ^ 24 * 2 ^ 8 + slice_index y l / 2 ^ 24 % 2 ^ 8) }
{
    (x << 8) + (y >> 24)
}

// The last three bytes of the value, and the first of the padding.
#[inline(always)]
fn end(x: u32x8) -> u32x8
    ensures { EachLane (λ l. slice_index result l ≡ slice_index x l % 2 ^ 24 * 2 ^ 8 + 0x80) }
{
    (x << 8) + u32x8::splat(0x80)
}

// A step of each chain, by its own number.
#[inline(always)]
fn step(leaf: &[u32x8; 5], index: u32x8, step: u32x8, value: &[u32x8; 8]) -> [u32x8; 8]
    ensures { EachLane (λ l. slice_index step l < 256 → (place before : List ℕ)
        → HoldsPlace place l leaf.now index → HoldsValue before l value.now
        → HoldsValue (chain_step place (slice_index step l) before) l result) }
{
    let word0 = whole(leaf[0]);
    let word1 = whole(leaf[1]);
    let word2 = whole(leaf[2]);
    let word3 = whole(leaf[3]);
    let word4 = whole(leaf[4]);
    let word5 = middle(index, step, value[0]);
    let word6 = join(value[0], value[1]);
    let word7 = join(value[1], value[2]);
    let word8 = join(value[2], value[3]);
    let word9 = join(value[3], value[4]);
    let word10 = join(value[4], value[5]);
    let word11 = join(value[5], value[6]);
    let word12 = join(value[6], value[7]);
    let word13 = end(value[7]);
    let block = [
        word0,
        word1,
        word2,
        word3,
        word4,
        word5,
        word6,
        word7,
        word8,
        word9,
        word10,
        word11,
        word12,
        word13,
        u32x8::splat(0),
        u32x8::splat(440),
    ];
    hash_blocks(&block)
}

// A word of the value after turn `turn`: the next one where the chain has a step left by then, and
// else the old one.
#[inline(always)]
fn pick_word(left: u32x8, turn: u32, next: u32x8, old: u32x8) -> u32x8
    ensures goes { EachLane (λ l. turn < slice_index left l
        → slice_index result l ≡ slice_index next l) }
    ensures rests { EachLane (λ l. slice_index left l ≤ turn
        → slice_index result l ≡ slice_index old l) }
{
    left.simd_le(u32x8::splat(turn)).select(old, next)
}

#[inline(always)]
fn pick(left: u32x8, turn: u32, next: &[u32x8; 8], old: &[u32x8; 8]) -> [u32x8; 8]
    ensures goes { EachLane (λ l. turn < slice_index left l → (v : List ℕ) → HoldsValue v l next.now
        → HoldsValue v l result) }
    ensures rests { EachLane (λ l. slice_index left l ≤ turn → (v : List ℕ) → HoldsValue v l old.now
        → HoldsValue v l result) }
{
    let a = pick_word(left, turn, next[0], old[0]);
    let b = pick_word(left, turn, next[1], old[1]);
    let c = pick_word(left, turn, next[2], old[2]);
    let d = pick_word(left, turn, next[3], old[3]);
    let e = pick_word(left, turn, next[4], old[4]);
    let f = pick_word(left, turn, next[5], old[5]);
    let g = pick_word(left, turn, next[6], old[6]);
    let h = pick_word(left, turn, next[7], old[7]);
    [a, b, c, d, e, f, g, h]
}

/// Runs eight chains, each from its own step on and for its own number of steps, of which `most` is
/// the largest.
pub fn run(
    leaf: &[u32x8; 5],
    index: u32x8,
    from: u32x8,
    left: u32x8,
    most: u32,
    value: &[u32x8; 8],
) -> [u32x8; 8]
    ensures { EachLane (λ l. slice_index left l ≤ most
        → slice_index from l + slice_index left l ≤ 256
        → (place start : List ℕ) → HoldsPlace place l leaf.now index → HoldsValue start l value.now
        → HoldsValue (chain place (slice_index from l) (slice_index left l) start) l result) }
{
    let mut now = *value;
    for turn in 0..most {
        let next = step(leaf, index, add_number(from, turn), &now);
        let picked = pick(left, turn, &next, &now);
        now = picked;
    }
    now
}
