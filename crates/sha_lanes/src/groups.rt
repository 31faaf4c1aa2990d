// Eight runs of chains in the lanes of vectors.
ghost use Rattle.std.specs.Prelude.{◌≡◌, ◌≤◌, ◌+◌, ◌*◌, ◌<◌, List, ℕ, length, slice_index};
ghost use Rattle.sha2.specs.Sha256.{word_at};
ghost use Rattle.sha_lanes.specs.Chain.{chain_place};
ghost use Rattle.sha_lanes.specs.Lanes.{EachLane, HoldsPlace, HoldsValue};
ghost use Rattle.sha_lanes.specs.Run.{HasRun, end_of, run_at};

use crate::runs::ChainRun;
use crate::steps::run;
use std::simd::u32x8;

/// Runs eight chains to their ends.
pub fn run_eight(group: &[ChainRun; 8]) -> [ChainRun; 8]
    ensures { EachLane (λ l. HasRun (run_at group.now l) (run_at result l)) }
{
    let ends = run(
        &leaf_words(group),
        chain_numbers(group),
        step_numbers(group),
        steps_left(group),
        most_left(group),
        &value_words(group),
    );
    ended(group, &ends)
}

// The runs with the values in the lanes as their last.
fn ended(group: &[ChainRun; 8], ends: &[u32x8; 8]) -> [ChainRun; 8]
    requires { EachLane (λ l. HoldsValue (end_of (run_at group.now l)) l ends.now) }
    ensures { EachLane (λ l. HasRun (run_at group.now l) (run_at result l)) }
{
    let mut ended = *group;
    for (l, run) in group.iter().enumerate() {
        ended[l] = ChainRun {
            id: run.id,
            leaf: run.leaf,
            chain: run.chain,
            step: run.step + run.left,
            left: 0,
            value: value_at(ends, l),
        };
    }
    ended
}

// The most steps that a run has left.
fn most_left(group: &[ChainRun; 8]) -> u32
    ensures { EachLane (λ l. (run_at group.now l).left ≤ result) }
{
    let mut most = 0;
    for run in group {
        most = most.max(run.left);
    }
    u32::from(most)
}

fn step_numbers(group: &[ChainRun; 8]) -> u32x8
    ensures { EachLane (λ l. slice_index result l ≡ (run_at group.now l).step) }
{
    u32x8::from_array([
        u32::from(group[0].step),
        u32::from(group[1].step),
        u32::from(group[2].step),
        u32::from(group[3].step),
        u32::from(group[4].step),
        u32::from(group[5].step),
        u32::from(group[6].step),
        u32::from(group[7].step),
    ])
}

fn steps_left(group: &[ChainRun; 8]) -> u32x8
    ensures { EachLane (λ l. slice_index result l ≡ (run_at group.now l).left) }
{
    u32x8::from_array([
        u32::from(group[0].left),
        u32::from(group[1].left),
        u32::from(group[2].left),
        u32::from(group[3].left),
        u32::from(group[4].left),
        u32::from(group[5].left),
        u32::from(group[6].left),
        u32::from(group[7].left),
    ])
}

fn chain_numbers(group: &[ChainRun; 8]) -> u32x8
    ensures { EachLane (λ l. slice_index result l ≡ (run_at group.now l).chain) }
{
    u32x8::from_array([
        u32::from(group[0].chain),
        u32::from(group[1].chain),
        u32::from(group[2].chain),
        u32::from(group[3].chain),
        u32::from(group[4].chain),
        u32::from(group[5].chain),
        u32::from(group[6].chain),
        u32::from(group[7].chain),
    ])
}

fn leaf_numbers(group: &[ChainRun; 8]) -> u32x8
    ensures { EachLane (λ l. slice_index result l ≡ (run_at group.now l).leaf) }
{
    u32x8::from_array([
        group[0].leaf,
        group[1].leaf,
        group[2].leaf,
        group[3].leaf,
        group[4].leaf,
        group[5].leaf,
        group[6].leaf,
        group[7].leaf,
    ])
}

// I and the number of the leaf.
fn leaf_words(group: &[ChainRun; 8]) -> [u32x8; 5]
    ensures { EachLane (λ l. (index : List ℕ) → slice_index index l ≡ (run_at group.now l).chain
        → HoldsPlace (chain_place (run_at group.now l).id (run_at group.now l).leaf (run_at group.now l).chain) l result index) }
{
    [
        id_word(group, 0),
        id_word(group, 1),
        id_word(group, 2),
        id_word(group, 3),
        leaf_numbers(group),
    ]
}

// Word k of I.
fn id_word(group: &[ChainRun; 8], k: usize) -> u32x8
    requires { k < 4 }
    ensures { EachLane (λ l. slice_index result l ≡ word_at (run_at group.now l).id (4 * k)) }
{
    let place = 4 * k;
    u32x8::from_array([
        word_at(&group[0].id, place),
        word_at(&group[1].id, place),
        word_at(&group[2].id, place),
        word_at(&group[3].id, place),
        word_at(&group[4].id, place),
        word_at(&group[5].id, place),
        word_at(&group[6].id, place),
        word_at(&group[7].id, place),
    ])
}

fn value_words(group: &[ChainRun; 8]) -> [u32x8; 8]
    ensures { EachLane (λ l. HoldsValue (run_at group.now l).value l result) }
{
    [
        value_word(group, 0),
        value_word(group, 1),
        value_word(group, 2),
        value_word(group, 3),
        value_word(group, 4),
        value_word(group, 5),
        value_word(group, 6),
        value_word(group, 7),
    ]
}

// Word k of the value.
fn value_word(group: &[ChainRun; 8], k: usize) -> u32x8
    requires { k < 8 }
    ensures { EachLane (λ l. slice_index result l ≡ word_at (run_at group.now l).value (4 * k)) }
{
    let place = 4 * k;
    u32x8::from_array([
        word_at(&group[0].value, place),
        word_at(&group[1].value, place),
        word_at(&group[2].value, place),
        word_at(&group[3].value, place),
        word_at(&group[4].value, place),
        word_at(&group[5].value, place),
        word_at(&group[6].value, place),
        word_at(&group[7].value, place),
    ])
}

// The word that four bytes spell, high byte first (FIPS 180-4, Section 3.1).
fn word_at(bytes: &[u8], place: usize) -> u32
    requires { place + 4 ≤ length bytes.now }
    ensures { result ≡ word_at bytes.now place }
{
    u32::from_be_bytes([
        bytes[place],
        bytes[place + 1],
        bytes[place + 2],
        bytes[place + 3],
    ])
}

// The bytes of the words in lane `l`.
fn value_at(words: &[u32x8; 8], l: usize) -> [u8; 32]
    requires { l < 8 }
    ensures { HoldsValue result l words.now }
{
    let mut bytes = [0u8; 32];
    for k in 0..8usize {
        bytes[4 * k..4 * k + 4].copy_from_slice(&number_at(words[k], l).to_be_bytes());
    }
    bytes
}

// The number in lane `l`.
fn number_at(word: u32x8, l: usize) -> u32
    requires { l < 8 }
    ensures { result ≡ slice_index word l }
{
    word[l]
}
