// The numbers at the front of each block that are taken.
ghost use Rattle.std.specs.Prelude.{◌≡◌, ◌≤◌, ◌<◌, ◌^◌, ℕ, Bool, IsTrue, false};
ghost use Rattle.su_bytes.specs.FileId.{is_inum};
ghost use Rattle.su_fronts.specs.Front.{AreFronts, AreTaken, IsNoFreer};

use std::alloc::Global;
use su_bytes::Inum;

/// How many numbers a block has.
const BLOCK: u32 = 1024;

/// Of each block of 1,024 numbers of an i-table, the first from 1 on, how many from its first one on
/// are known to be taken. Whoever frees a number says so; that a number is taken may stay unknown.
#[derive(Drop)]
pub struct Fronts {
    fronts: Vec<u32>,
}

impl Fronts {
    /// Knows of no number.
    pub fn new(alloc: Global) -> Fronts
        ensures { (free : ℕ → Bool) → AreFronts free result }
    {
        Fronts {
            fronts: Vec::new(alloc),
        }
    }

    /// Passes by numbers from `number` on that are known to be taken, those of the front of its block.
    pub fn past(&self, number: u32) -> u32
        requires { IsTrue (is_inum number) }
        ensures taken { (free : ℕ → Bool) → AreFronts free self.now
            → AreTaken free number result }
        ensures from_ { number ≤ result }
    {
        let block = (number - 1) / BLOCK;
        match self.fronts.get(block as usize) {
            Some(front) => number.max((block * BLOCK + 1).saturating_add(*front)),
            None => number,
        }
    }

    /// Notes that a number is taken, where it is the next behind a front, and there is memory.
    pub fn note_taken(&mut self, number: Inum)
        ensures { (free : ℕ → Bool) → AreFronts free self.old → free number ≡ false
            → AreFronts free self.new }
    {
        let place = number.number() - 1;
        let index = (place / BLOCK) as usize;
        self.reach(index);
        match self.fronts.get_mut(index) {
            Some(front) => {
                if *front == place % BLOCK {
                    *front += 1;
                }
            }
            None => {}
        }
    }

    /// Notes that a number may be free.
    pub fn note_free(&mut self, number: Inum)
        ensures { (free now : ℕ → Bool) → AreFronts free self.old → IsNoFreer number free now
            → AreFronts now self.new }
    {
        let place = number.number() - 1;
        match self.fronts.get_mut((place / BLOCK) as usize) {
            Some(front) => *front = (*front).min(place % BLOCK),
            None => {}
        }
    }

    /// Makes room for the front of a block, if there is memory.
    fn reach(&mut self, index: usize)
        requires { index < 2 ^ 32 }
        ensures { (free : ℕ → Bool) → AreFronts free self.old → AreFronts free self.new }
    {
        for _ in self.fronts.len()..index + 1 {
            if self.fronts.push(0).is_err() {
                return;
            }
        }
    }
}
