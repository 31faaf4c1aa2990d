// A server that misbehaves, and its steps.
ghost use Rattle.std.specs.Prelude.{◌≡◌, ◌++◌, ◌∷◌, ◌-◌, [], take, length, true, false, None, OnOk};
ghost use Rattle.su_bad.specs.Script.{after, after_all, exchanged, forged, has_record, with_forged, with_other_bit, with_record};

use crate::steps::Step;
use std::alloc::{AllocError, Global};
use std::marker::Model;
use std::mem;
use su_block::MemoryBlocks;
use su_bytes::Digest;
use su_message::{Bytes, LastNumbers};

/// A server that shows records in the order of their numbers, each the bytes of a commit, or none
/// where it says that there is none. Its model is what it shows.
#[derive(Drop)]
pub struct BadServer {
    pub(crate) records: Vec<Option<Bytes>>,
    pub(crate) last: LastNumbers,
    pub(crate) blocks: MemoryBlocks,
    pub(crate) wrong: Vec<Digest>,
    pub(crate) is_mute: bool,
}

impl Model for BadServer {
    ghost use Rattle.su_bad.specs.Shown.{Shown};

    ghost Value = { Shown };

    ghost view = { λ s. record {
      records = s.records.items;
      last = s.last;
      items = s.blocks.items;
      wrong = s.wrong.items;
      is_mute = s.is_mute;
    } };
}

impl BadServer {
    /// Makes a server that shows these records, tells these numbers of the users' last ones with the
    /// turn, and holds these items. So far it tells no lies but those.
    pub fn new(
        alloc: Global,
        records: Vec<Option<Bytes>>,
        last: LastNumbers,
        blocks: MemoryBlocks,
    ) -> BadServer
        ensures { result ≡ record {
          records = records.items;
          last = last;
          items = blocks.items;
          wrong = [];
          is_mute = false;
        } }
    {
        BadServer {
            records,
            last,
            blocks,
            wrong: Vec::new(alloc),
            is_mute: false,
        }
    }

    /// Takes the steps of a script, one after the other. Fails where there is no memory.
    pub fn run_script(&mut self, script: Vec<Step>) -> Result<(), AllocError>
        ensures { OnOk result (self.new ≡ after_all script.items self.old) }
    {
        for step in script {
            self.take_step(step)?;
        }
        Ok(())
    }

    /// Takes a step of a script. Fails where there is no memory.
    pub fn take_step(&mut self, step: Step) -> Result<(), AllocError>
        ensures { OnOk result (self.new ≡ after step self.old) }
    {
        match step {
            Step::RollBack(count) => self.roll_back(count),
            Step::Fork(number, others) => return self.fork(number, others),
            Step::Swap(a, b) => self.swap(a, b),
            Step::Drop(number) => self.hide(number),
            Step::Forge(number) => self.forge(number),
            Step::WrongBlock(digest) => return self.exchange(digest),
            Step::Mute => self.is_mute = true,
        }
        Ok(())
    }

    fn roll_back(&mut self, count: usize)
        ensures { self.new ≡ record self.old {
          records = take (length self.old.records - count) self.old.records;
        } }
    {
        let left = self.records.len().saturating_sub(count);
        self.records.truncate(left);
    }

    fn fork(&mut self, number: usize, others: Vec<Option<Bytes>>) -> Result<(), AllocError>
        ensures { OnOk result (self.new ≡ record self.old {
          records = take (number - 1) self.old.records ++ others.items;
        }) }
    {
        let mut others = others;
        self.records.truncate(number.saturating_sub(1));
        self.records.append(&mut others)
    }

    /// Returns whether there is a record of that number.
    pub(crate) fn has(&self, number: usize) -> bool
        ensures { result ≡ has_record self.now.records number }
    {
        number != 0 && number <= self.records.len()
    }

    fn swap(&mut self, a: usize, b: usize)
        ensures { self.new ≡ record self.old { records = exchanged self.old.records a b } }
    {
        if self.has(a) && self.has(b) {
            self.records.swap(a - 1, b - 1);
        }
    }

    fn hide(&mut self, number: usize)
        ensures { self.new ≡ record self.old {
          records = with_record self.old.records number None;
        } }
    {
        if self.has(number) {
            self.records[number - 1] = None;
        }
    }

    fn forge(&mut self, number: usize)
        ensures { self.new ≡ record self.old { records = with_forged self.old.records number } }
    {
        if self.has(number) {
            forge(&mut self.records[number - 1]);
        }
    }

    fn exchange(&mut self, digest: Digest) -> Result<(), AllocError>
        ensures { OnOk result (self.new ≡ record self.old { wrong = self.old.wrong ++ digest ∷ [] }) }
    {
        self.wrong.push(digest)?;
        Ok(())
    }
}

/// Changes the last bit of what is shown under a number.
fn forge(record: &mut Option<Bytes>)
    ensures { record.new ≡ forged record.old }
{
    *record = match mem::replace(record, None) {
        Some(bytes) => Some(Bytes::new(with_last_bit(bytes.into_vec()))),
        None => None,
    };
}

/// Returns the bytes with the last bit changed.
fn with_last_bit(bytes: Vec<u8>) -> Vec<u8>
    ensures { result.items ≡ with_other_bit bytes.items }
{
    let mut bytes = bytes;
    if let Some(byte) = bytes.last_mut() {
        *byte ^= 1;
    }
    bytes
}
