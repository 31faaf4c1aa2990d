// The live operations of a desk.
ghost use Rattle.std.specs.Prelude.{◌≡◌, ◌⊎◌, ◌<◌, ◌≤◌, ◌-◌, ◌^◌, ℕ, [], true, false, None, length, slice_get, IsSome, IfNone, IfSome, IfOk, IfErr, OnOk, OnErr};
ghost use Rattle.std.specs.List.{AllByRecursion};
ghost use Rattle.std.specs.Option.{option_copied, option_map};
ghost use Rattle.su_bytes.specs.declared.refusals.Refusal.TheVariants.{NoMemory};
ghost use Rattle.su_live.specs.Live.{Ascend, HasAbove, cut_live, find_live, first_from, insert_live, is_entered, join_live, live_blocker, numbers_of, put_live, reads_at, with_inverse, without};

use crate::entering::{enter_above, last_up_to, leave, put_above};
use crate::operations::LiveOperation;
use crate::readers::Reader;
use std::alloc::{AllocFailed, Global};
use std::collections::{BTreeMap, BTreeSet};
use std::marker::Model;
use std::mem;
use su_bytes::Refusal;
use su_kept_areas::KeptFootprint;

/// The live operations of a desk by their numbers, and an index from the cells that they read to
/// them. Its model is their list, in the order of their numbers. (Each operation is in a box, as
/// the map has room for more of them than it has.)
#[derive(Drop)]
pub struct LiveOperations<I: Drop> {
    operations: BTreeMap<u64, Box<LiveOperation<I>>>,
    readers: BTreeSet<Reader>,
    // Operations up to this number aren't entered among the readers: they are looked at one by one.
    scanned: u64,
    // For the boxes of operations.
    alloc: Global,
}

impl<I: Drop> Model for LiveOperations<I> {
    ghost use Rattle.std.specs.Prelude.{List};
    ghost use Rattle.std.specs.Map.{values_of};
    ghost use Rattle.su_live.specs.declared.operations.LiveOperation.{LiveOperation as TheOperation};

    ghost Value = { List (TheOperation I) };

    ghost use Rattle.su_live.specs.Live.{IsIndexed, unboxed};

    ghost view = { λ l. values_of (unboxed l.operations.entries) };

    ghost invariant = { λ l. IsIndexed (unboxed l.operations.entries) l.readers l.scanned };
}

impl<I: Drop> LiveOperations<I> {
    /// Makes the list without operations.
    pub fn new(alloc: Global) -> LiveOperations<I>
        ensures { result ≡ [] }
    {
        LiveOperations {
            operations: BTreeMap::new(alloc),
            readers: BTreeSet::new(alloc),
            scanned: 0,
            alloc,
        }
    }

    /// Finds the operation of that number.
    pub fn find(&self, number: u64) -> Option<&LiveOperation<I>>
        ensures { option_copied result ≡ find_live number self.now }
    {
        match self.operations.get(&number) {
            Some(boxed) => Some(boxed.as_ref()),
            None => None,
        }
    }

    /// Returns the operation of the greatest number.
    pub fn last(&self) -> Option<&LiveOperation<I>>
        ensures { option_copied result ≡ slice_get self.now (length self.now - 1) }
    {
        match self.operations.last_key_value() {
            Some((_, boxed)) => Some(boxed.as_ref()),
            None => None,
        }
    }

    /// Returns the first operation of that number or a greater one.
    pub fn first_from(&self, number: u64) -> Option<&LiveOperation<I>>
        ensures { option_copied result ≡ first_from number self.now }
    {
        match self.operations.range(number..).next() {
            Some((_, boxed)) => Some(boxed.as_ref()),
            None => None,
        }
    }

    /// Returns the numbers of the operations, ascending. Fails only with `NoMemory`.
    pub fn numbers(&self, alloc: Global) -> Result<Vec<u64>, Refusal>
        ensures value { IfOk result (λ numbers. numbers.items ≡ numbers_of self.now) }
        ensures refused { IfErr result (λ e. e ≡ NoMemory) }
    {
        let numbers = self
            .operations
            .values()
            .map(|boxed| boxed.number)
            .collect(alloc)?;
        Ok(numbers)
    }

    /// Adds an operation. Where one of its number is there, or there is no room for it, nothing
    /// changes, and it is given back. (For a number that doesn't fit 32 bits there is no room.)
    pub fn add(&mut self, operation: LiveOperation<I>) -> Result<(), AllocFailed<LiveOperation<I>>>
        ensures ok { OnOk result (self.new ≡ insert_live operation self.old) }
        ensures was { OnOk result (find_live operation.number self.old ≡ None) }
        ensures given_back { IfErr result (λ e. e.value ≡ operation) }
        ensures err { OnErr result (self.new ≡ self.old) }
    {
        match self.find(operation.number) {
            Some(_) => Err(AllocFailed { value: operation }),
            None => self.add_new(operation),
        }
    }

    /// Adds an operation, of whose number none is there. Where there is no room for it, nothing
    /// changes, and it is given back.
    fn add_new(&mut self, operation: LiveOperation<I>) -> Result<(), AllocFailed<LiveOperation<I>>>
        requires { find_live operation.number self.old ≡ None }
        ensures ok { OnOk result (self.new ≡ insert_live operation self.old) }
        ensures given_back { IfErr result (λ e. e.value ≡ operation) }
        ensures err { OnErr result (self.new ≡ self.old) }
    {
        if operation.number > u64::from(u32::MAX) {
            return Err(AllocFailed { value: operation });
        }
        let number = operation.number as u32;
        let boxed = Box::new(self.alloc, operation)?;
        match enter_above(&mut self.readers, &boxed.footprint, number, self.scanned) {
            Ok(()) => {}
            Err(_) => {
                let value = Box::into_inner(boxed);
                return Err(AllocFailed { value });
            }
        }
        match self.operations.insert(u64::from(number), boxed) {
            Ok(_) => Ok(()),
            Err(refused) => {
                let (_, boxed) = refused.value;
                let value = Box::into_inner(boxed);
                leave(&mut self.readers, &value.footprint, number);
                Err(AllocFailed { value })
            }
        }
    }

    /// Removes the operation of that number, and returns it, where one is there. Takes no memory.
    pub fn remove(&mut self, number: u64) -> Option<LiveOperation<I>>
        ensures value { result ≡ find_live number self.old }
        ensures others { self.new ≡ without number self.old }
    {
        let Some(boxed) = self.operations.remove(&number) else {
            return None;
        };
        let operation = Box::into_inner(boxed);
        leave(&mut self.readers, &operation.footprint, number as u32);
        Some(operation)
    }

    /// Puts another inverse in the place of that of the operation of that number, and returns the one
    /// that was there. Takes no memory.
    pub fn replace_inverse(&mut self, number: u64, inverse: I) -> Option<I>
        ensures value { result ≡ option_map (λ k. k.inverse) (find_live number self.old) }
        ensures others { self.new ≡ with_inverse number inverse self.old }
    {
        let Some(boxed) = self.operations.get_mut(&number) else {
            return None;
        };
        let old = mem::replace(&mut boxed.inverse, inverse);
        Some(old)
    }

    /// Puts an operation in the place of the one of its number, and of all behind that one. Where none
    /// of its number is there, or there is no room for it, nothing changes, and it is given back.
    pub fn join(&mut self, operation: LiveOperation<I>) -> Result<(), AllocFailed<LiveOperation<I>>>
        ensures ok { OnOk result (self.new ≡ join_live operation self.old) }
        ensures was { OnOk result (IsSome (find_live operation.number self.old)) }
        ensures given_back { IfErr result (λ e. e.value ≡ operation) }
        ensures err { OnErr result (self.new ≡ self.old) }
    {
        let number = operation.number;
        if self.find(number).is_none() {
            return Err(AllocFailed { value: operation });
        }
        match self.put(operation) {
            Ok(()) => {}
            Err(refused) => return Err(refused),
        }
        self.cut(number + 1);
        Ok(())
    }

    /// Puts an operation in the place of the one of its number, which is there. Where there is no room
    /// for it, nothing changes, and it is given back.
    fn put(&mut self, operation: LiveOperation<I>) -> Result<(), AllocFailed<LiveOperation<I>>>
        requires { IsSome (find_live operation.number self.old) }
        ensures ok { OnOk result (self.new ≡ put_live operation self.old) }
        ensures was { Ascend self.old }
        ensures fits { operation.number < 2 ^ 32 }
        ensures given_back { IfErr result (λ e. e.value ≡ operation) }
        ensures err { OnErr result (self.new ≡ self.old) }
    {
        let Some(there) = self.operations.get(&operation.number) else {
            unreachable!()
        };
        let number = operation.number as u32;
        let boxed = Box::new(self.alloc, operation)?;
        let (footprint, other) = (&boxed.footprint, &there.footprint);
        match put_above(&mut self.readers, footprint, number, other, self.scanned) {
            Ok(()) => {}
            Err(_) => {
                let value = Box::into_inner(boxed);
                return Err(AllocFailed { value });
            }
        }
        let Ok(_) = self.operations.insert(u64::from(number), boxed) else {
            unreachable!()
        };
        Ok(())
    }

    /// Removes the operations from that number on. Takes no memory.
    fn cut(&mut self, number: u64)
        ensures { self.new ≡ cut_live number self.old }
    {
        while let Some(first) = self.number_from(number) {
            self.remove(first);
        }
    }

    /// Returns the number of the first operation of that number or a greater one.
    fn number_from(&self, number: u64) -> Option<u64>
        ensures some { IfSome result (λ n. length (without n self.now) < length self.now) }
        ensures same { IfSome result (λ n. cut_live number (without n self.now)
            ≡ cut_live number self.now) }
        ensures none { IfNone result (cut_live number self.now ≡ self.now) }
    {
        let _ = &self.operations;
        match self.first_from(number) {
            Some(operation) => Some(operation.number),
            None => None,
        }
    }

    /// Forgets the index of the operations that are there, so that it takes no memory. What stands in
    /// the way of an undo is then found among them by a look at each that came later.
    pub fn forget_readers(&mut self, alloc: Global)
        ensures { self.new ≡ self.old }
    {
        self.scanned = self.scanned.max(self.last_number());
        self.readers = BTreeSet::new(alloc);
    }

    /// Returns the number of the last operation, or 0 where there is none.
    fn last_number(&self) -> u64
        ensures { AllByRecursion (λ k. k.number ≤ result) self.now }
    {
        let _ = &self.operations;
        match self.last() {
            Some(operation) => operation.number,
            None => 0,
        }
    }

    /// Returns the number of the last operation behind the one of that number that read a cell that
    /// this one wrote, if one did. Takes no memory.
    pub fn blocker(&self, number: u64) -> Option<u64>
        ensures { result ≡ live_blocker number self.now }
    {
        let _ = &self.operations;
        let Some(operation) = self.find(number) else {
            return None;
        };
        let written = &operation.footprint;
        match self.last_entered(&self.readers, number.max(self.scanned), written) {
            Some(last) => Some(last),
            None => self.last_scanned(number, self.scanned, written),
        }
    }

    /// Returns the last operation above that number that reads a cell that is written there. The index
    /// has to have all of those. (It is passed on, since no clause can name a field of the list.)
    fn last_entered(
        &self,
        readers: &BTreeSet<Reader>,
        above: u64,
        written: &KeptFootprint,
    ) -> Option<u64>
        requires { HasAbove above self.now readers.now }
        ensures later { IfSome result (λ n. above < n) }
        ensures found { IfSome result (λ n. reads_at written.now.writes.items self.now n ≡ true) }
        ensures last { IfSome result (λ n. (q : ℕ) → n < q
            → reads_at written.now.writes.items self.now q ≡ false) }
        ensures none { IfNone result ((q : ℕ) → above < q
            → reads_at written.now.writes.items self.now q ≡ false) }
    {
        let mut last = above;
        let mut marks = written.written_marks();
        while let Some(mark) = marks.pass() {
            if let Some(later) = self.last_reader(readers, mark, last, written) {
                last = later;
            }
        }
        if last == above { None } else { Some(last) }
    }

    /// Returns the last operation above that number that is entered under the mark, and reads a cell
    /// that is written there.
    fn last_reader(
        &self,
        readers: &BTreeSet<Reader>,
        mark: u32,
        above: u64,
        written: &KeptFootprint,
    ) -> Option<u64>
        requires { HasAbove above self.now readers.now }
        ensures later { IfSome result (λ n. above < n) }
        ensures found { IfSome result (λ n. reads_at written.now.writes.items self.now n ≡ true) }
        ensures last { IfSome result (λ n. (q : ℕ) → n < q → is_entered self.now mark q ≡ true
            → reads_at written.now.writes.items self.now q ≡ false) }
        ensures none { IfNone result ((q : ℕ) → above < q → is_entered self.now mark q ≡ true
            → reads_at written.now.writes.items self.now q ≡ false) }
    {
        let _ = &self.operations;
        let mut up_to = u32::MAX;
        while let Some(number) = last_up_to(readers, mark, up_to) {
            let later = u64::from(number);
            if later <= above {
                return None;
            }
            if self.reads(later, written) {
                return Some(later);
            }
            up_to = number - 1;
        }
        None
    }

    /// Tells whether the operation of that number is there, and reads a cell that is written there.
    fn reads(&self, number: u64, written: &KeptFootprint) -> bool
        ensures { result ≡ reads_at written.now.writes.items self.now number }
    {
        let _ = &self.operations;
        match self.find(number) {
            Some(operation) => operation.footprint.reads_what_is_written_by(written),
            None => false,
        }
    }

    /// Returns the last operation above the one number, and up to the other, that reads a cell that is
    /// written there. Looks at each, from the last one down.
    fn last_scanned(&self, above: u64, up_to: u64, written: &KeptFootprint) -> Option<u64>
        ensures later { IfSome result (λ n. above < n) }
        ensures found { IfSome result (λ n. reads_at written.now.writes.items self.now n ≡ true) }
        ensures last { IfSome result (λ n. (q : ℕ) → n < q → q ≤ up_to
            → reads_at written.now.writes.items self.now q ≡ false) }
        ensures none { IfNone result ((q : ℕ) → above < q → q ≤ up_to
            → reads_at written.now.writes.items self.now q ≡ false) }
    {
        let mut bound = up_to;
        while let Some(number) = self.number_up_to(bound) {
            if number <= above {
                return None;
            }
            if self.reads(number, written) {
                return Some(number);
            }
            bound = number - 1;
        }
        None
    }

    /// Returns the number of the last operation of that number or a smaller one.
    fn number_up_to(&self, number: u64) -> Option<u64>
        ensures within { IfSome result (λ n. n ≤ number) }
        ensures last { IfSome result (λ n. (q : ℕ) → n < q → q ≤ number
            → find_live q self.now ≡ None) }
        ensures none { IfNone result ((q : ℕ) → q ≤ number → find_live q self.now ≡ None) }
    {
        match self.operations.range(..=number).next_back() {
            Some((last, _)) => Some(*last),
            None => None,
        }
    }
}
