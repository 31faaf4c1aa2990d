// The tree of the list is made anew in memory.
ghost use Rattle.std.specs.Prelude.{◌≡◌, ◌<◌, ◌≤◌, ◌-◌, Some, length, slice_get, IfOk};
ghost use Rattle.su_desk.specs.Trial.{nothing_ready};
ghost use Rattle.su_legal.specs.Legal.{history};

use super::View;
use su_block::BlockSource;
use su_bytes::Refusal;
use su_change::decode;
use su_desk::Entry;
use su_no_blocks::NoBlocks;
use su_stored_desk::TrialDesk;

impl<S: BlockSource + Drop> View<S> {
    /// Makes the tree anew from the changes that the view holds, all of it in memory; the source isn't
    /// asked. Nothing that is held changes. `MissingBlock` where the view has left the entry of one,
    /// `NoMemory`; then the tree stays where it was.
    pub fn reload(&mut self) -> Result<(), Refusal>
        ensures { self.new ≡ self.old }
    {
        let desk = self.desk_anew()?;
        self.keeping.desk.take(desk);
        Ok(())
    }

    /// Makes the desk of the list, all of it in memory. Refused as `reload` is.
    fn desk_anew(&self) -> Result<TrialDesk<NoBlocks>, Refusal>
        ensures { let v = self.now.holding in IfOk result (λ desk. desk.state
            ≡ nothing_ready (record { roster = v.roster; history = history v.held })) }
    {
        let roster = self.keeping.desk.roster().copy()?;
        let mut desk = TrialDesk::new(self.alloc, roster, NoBlocks::new())?;
        for before in 0..self.number() {
            let Entry {
                author,
                format,
                change,
            } = self.entry_made(before + 1)?;
            desk.apply_as(format, author, change)?;
        }
        Ok(desk)
    }

    /// Returns the entry that the commit of that number makes, from 1. `MissingBlock` where the view
    /// has left its entry, `NoMemory`.
    fn entry_made(&self, number: u64) -> Result<Entry, Refusal>
        requires some { 0 < number }
        requires held { number ≤ length self.now.holding.held }
        ensures { IfOk result (λ entry.
            slice_get (history self.now.holding.held) (number - 1) ≡ Some entry) }
    {
        let Some((_, item)) = self.entry(number) else {
            return Err(Refusal::MissingBlock);
        };
        let change = decode(self.alloc, item)?;
        let version = self.keeping.records[(number - 1) as usize].version();
        Ok(Entry {
            author: version.author(),
            format: version.format(),
            change,
        })
    }
}
