// The tree with what stands ready is asked about.
use super::TrialDesk;
use su_block::BlockSource;
use su_bytes::{FileId, Group, Inum, Name, Place, Refusal, User};
use su_reading::{InodeHead, TreeReader};

impl<S: BlockSource> TreeReader for TrialDesk<S> {
    ghost use Rattle.std.proofs.Common.{◌∙◌, ⊎_elim, inl, inr, refl};
    ghost use Rattle.su_stored_desk.specs.Asked.{FailsReady, FollowsReady, ShowsReady};

    ghost shows = { ShowsReady S.may_give };

    ghost fails = { FailsReady S.failed };

    ghost follows = { FollowsReady S.may_give S.follows };

    fn body(&mut self, file: FileId) -> Result<Option<Place>, Refusal> {
        self.note_asked();
        self.desk.stored.body(file)
    }

    fn head(&mut self, place: Place) -> Result<Option<InodeHead>, Refusal> {
        self.note_asked();
        self.desk.stored.head(place)
    }

    fn led_to(&mut self, place: Place, name: &Name) -> Result<Option<FileId>, Refusal> {
        self.note_asked();
        self.desk.stored.led_to(place, name)
    }

    fn names(&mut self, place: Place) -> Result<Option<Vec<(Name, FileId)>>, Refusal> {
        self.note_asked();
        self.desk.stored.names(place)
    }

    fn bytes(&mut self, place: Place, off: u64, len: u64) -> Result<Option<Vec<u8>>, Refusal> {
        self.note_asked();
        self.desk.stored.bytes(place, off, len)
    }

    fn free_number(&mut self, user: User, from_: Inum) -> Result<Option<Inum>, Refusal> {
        self.note_asked();
        self.desk.stored.free_number(user, from_)
    }

    fn free_group_number(&mut self, group: Group, from_: Inum) -> Result<Option<Inum>, Refusal> {
        self.note_asked();
        self.desk.stored.free_group_number(group, from_)
    }

    fn next_inode(&mut self, user: User, from_: Inum) -> Result<Option<Inum>, Refusal> {
        self.note_asked();
        self.desk.stored.next_inode(user, from_)
    }

    ghost follows_itself = { λ t. record {
      state = refl;
      asks = record {
        source = record { follows = S.follows_itself t.source; no_more = λ i gives. gives };
        clear = λ clear. clear;
        only = λ a was. inl was;
      };
    } };

    ghost follows_on = { λ a b c h k. record {
      state = k.state ∙ h.state;
      asks = record {
        source = record {
          follows = S.follows_on a.source b.source c.source
              h.asks.source.follows k.asks.source.follows;
          no_more = λ i gives. h.asks.source.no_more i (k.asks.source.no_more i gives);
        };
        clear = λ clear. h.asks.clear (k.asks.clear clear);
        only = λ x was. ⊎_elim (h.asks.only x)
            (λ no_more. inr (λ i gives. h.asks.source.no_more i (no_more i gives)))
            (k.asks.only x was);
      };
    } };
}
