// A client that works with a server, and how it begins what it does.
ghost use Rattle.std.specs.Prelude.{◌≡◌, ◌↔◌, ◌<◌, ◌+◌, [], false, length, IfOk, IfErr, OnOk};
ghost use Rattle.su_bytes.specs.declared.refusals.Refusal.TheVariants.{LinkFailed};
ghost use Rattle.su_message.specs.declared.requests.Request.TheVariants.{Give};
ghost use Rattle.su_message.specs.declared.replies.Reply.TheVariants.{Given};
ghost use Rattle.su_client.specs.Link.{Exchanged, Follows, IsRefusal};
ghost use Rattle.su_part_tree.specs.Loading.{IsLoadRefusal};
ghost use Rattle.su_view.specs.Viewed.{IsClear as IsClearView};
ghost use Rattle.su_client_work.specs.Member.{IsClear, OnlyAsks, OnlyTakes, ReplacesKey, Stays};
ghost use Rattle.su_client_work.specs.Turn.{Comes, GivesUp, IsRefusedTurn, Looks, TakesTurn};

mod catching_up;
mod fetching;
mod turns;

use crate::early::Early;
use crate::sources::{LinkSource, leave_in_scratch};
use crate::surroundings::Surroundings;
use std::alloc::Global;
use std::io::{Read, Write};
use std::marker::Model;
use su_block::BlockSource;
use su_bytes::Refusal;
use su_lms::{KeyStore, Signer};
use su_view::{OwnKey, View, ViewRefusal};

/// A client at work: its view, with a server that need not be trusted as the source of items and of
/// its tree, and the key of its user. A server's lies can refuse it, and nothing more: its list stays
/// legal, and it signs nothing that it may not. (That the list is legal, and what the tree tells, is
/// claimed where no byte strings were mixed up by their SHA-256.)
#[derive(Drop)]
pub struct Member<R: Read + Drop, W: Write + Drop, K: KeyStore> {
    pub(crate) view: View<LinkSource<R, W>>,
    pub(crate) key: OwnKey<K>,
    tries: u32,
    pub(crate) early: Early,
    /// Whether some of the tree may be left to the server.
    has_left: bool,
    /// Whether the tree stays in memory, as it couldn't be left over this link.
    stays: bool,
    pub(crate) alloc: Global,
}

impl<R: Read + Drop, W: Write + Drop, K: KeyStore> Model for Member<R, W, K> {
    ghost use Rattle.std.specs.Map.{values_of};
    ghost use Rattle.std.specs.Prelude.{is_some, length, map};
    ghost use Rattle.su_client_work.specs.Member.{MemberState};

    ghost Value = { MemberState };

    ghost view = { λ s. record {
      holding = s.view.holding;
      link = s.view.source.source.source.source.client.link;
      asked = map (λ a. record {
        kept = values_of a.0.kept;
        has_scratch = is_some a.0.source.source.scratch.file;
        at_hand = a.0.source.source.source.at_hand;
        link = a.0.source.source.source.client.link;
        history = a.1.items;
      }) s.view.asked;
      signed = s.key.signed;
      next = record { keys = length s.key.former; leaf = s.key.next };
    } };
}

impl<R: Read + Drop, W: Write + Drop, K: KeyStore + Drop> Member<R, W, K> {
    /// Makes a client of what it holds, and the key that signs for its user. It asks `tries` times
    /// for a turn that another has, and once where that is 0.
    pub fn new(
        alloc: Global,
        view: View<LinkSource<R, W>>,
        signer: Signer<K>,
        tries: u32,
    ) -> Member<R, W, K>
        ensures holding { result.holding ≡ view.holding }
        ensures link { result.link ≡ view.source.source.source.source.client.link }
        ensures clear { IsClear result
            ↔ IsClearView ⟦<LinkSource<R, W> as BlockSource>⟧.may_give view }
        ensures signed { result.signed ≡ [] }
        ensures next { result.next ≡ record { keys = 0; leaf = signer.next } }
    {
        Member {
            view,
            key: OwnKey::new(signer),
            tries,
            early: Early::new(alloc),
            has_left: false,
            stays: false,
            alloc,
        }
    }

    /// Tells whether the link to the server has failed. All that is asked of it then is refused by
    /// `LinkFailed`, until `begin` makes it anew.
    pub fn has_failed(&mut self) -> bool
        ensures value { result ≡ self.old.link.failed }
        ensures same { self.new ≡ self.old }
    {
        self.view
            .source_mut()
            .source_mut()
            .source_mut()
            .source_mut()
            .client_mut()
            .has_failed()
    }

    /// Puts another signer in the place of the client's own: what the client makes from then on is
    /// signed by that.
    pub fn replace_key(&mut self, signer: Signer<K>)
        ensures { ReplacesKey self.old signer.next self.new }
    {
        self.key.replace(signer);
    }

    /// Leaves the bytes of the commits, and the items of their changes, to whoever has them elsewhere,
    /// as `View::leave_entries` does.
    pub fn leave_entries(&mut self)
        ensures { self.new ≡ record self.old {
          holding = record self.old.holding {
            itemless = length self.old.holding.held;
          };
        } }
    {
        self.view.leave_entries();
    }

    /// Leaves all of the tree in the scratch of the client's own, and what is kept of live operations,
    /// as `leave_in_scratch` does: what is asked of the tree then is loaded from there. Refused as a load
    /// is, and with `SourceFailed` where there is no scratch: what isn't left then stays in memory.
    pub fn set_aside(&mut self) -> Result<(), Refusal>
        ensures refused { IsClear self.new → IfErr result IsLoadRefusal }
        ensures asks { OnlyAsks self.old self.new }
        ensures follows { Follows self.old.link self.new.link }
    {
        leave_in_scratch(&mut self.view)
    }

    /// Leaves all of the tree to the server, but for the digests of its i-tables, as `View::shed`
    /// does: what is asked of the tree then is loaded. The server has it as long as the link lasts.
    /// Refused with `SourceFailed` where the server could not be asked, as a load is refused, and with
    /// `NoMemory`, also where the server has no room: then the tree is made anew in memory, unless the
    /// view has left entries, and isn't left over this link any more.
    pub fn shed(&mut self) -> Result<(), Refusal>
        ensures refused { IsClear self.new → IfErr result IsLoadRefusal }
        ensures asks { OnlyAsks self.old self.new }
        ensures follows { Follows self.old.link self.new.link }
    {
        if self.stays {
            return Err(Refusal::NoMemory);
        }
        self.has_left = true;
        let put = self.put_tree();
        if put.is_err() {
            self.stays = true;
            self.reload();
        }
        put
    }

    /// Leaves the tree to the server, and puts what waits.
    fn put_tree(&mut self) -> Result<(), Refusal>
        ensures refused { IsClear self.new → IfErr result IsLoadRefusal }
        ensures asks { OnlyAsks self.old self.new }
        ensures follows { Follows self.old.link self.new.link }
    {
        if let Err(refusal) = self.view.shed() {
            return Err(refusal);
        }
        let outbox = self
            .view
            .source_mut()
            .source_mut()
            .source_mut()
            .source_mut();
        outbox.settle(self.alloc)
    }

    /// Lends where the leaf that signs next is stored.
    pub fn store(&self) -> &K {
        self.key.store()
    }

    /// Takes the turn, takes the commits that the list lacks, and checks what the server shows as
    /// the users' last commits. Where the link has failed before the turn is granted, as that of a
    /// session that was ended, it is made anew, once. `Busy` where another has the turn each time
    /// that it is asked for, or no worker of the server is free; the refusals of `View::accept` and
    /// `View::check_list`; `Malformed` with a place in the bytes of what is shown as a last commit;
    /// `LinkFailed`; `NoMemory`. Where it is refused, the turn is given back, and what was taken
    /// before stays.
    pub fn begin<A: Surroundings<R, W>>(&mut self, around: &mut A) -> Result<(), ViewRefusal>
        ensures takes { OnlyTakes self.old self.new }
        ensures link { Comes A.may_connect self.old.link self.new.link }
        ensures turn { OnOk result (TakesTurn A.may_connect self.old.link self.new.holding
            self.new.link) }
        ensures refused { IfErr result
            (IsRefusedTurn A.may_connect self.old.link self.new.link) }
    {
        let (count, last) = match self.take_turn(around) {
            Ok(granted) => granted,
            Err(refusal) => return Err(ViewRefusal::Plain(refusal)),
        };
        match self.catch_up(around, count, last.as_slice()) {
            Ok(()) => Ok(()),
            Err(refusal) => {
                self.give_up();
                Err(refusal)
            }
        }
    }

    /// Takes the turn, takes what the list lacks, checks the last commits, and gives the turn back.
    /// The refusals are those of `begin`.
    pub fn look<A: Surroundings<R, W>>(&mut self, around: &mut A) -> Result<(), ViewRefusal>
        ensures takes { OnlyTakes self.old self.new }
        ensures link { Comes A.may_connect self.old.link self.new.link }
        ensures looks { OnOk result (Looks A.may_connect self.old.link self.new.holding
            self.new.link) }
        ensures refused { IfErr result
            (IsRefusedTurn A.may_connect self.old.link self.new.link) }
    {
        self.begin(around)?;
        match self.give() {
            Ok(()) => Ok(()),
            Err(refusal) => Err(ViewRefusal::Plain(refusal)),
        }
    }

    /// Looks as `look` does where the list lacks `most` commits at most, and answers `false`. Else it
    /// takes some `most` of those that the list lacks, gives the turn back, and answers `true`: there
    /// are more, if the server tells no lies. What it shows as last commits is passed by then. The
    /// refusals are those of `begin`.
    pub fn look_some<A: Surroundings<R, W>>(
        &mut self,
        around: &mut A,
        most: u64,
    ) -> Result<bool, ViewRefusal>
        ensures takes { OnlyTakes self.old self.new }
        ensures link { Comes A.may_connect self.old.link self.new.link }
        ensures looks { IfOk result (λ has_more. has_more ≡ false
            → Looks A.may_connect self.old.link self.new.holding self.new.link) }
        ensures refused { IfErr result
            (IsRefusedTurn A.may_connect self.old.link self.new.link) }
    {
        let (count, last) = match self.take_turn(around) {
            Ok(granted) => granted,
            Err(refusal) => return Err(ViewRefusal::Plain(refusal)),
        };
        let caught_up = self.catch_up_some(around, count, last.as_slice(), most);
        if let Ok(false) = caught_up {
            self.give()?;
            return Ok(false);
        }
        self.give_up();
        caught_up
    }

    /// Gives the turn back.
    fn give(&mut self) -> Result<(), Refusal>
        ensures stays { Stays self.old self.new }
        ensures follows { Follows self.old.link self.new.link }
        ensures given { OnOk result (Exchanged Give self.old.link self.new.link Given) }
        ensures refused { IfErr result (IsRefusal Give self.old.link self.new.link) }
    {
        self.view
            .source_mut()
            .source_mut()
            .source_mut()
            .source_mut()
            .client_mut()
            .give()
    }

    /// Gives the turn back that `begin` took. Where that is refused, the server ends it with the
    /// session.
    pub fn give_up(&mut self)
        ensures stays { Stays self.old self.new }
        ensures follows { Follows self.old.link self.new.link }
        ensures gives_up { GivesUp self.old.link self.new.link }
    {
        self.pass_over();
        let _ = self.give();
    }
}
