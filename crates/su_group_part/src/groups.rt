// A group's i-table of which parts may be left on a store.
ghost use Rattle.std.specs.Prelude.{◌≡◌, ◌↔◌, ◌⊎◌, ℕ, List, Contains, true, Err, OnOk, OnErr, IfOk, IfErr, Some, None};
ghost use Rattle.sha2.specs.Sha256.{sha256};
ghost use Rattle.su_bytes.specs.declared.refusals.Refusal.TheVariants.{Malformed, NoMemory, SourceFailed};
ghost use Rattle.su_bytes.specs.declared.principals.Principal.TheVariants.{Group};
ghost use Rattle.su_tree.specs.Collision.{encodings};
ghost use Rattle.su_tree.specs.Number.{numbers};
ghost use Rattle.su_tree.specs.Value.{place_bytes};
ghost use Rattle.su_part_tree.specs.Loading.{FailedAtItem, IsLoadRefusal};
ghost use Rattle.su_part_tree.specs.Part.{HasAll, HasNone, HasRoot, IsItemIn};
ghost use Rattle.su_part_tree.specs.Putting.{Took};
ghost use Rattle.su_table.specs.Tree.{Tree};
ghost use Rattle.su_table.specs.Cell.{Cell.Pointer, place_value, val};
ghost use Rattle.su_table.specs.Edit.{Edit.Pointers, edit};
ghost use Rattle.su_table.specs.Handle.{group_table, handle};
ghost use Rattle.su_table.specs.Query.{is_nothing};
ghost use Rattle.std.specs.FinMap.{find, get};
ghost use Rattle.std.specs.Ordering.{nat_cmp};
ghost use Rattle.su_part_tree.specs.Part.{loaded};
ghost use Rattle.su_group_part.specs.Part.{FreeGroup, HasPointer, KnowsPointer, MeantGroup, StandsGroup, place_sort};

use std::alloc::Global;
use su_block::BlockSource;
use su_bytes::{Digest, Inum, Place, Refusal};
use su_part_tree::PartTree;

/// A group's i-table: from the numbers of its files to the places of their bodies.
#[derive(Drop)]
pub struct GroupPart {
    pub(crate) table: PartTree<u32, Place>,
}

impl GroupPart {
    /// Makes the part of which only the group's i-handle is known: all else is left on the store.
    pub fn stub(alloc: Global, i_handle: Digest) -> GroupPart
        ensures { (g : ℕ) (T : Tree) → MeantGroup g T → i_handle ≡ handle T (Group g)
            → StandsGroup g result T }
    {
        GroupPart {
            table: PartTree::stub(alloc, i_handle),
        }
    }

    /// Makes the part of a group that has no file, all of it loaded.
    pub fn empty(alloc: Global) -> GroupPart
        ensures stands { (g : ℕ) (T : Tree) → ((n : ℕ) → get T.pointers (g, n) ≡ None)
            → StandsGroup g result T }
        ensures reached { (n : ℕ) → HasPointer n result }
        ensures all { HasAll result.table }
    {
        GroupPart {
            table: PartTree::empty(alloc),
        }
    }

    /// Returns the group's i-handle. It makes no hash.
    pub fn handle(&self) -> Digest
        ensures { (g : ℕ) (T : Tree) → StandsGroup g self.now T → result ≡ handle T (Group g) }
    {
        self.table.digest()
    }

    /// Loads what the path of a number needs, which is at most 33 nodes. Refused by the source, by
    /// want of memory, or with `Malformed(0)` where an item spells no node of the table. Then it
    /// stands for what it stood for, and a part of the path may be loaded.
    pub fn fetch_pointer<S: BlockSource>(
        &mut self,
        number: Inum,
        source: &mut S,
    ) -> Result<(), Refusal>
        requires { S.is_checked ≡ true }
        ensures stands { (g : ℕ) (T : Tree) → StandsGroup g self.old T
            → FreeGroup g T (S.may_give source.old) → StandsGroup g self.new T }
        ensures malformed { result ≡ Err (Malformed 0) → (g : ℕ) (T : Tree)
            → StandsGroup g self.old T → FreeGroup g T (S.may_give source.old) → ⊥ }
        ensures failed { (g : ℕ) (T : Tree) → StandsGroup g self.old T
            → FreeGroup g T (S.may_give source.old)
            → IfErr result (FailedAtItem place_sort (group_table T g) (S.failed source.new)) }
        ensures refused { IfErr result IsLoadRefusal }
        ensures has { OnOk result (HasPointer number self.new) }
        ensures keeps { (n : ℕ) → HasPointer n self.old → HasPointer n self.new }
        ensures no_more { (s : List ℕ) → S.may_give source.new s → S.may_give source.old s }
        ensures follows { S.follows source.old source.new }
    {
        self.table.reach(&number.number(), source)
    }

    /// Returns where the pointer of a number leads, if there is one. The number's path is loaded.
    pub fn pointer(&self, number: Inum) -> Option<Place>
        requires { HasPointer number self.now }
        ensures { (g : ℕ) (T : Tree) → StandsGroup g self.now T
            → place_value result ≡ val T (Pointer (g, number)) }
    {
        self.table.get(&number.number()).copied()
    }

    /// Returns where the pointer of a number leads, if it is loaded.
    pub fn find(&self, number: Inum) -> Option<Place>
        ensures { (g : ℕ) (T : Tree) → StandsGroup g self.now T
            → result ≡ find nat_cmp number (loaded self.now.table) }
    {
        self.table.find(&number.number()).copied()
    }
}

impl GroupPart {
    /// Points the file of a number, whose path is loaded, at a place. Takes memory only where the
    /// file has no pointer yet. Fails only with `NoMemory`, and then changes nothing.
    pub fn put_pointer(&mut self, number: Inum, place: Place) -> Result<(), Refusal>
        requires { HasPointer number self.old }
        ensures ok { (g : ℕ) (T : Tree) → StandsGroup g self.old T
            → OnOk result (StandsGroup g self.new (edit T (Pointers (g, number) (Some place)))) }
        ensures refused { IfErr result (λ e. e ≡ NoMemory) }
        ensures absent { (g : ℕ) (T : Tree) → StandsGroup g self.old T
            → OnErr result (is_nothing (val T (Pointer (g, number))) ≡ true) }
        ensures err { OnErr result (self.new ≡ self.old) }
        ensures keeps { (n : ℕ) → HasPointer n self.old → HasPointer n self.new }
    {
        self.table.put(number.number(), place)?;
        Ok(())
    }

    /// Removes the pointer of a number, if there is one; where the number's path isn't loaded, the
    /// group has no pointer there. What was known stays known. It takes no memory. No path is
    /// promised to be loaded then.
    pub fn remove_pointer(&mut self, number: Inum)
        ensures stands { (g : ℕ) (T : Tree) → StandsGroup g self.old T
            → KnowsPointer g T number self.old
            → StandsGroup g self.new (edit T (Pointers (g, number) None)) }
        ensures known { (g : ℕ) (T : Tree) → StandsGroup g self.old T
            → KnowsPointer g T number self.old → (n : ℕ) → KnowsPointer g T n self.old
            → KnowsPointer g (edit T (Pointers (g, number) None)) n self.new }
    {
        self.table.take(&number.number());
    }

    /// Copies the part; what is left on the store is left there in the copy. Fails only with
    /// `NoMemory`.
    pub fn copy(&self) -> Result<GroupPart, Refusal>
        ensures stands { (g : ℕ) (T : Tree) → StandsGroup g self.now T
            → IfOk result (λ copy. StandsGroup g copy T) }
        ensures reached { (n : ℕ)
            → IfOk result (λ copy. HasPointer n copy ↔ HasPointer n self.now) }
        ensures all { HasAll self.now.table → IfOk result (λ copy. HasAll copy.table) }
        ensures refused { IfErr result (λ e. e ≡ NoMemory) }
    {
        Ok(GroupPart {
            table: self.table.copy()?,
        })
    }
}

impl GroupPart {
    /// Leaves the table on the store: puts the item of each loaded node, those of its sides first,
    /// and keeps the digest alone once it was put. Refused with `SourceFailed` where the source
    /// could not be asked, and with `NoMemory` where memory is wanting; then what wasn't put is
    /// still loaded.
    pub fn shed<S: BlockSource>(&mut self, source: &mut S) -> Result<(), Refusal>
        ensures stands { (g : ℕ) (T : Tree) → StandsGroup g self.old T → StandsGroup g self.new T }
        ensures none { OnOk result (HasNone self.new.table) }
        ensures put { OnOk result ((s : List ℕ) → IsItemIn place_sort self.old.table s
            → Took S.follows S.puts source.old source.new s) }
        ensures not_lost { (s : List ℕ) → IsItemIn place_sort self.old.table s
            → Took S.follows S.puts source.old source.new s
            ⊎ IsItemIn place_sort self.new.table s }
        ensures more { (s : List ℕ) → S.may_give source.new s
            → S.may_give source.old s ⊎ IsItemIn place_sort self.old.table s }
        ensures hashed { (g : ℕ) (T : Tree) → StandsGroup g self.old T → (s : List ℕ)
            → IsItemIn place_sort self.old.table s
            → Contains (encodings (numbers place_bytes) (group_table T g)) s }
        ensures all { (g : ℕ) (T : Tree) → StandsGroup g self.old T → HasAll self.old.table
            → (s : List ℕ) → Contains (encodings (numbers place_bytes) (group_table T g)) s
            → IsItemIn place_sort self.old.table s }
        ensures root { (g : ℕ) (T : Tree) → StandsGroup g self.old T → HasRoot self.old.table
            → (s : List ℕ) × IsItemIn place_sort self.old.table s
            × (sha256 s ≡ handle T (Group g)) }
        ensures failed { (g : ℕ) (T : Tree) → StandsGroup g self.old T
            → IfErr result (FailedAtItem place_sort (group_table T g) (S.failed source.new)) }
        ensures refused { IfErr result (λ e. (e ≡ SourceFailed) ⊎ (e ≡ NoMemory)) }
        ensures follows { S.follows source.old source.new }
    {
        self.table.shed(source)
    }

    /// Leaves the table on the store: only its digest stays.
    pub fn leave(&mut self)
        ensures { (g : ℕ) (T : Tree) → StandsGroup g self.old T → StandsGroup g self.new T }
    {
        self.table.forget();
    }
}
