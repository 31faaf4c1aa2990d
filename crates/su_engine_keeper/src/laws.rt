// What follows from what an engine tells.
ghost use Rattle.std.specs.Prelude.{◌≡◌, ◌≤◌, ◌+◌, ◌⊎◌, ℕ, List, ◌∷◌, ◌++◌, Bool, false, Some, slice_get};
ghost use Rattle.std.specs.Global.{Vec};
ghost use Rattle.su_keeper.specs.Kept.{KeptRecord};
ghost use Rattle.su_engine_keeper.specs.Keys.{record_key};
ghost use Rattle.su_engine_keeper.specs.Kept.{Keeps};
ghost use Rattle.su_engine_keeper.specs.Machine.{Event, lacks, held_after, leader_after, IsRun, IsTold, KeepsLead, IsAsked};

/// What anybody was told that a key holds, it holds whatever comes later.
pub fn told_for_good()
    ensures { (events : List Event) (key value : List ℕ) → IsRun events → IsTold events key value
        → held_after events key ≡ Some value }
{}

/// Keepers of several servers, one after another or side by side, hold one list of records, as far
/// as each goes.
pub fn one_list()
    ensures { (events : List Event) → IsRun events
        → (halted halted' : Bool) (count count' : ℕ) (found found' : List (Vec ℕ))
        (records records' : List KeptRecord)
        → Keeps (IsTold events) halted count found records
        → Keeps (IsTold events) halted' count' found' records'
        → (i : ℕ) (r r' : KeptRecord) → slice_get records i ≡ Some r
        → slice_get records' i ≡ Some r' → r.commit ≡ r'.commit }
{}

/// Where the one who leads was told that a key holds nothing, it holds nothing but what that one
/// asks for, until another one takes the lead: no put of a former leader comes in behind.
pub fn only_the_leader_adds()
    ensures { (before after : List Event) (token : ℕ) (key value : List ℕ)
        → IsRun (before ++ (lacks key ∷ after)) → leader_after before ≡ Some token
        → KeepsLead after → held_after (before ++ (lacks key ∷ after)) key ≡ Some value
        → IsAsked token key value after }
{}

/// A server whose keeper found the end of the records, behind so many of those that it has, has all
/// records that any keeper was told of before.
pub fn begins_with_all()
    ensures { (before after : List Event) (ended : ℕ)
        → IsRun (before ++ (lacks (record_key (ended + 1)) ∷ after))
        → (halted : Bool) (count count' : ℕ) (found found' : List (Vec ℕ))
        (records records' : List KeptRecord)
        → Keeps (IsTold (before ++ (lacks (record_key (ended + 1)) ∷ after)))
        false count found records
        → ended ≤ count → Keeps (IsTold before) halted count' found' records'
        → (i : ℕ) (r' : KeptRecord) → slice_get records' i ≡ Some r'
        → (r : KeptRecord) × (slice_get records i ≡ Some r) × (r.commit ≡ r'.commit) }
{}

/// As long as that server leads, no keeper is told of a record that isn't among those either, but
/// for what the server itself asks for under the next number.
pub fn no_record_comes_behind()
    ensures { (before after : List Event) (token ended : ℕ)
        → IsRun (before ++ (lacks (record_key (ended + 1)) ∷ after))
        → leader_after before ≡ Some token → KeepsLead after
        → (halted : Bool) (count count' : ℕ) (found found' : List (Vec ℕ))
        (records records' : List KeptRecord)
        → Keeps (IsTold (before ++ (lacks (record_key (ended + 1)) ∷ after)))
        false count found records
        → ended ≤ count
        → Keeps (IsTold (before ++ (lacks (record_key (ended + 1)) ∷ after)))
        halted count' found' records'
        → (i : ℕ) (r' : KeptRecord) → slice_get records' i ≡ Some r'
        → ((r : KeptRecord) × (slice_get records i ≡ Some r) × (r.commit ≡ r'.commit))
        ⊎ ((value : List ℕ) × IsAsked token (record_key (ended + 1)) value after) }
{}
