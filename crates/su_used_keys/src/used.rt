// Keys that users have, or had.
ghost use Rattle.std.specs.Prelude.{◌≡◌, ◌++◌, ◌∷◌, ℕ, List, [], false, IfOk, IfErr, OnOk};
ghost use Rattle.su_bytes.specs.Keys.{is_among, roster_keys};
ghost use Rattle.su_bytes.specs.Roster.{users_of};
ghost use Rattle.su_bytes.specs.declared.refusals.Refusal.TheVariants.{NoMemory};
ghost use Rattle.su_used_keys.specs.UsedKeys.{HasJust, HasRoom};

use std::alloc::{AllocError, Global};
use std::collections::HashSet;
use std::hash::{BuildHasherDefault, FoldHasher};
use su_bytes::{FileId, KEY_LENGTH, Refusal, Roster, RosterUser};

/// The keys that users of a store have, or had. Whether a key is one of them is found in one
/// look-up.
#[derive(Drop)]
pub struct UsedKeys {
    keys: HashSet<[u8; KEY_LENGTH], BuildHasherDefault<FoldHasher>, Global>,
}

impl UsedKeys {
    /// Makes the set of the keys of a roster's users. Fails only with `NoMemory`.
    pub fn of_roster(alloc: Global, roster: &Roster) -> Result<UsedKeys, Refusal>
        ensures value { IfOk result (λ used. HasJust (roster_keys roster.now) used) }
        ensures refused { IfErr result (λ e. e ≡ NoMemory) }
    {
        // names the type for the prover (docs/ARCHITECTURE.md, "Forms the kit wants")
        let _file: Option<FileId> = None;
        let mut used = UsedKeys::new(alloc);
        for user in roster.users() {
            used.reserve()?;
            used.add(user.key);
        }
        Ok(used)
    }

    /// Makes the set without keys.
    fn new(alloc: Global) -> UsedKeys
        ensures { HasJust [] result }
    {
        UsedKeys {
            keys: HashSet::new(alloc),
        }
    }

    /// Tells whether a key is one of them.
    pub fn has(&self, key: &[u8; KEY_LENGTH]) -> bool
        ensures { (keys : List (List ℕ)) → HasJust keys self.now → result ≡ is_among keys key.now }
    {
        self.keys.contains(key)
    }

    /// Makes room for one more key.
    pub fn reserve(&mut self) -> Result<(), AllocError>
        ensures kept { (keys : List (List ℕ)) → HasJust keys self.old → HasJust keys self.new }
        ensures room { OnOk result (HasRoom self.new) }
    {
        self.keys.reserve(1)
    }

    /// Adds a key, for which there is room. It takes no memory.
    pub fn add(&mut self, key: [u8; KEY_LENGTH])
        requires { HasRoom self.old }
        ensures { (keys : List (List ℕ)) → HasJust keys self.old
            → HasJust (keys ++ key ∷ []) self.new }
    {
        let Ok(_) = self.keys.insert(key) else {
            unreachable!()
        };
    }

    /// Removes the key that was added last, and isn't one of those before it. It takes no memory.
    pub fn remove(&mut self, key: &[u8; KEY_LENGTH])
        ensures { (keys : List (List ℕ)) → is_among keys key.now ≡ false
            → HasJust (keys ++ key.now ∷ []) self.old → HasJust keys self.new }
    {
        self.keys.remove(key);
    }
}
