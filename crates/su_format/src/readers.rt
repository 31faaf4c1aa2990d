// Bytes are read part by part.
ghost use Rattle.std.specs.Prelude.{◌≡◌, ◌≢◌, ◌⊎◌, ◌<◌, ◌≤◌, ◌^◌, IfOk, IfErr, OnOk, OnErr, IfSome, IfNone, [], length, true};
ghost use Rattle.su_format.specs.Part.{u8_part, u16_part, u32_part, u64_part, bytes_part, rest_part, digest_part, mark_part, user_part, group_part, inum_part, principal_part, file_id_part, name_part, kind_part, principal_bytes, kind_bytes};
ghost use Rattle.su_bytes.specs.Principal.{is_principal};
ghost use Rattle.su_bytes.specs.FileId.{is_file_id, file_id_bytes};
ghost use Rattle.su_bytes.specs.declared.principals.Principal.{Principal as Principal_};
ghost use Rattle.su_bytes.specs.declared.file_ids.FileId.{FileId as FileId_};
ghost use Rattle.su_bytes.specs.declared.file_ids.Kind.{Kind as Kind_};
ghost use Rattle.su_format.specs.Reading.{Took, Takes};
ghost use Rattle.su_bytes.specs.declared.refusals.Refusal.TheVariants.{Malformed, NoMemory};

use std::alloc::Global;
use std::marker::Model;
use su_bytes::{Digest, FileId, Group, Inum, Kind, Name, Principal, Refusal, User};

/// Reads values one after another from bytes. Its model is how many bytes were taken, and those
/// that are left. Each `take` takes what spells a value, and goes on behind it; where the bytes
/// that are left begin with no spelling of one it answers `Malformed` with the place of the first
/// of them, and nothing is taken.
#[derive(Debug, Drop)]
pub struct Reader<'a> {
    left: &'a [u8],
    place: usize,
}

impl<'a> Model for Reader<'a> {
    ghost use Rattle.std.specs.Prelude.{◌<◌, ◌+◌, ◌^◌, length};
    ghost use Rattle.su_format.specs.Reading.{Reading};

    ghost Value = { Reading };

    ghost view = { λ r. record { place = r.place; left = r.left.now } };

    ghost invariant = { λ r. r.place + length r.left.now < 2 ^ 64 };
}

impl<'a> Reader<'a> {
    /// Makes a reader of these bytes, of which none was taken.
    pub fn new(bytes: &'a [u8]) -> Reader<'a>
        ensures { result ≡ record { place = 0; left = bytes.now } }
    {
        Reader {
            left: bytes,
            place: 0,
        }
    }

    /// Returns how many bytes were taken: the place of the first that is left.
    pub fn place(&self) -> u64
        ensures { result ≡ self.now.place }
    {
        self.place as u64
    }

    // The refusal of a part that would begin here.
    fn malformed(&self) -> Refusal
        ensures { result ≡ Malformed self.now.place }
    {
        Refusal::Malformed(self.place())
    }

    // A reader of the same bytes, which may go ahead.
    fn ahead(&self) -> Reader<'a>
        ensures { result ≡ self.now }
    {
        Reader {
            left: self.left,
            place: self.place,
        }
    }

    /// Takes that many bytes.
    pub fn take_bytes(&mut self, count: usize) -> Result<&'a [u8], Refusal>
        ensures found { IfOk result (λ x. Takes (bytes_part count) self.old (Ok x.now) self.new) }
        ensures refused { IfErr result (λ e.
            Takes (bytes_part count) self.old (Err e) self.new × (e ≡ Malformed self.old.place)) }
        ensures err { OnErr result (self.new ≡ self.old) }
    {
        if self.left.len() < count {
            return Err(self.malformed());
        }
        let (taken, left) = self.left.split_at(count);
        self.left = left;
        self.place += count;
        Ok(taken)
    }

    /// Takes all bytes that are left.
    #[tactic(auto, unfolding(crate::specs::Part::rest_part))]
    pub fn take_rest(&mut self) -> &'a [u8]
        ensures { Took rest_part self.old result.now self.new }
    {
        let taken = self.left;
        let (_, left) = taken.split_at(taken.len());
        self.left = left;
        self.place += taken.len();
        taken
    }

    // Takes N bytes, if there are so many.
    fn take_array<const N: usize>(&mut self) -> Option<[u8; N]>
        ensures found { IfSome result (λ bytes. Took (bytes_part N) self.old bytes self.new) }
        ensures none { IfNone result ((self.new ≡ self.old) × (length self.old.left < N)) }
    {
        let (array, left) = self.left.split_first_chunk::<N>()?;
        self.left = left;
        self.place += N;
        Some(*array)
    }

    /// Takes a number of one byte.
    pub fn take_u8(&mut self) -> Result<u8, Refusal>
        ensures takes { Takes u8_part self.old result self.new }
        ensures refused { IfErr result (λ e. e ≡ Malformed self.old.place) }
        ensures err { OnErr result (self.new ≡ self.old) }
    {
        let malformed = self.malformed();
        let Some(bytes) = self.take_array::<1>() else {
            return Err(malformed);
        };
        Ok(bytes[0])
    }

    /// Takes a number of two bytes.
    pub fn take_u16(&mut self) -> Result<u16, Refusal>
        ensures takes { Takes u16_part self.old result self.new }
        ensures refused { IfErr result (λ e. e ≡ Malformed self.old.place) }
        ensures err { OnErr result (self.new ≡ self.old) }
    {
        let malformed = self.malformed();
        let Some(bytes) = self.take_array() else {
            return Err(malformed);
        };
        Ok(u16::from_be_bytes(bytes))
    }

    /// Takes a number of four bytes.
    pub fn take_u32(&mut self) -> Result<u32, Refusal>
        ensures takes { Takes u32_part self.old result self.new }
        ensures refused { IfErr result (λ e. e ≡ Malformed self.old.place) }
        ensures err { OnErr result (self.new ≡ self.old) }
    {
        let malformed = self.malformed();
        let Some(bytes) = self.take_array() else {
            return Err(malformed);
        };
        Ok(u32::from_be_bytes(bytes))
    }

    /// Takes a number of eight bytes.
    pub fn take_u64(&mut self) -> Result<u64, Refusal>
        ensures takes { Takes u64_part self.old result self.new }
        ensures refused { IfErr result (λ e. e ≡ Malformed self.old.place) }
        ensures err { OnErr result (self.new ≡ self.old) }
    {
        let malformed = self.malformed();
        let Some(bytes) = self.take_array() else {
            return Err(malformed);
        };
        Ok(u64::from_be_bytes(bytes))
    }

    /// Takes a digest.
    pub fn take_digest(&mut self) -> Result<Digest, Refusal>
        ensures takes { Takes digest_part self.old result self.new }
        ensures refused { IfErr result (λ e. e ≡ Malformed self.old.place) }
        ensures err { OnErr result (self.new ≡ self.old) }
    {
        let malformed = self.malformed();
        let Some(bytes) = self.take_array() else {
            return Err(malformed);
        };
        Ok(Digest::new(bytes))
    }

    /// Takes these very bytes.
    pub fn take_mark(&mut self, mark: &[u8]) -> Result<(), Refusal>
        ensures found { OnOk result (Takes (mark_part mark.now) self.old (Ok mark.now) self.new) }
        ensures refused { IfErr result (λ e.
            Takes (mark_part mark.now) self.old (Err e) self.new × (e ≡ Malformed self.old.place)) }
        ensures err { OnErr result (self.new ≡ self.old) }
    {
        let malformed = self.malformed();
        let mut ahead = self.ahead();
        let Ok(bytes) = ahead.take_bytes(mark.len()) else {
            return Err(malformed);
        };
        if bytes != mark {
            return Err(malformed);
        }
        *self = ahead;
        Ok(())
    }

    /// Takes a user.
    pub fn take_user(&mut self) -> Result<User, Refusal>
        ensures takes { Takes user_part self.old result self.new }
        ensures refused { IfErr result (λ e. e ≡ Malformed self.old.place) }
        ensures err { OnErr result (self.new ≡ self.old) }
    {
        let malformed = self.malformed();
        let mut ahead = self.ahead();
        let Ok(number) = ahead.take_u8() else {
            return Err(malformed);
        };
        let Ok(user) = User::new(u64::from(number)) else {
            return Err(malformed);
        };
        *self = ahead;
        Ok(user)
    }

    /// Takes a group.
    pub fn take_group(&mut self) -> Result<Group, Refusal>
        ensures takes { Takes group_part self.old result self.new }
        ensures refused { IfErr result (λ e. e ≡ Malformed self.old.place) }
        ensures err { OnErr result (self.new ≡ self.old) }
    {
        let malformed = self.malformed();
        let mut ahead = self.ahead();
        let Ok(number) = ahead.take_u8() else {
            return Err(malformed);
        };
        let Ok(group) = Group::new(u64::from(number)) else {
            return Err(malformed);
        };
        *self = ahead;
        Ok(group)
    }

    /// Takes a number of an i-table.
    pub fn take_inum(&mut self) -> Result<Inum, Refusal>
        ensures takes { Takes inum_part self.old result self.new }
        ensures refused { IfErr result (λ e. e ≡ Malformed self.old.place) }
        ensures err { OnErr result (self.new ≡ self.old) }
    {
        let malformed = self.malformed();
        let mut ahead = self.ahead();
        let Ok(number) = ahead.take_u32() else {
            return Err(malformed);
        };
        let Ok(inum) = Inum::new(u64::from(number)) else {
            return Err(malformed);
        };
        *self = ahead;
        Ok(inum)
    }

    /// Takes a user or a group.
    pub fn take_principal(&mut self) -> Result<Principal, Refusal>
        ensures takes { Takes principal_part self.old result self.new }
        ensures refused { IfErr result (λ e. e ≡ Malformed self.old.place) }
        ensures err { OnErr result (self.new ≡ self.old) }
    {
        let malformed = self.malformed();
        let mut ahead = self.ahead();
        let Some(bytes) = ahead.take_array::<2>() else {
            return Err(malformed);
        };
        let Some(principal) = principal_of(&bytes) else {
            return Err(malformed);
        };
        *self = ahead;
        Ok(principal)
    }

    /// Takes a file id.
    pub fn take_file_id(&mut self) -> Result<FileId, Refusal>
        ensures takes { Takes file_id_part self.old result self.new }
        ensures refused { IfErr result (λ e. e ≡ Malformed self.old.place) }
        ensures err { OnErr result (self.new ≡ self.old) }
    {
        let malformed = self.malformed();
        let mut ahead = self.ahead();
        let Some(bytes) = ahead.take_array::<6>() else {
            return Err(malformed);
        };
        let Some(file) = file_id_of(&bytes) else {
            return Err(malformed);
        };
        *self = ahead;
        Ok(file)
    }

    /// Takes a kind.
    pub fn take_kind(&mut self) -> Result<Kind, Refusal>
        ensures takes { Takes kind_part self.old result self.new }
        ensures refused { IfErr result (λ e. e ≡ Malformed self.old.place) }
        ensures err { OnErr result (self.new ≡ self.old) }
    {
        let malformed = self.malformed();
        let mut ahead = self.ahead();
        let Some(bytes) = ahead.take_array::<1>() else {
            return Err(malformed);
        };
        let Some(kind) = kind_of(&bytes) else {
            return Err(malformed);
        };
        *self = ahead;
        Ok(kind)
    }

    /// Takes a name. `NoMemory` where there is no room for it.
    pub fn take_name(&mut self, alloc: Global) -> Result<Name, Refusal>
        ensures takes { Takes name_part self.old result self.new }
        ensures refused { IfErr result (λ e. (e ≡ Malformed self.old.place) ⊎ (e ≡ NoMemory)) }
        ensures err { OnErr result (self.new ≡ self.old) }
    {
        let malformed = self.malformed();
        let mut ahead = self.ahead();
        let Ok(count) = ahead.take_u8() else {
            return Err(malformed);
        };
        let Ok(bytes) = ahead.take_bytes(usize::from(count)) else {
            return Err(malformed);
        };
        match Name::new(alloc, bytes) {
            Ok(name) => {
                *self = ahead;
                Ok(name)
            }
            Err(Refusal::BadName) => Err(malformed),
            Err(_) => Err(Refusal::NoMemory),
        }
    }

    /// Checks that nothing is left. `Malformed` with the place of the first byte that is left,
    /// where there is one.
    pub fn finish(&self) -> Result<(), Refusal>
        ensures found { OnOk result (self.now.left ≡ []) }
        ensures refused { IfErr result (λ e.
            (self.now.left ≢ []) × (e ≡ Malformed self.now.place)) }
    {
        if self.left.is_empty() {
            Ok(())
        } else {
            Err(self.malformed())
        }
    }
}

/// The user or group of that spelling, if there is one.
fn principal_of(bytes: &[u8; 2]) -> Option<Principal>
    ensures found { IfSome result (λ p. (is_principal p ≡ true) × (principal_bytes p ≡ bytes.now)) }
    ensures none { IfNone result ((p : Principal_) → is_principal p ≡ true
        → principal_bytes p ≡ bytes.now → ⊥) }
{
    let [kind, number] = *bytes;
    match kind {
        0 => match User::new(u64::from(number)) {
            Ok(user) => Some(Principal::User(user)),
            Err(_) => None,
        },
        1 => match Group::new(u64::from(number)) {
            Ok(group) => Some(Principal::Group(group)),
            Err(_) => None,
        },
        _ => None,
    }
}

/// The file id of that spelling, if there is one.
fn file_id_of(bytes: &[u8; 6]) -> Option<FileId>
    ensures found { IfSome result (λ f. (is_file_id f ≡ true) × (file_id_bytes f ≡ bytes.now)) }
    ensures none { IfNone result ((f : FileId_) → is_file_id f ≡ true
        → file_id_bytes f ≡ bytes.now → ⊥) }
{
    let [kind, number, a, b, c, d] = *bytes;
    let Ok(inum) = Inum::new(u64::from(u32::from_be_bytes([a, b, c, d]))) else {
        return None;
    };
    match kind {
        0 => match User::new(u64::from(number)) {
            Ok(user) => Some(FileId::User(user, inum)),
            Err(_) => None,
        },
        1 => match Group::new(u64::from(number)) {
            Ok(group) => Some(FileId::Group(group, inum)),
            Err(_) => None,
        },
        _ => None,
    }
}

/// The kind of that spelling, if there is one.
fn kind_of(bytes: &[u8; 1]) -> Option<Kind>
    ensures found { IfSome result (λ k. kind_bytes k ≡ bytes.now) }
    ensures none { IfNone result ((k : Kind_) → kind_bytes k ≡ bytes.now → ⊥) }
{
    match bytes {
        [0] => Some(Kind::File),
        [1] => Some(Kind::Dir),
        _ => None,
    }
}
