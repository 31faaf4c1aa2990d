// The lines of users, as they are read.
ghost use Rattle.std.specs.Prelude.{◌≡◌, ◌≢◌, ◌+◌, ◌*◌, ◌<◌, ◌≤◌, ◌++◌, ◌∷◌, ℕ, List, true, false, All, Some, MatchOption, IfOk, IfErr, option_map, length, take, drop, slice_get, slice_index};
ghost use Rattle.std.specs.List.{list_all};
ghost use Rattle.hex.specs.Hex.{encode_lower};
ghost use Rattle.su_team.specs.Team.{AreUsers, IsKey, is_name_byte, is_user_name};
ghost use Rattle.su_team.specs.TeamUsers.{told, users_of};
ghost use Rattle.su_team.specs.WrongLine.{Stops, TakesUser};

use crate::faults::{Mistake, TextFault};
use std::alloc::Global;
use su_bytes::{KEY_LENGTH, User};

/// A user of a team: a name, and the bytes of a public key.
#[derive(Debug, Drop)]
pub(crate) struct TeamUser {
    pub(crate) name: Vec<u8>,
    pub(crate) key: [u8; KEY_LENGTH],
}

/// Most bytes of a name.
const LONGEST_NAME: usize = 32;

/// Digits of a key.
const KEY_DIGITS: usize = 2 * KEY_LENGTH;

/// Reads the line of a user from the front of the bytes, and adds the user to those before it.
/// Returns how many bytes it took.
pub(crate) fn push_user(
    alloc: Global,
    users: &mut Vec<TeamUser>,
    left: &[u8],
) -> Result<usize, TextFault>
    requires { AreUsers (users_of users.old.items) }
    ensures ok { IfOk result (λ taken.
        TakesUser (users_of users.old.items) (users_of users.new.items) left.now taken) }
    ensures wrong { IfErr result (Stops (users_of users.old.items) left.now) }
{
    let line = users.len() + 2;
    let Some(length) = name_length(left) else {
        return Err(TextFault::Line {
            line,
            mistake: Mistake::Name,
        });
    };
    let name = &left[..length];
    if let Some(_same) = place_of(users, name) {
        return Err(TextFault::Line {
            line,
            mistake: Mistake::SameName,
        });
    }
    let Some(key) = front_key(&left[length + 1..]) else {
        return Err(TextFault::Line {
            line,
            mistake: Mistake::Key,
        });
    };
    if users.len() > usize::from(User::LAST.number()) {
        return Err(TextFault::Line {
            line,
            mistake: Mistake::ManyUsers,
        });
    }
    let name = Vec::from_slice(alloc, name)?;
    users.push(TeamUser { name, key })?;
    Ok(length + KEY_DIGITS + 2)
}

/// Returns the place of the user who has the name, if one has it.
pub(crate) fn place_of(users: &[TeamUser], name: &[u8]) -> Option<usize>
    ensures { MatchOption result (All (λ u. (told u).0 ≢ name.now) users.now)
        (λ n. option_map (λ u. (told u).0) (slice_get users.now n) ≡ Some name.now) }
{
    for (place, user) in users.iter().enumerate() {
        if user.name.as_slice() == name {
            return Some(place);
        }
    }
    None
}

/// Returns how many bytes the name has that the bytes begin with, and behind which is a space.
fn name_length(bytes: &[u8]) -> Option<usize>
    ensures { MatchOption result
        ((name rest : List ℕ) → is_user_name name ≡ true → bytes.now ≡ name ++ 32 ∷ rest → ⊥)
        (λ n. (is_user_name (take n bytes.now) ≡ true) × (n < length bytes.now)
        × (bytes.now ≡ take n bytes.now ++ 32 ∷ drop (n + 1) bytes.now)) }
{
    let length = name_bytes(bytes);
    if length < 1 || LONGEST_NAME < length || bytes.len() <= length || bytes[length] != b' ' {
        return None;
    }
    Some(length)
}

/// Returns how many bytes at the front may stand in a name.
fn name_bytes(bytes: &[u8]) -> usize
    ensures within { result ≤ length bytes.now }
    ensures in_names { list_all is_name_byte (take result bytes.now) ≡ true }
    ensures ends { result < length bytes.now
        → is_name_byte (slice_index bytes.now result) ≡ false }
{
    for (place, byte) in bytes.iter().enumerate() {
        if !is_name_byte(*byte) {
            return place;
        }
    }
    bytes.len()
}

fn is_name_byte(byte: u8) -> bool
    ensures { result ≡ is_name_byte byte }
{
    byte.is_ascii_alphanumeric() || byte == b'-' || byte == b'_' || byte == b'.'
}

/// Reads the key that the bytes begin with, and behind which the line ends.
fn front_key(bytes: &[u8]) -> Option<[u8; KEY_LENGTH]>
    ensures { MatchOption result
        ((key rest : List ℕ) → IsKey key → bytes.now ≡ encode_lower key ++ 10 ∷ rest → ⊥)
        (λ key. IsKey key × (2 * KEY_LENGTH < length bytes.now)
        × (bytes.now ≡ encode_lower key ++ 10 ∷ drop (2 * KEY_LENGTH + 1) bytes.now)) }
{
    if bytes.len() <= KEY_DIGITS || bytes[KEY_DIGITS] != b'\n' {
        return None;
    }
    let (digits, _behind) = bytes.split_at(KEY_DIGITS);
    read_key(digits)
}

/// Reads the digits of a key. They are compared with those that the key is spelled with.
fn read_key(digits: &[u8]) -> Option<[u8; KEY_LENGTH]>
    ensures { MatchOption result
        ((key : List ℕ) → IsKey key → digits.now ≡ encode_lower key → ⊥)
        (λ key. IsKey key × (digits.now ≡ encode_lower key)) }
{
    let mut key = [0; KEY_LENGTH];
    if hex::decode_to_slice(digits, &mut key).is_err() {
        return None;
    }
    let mut spelled = [0; KEY_DIGITS];
    if hex::encode_to_slice(key, &mut spelled).is_err() || digits != spelled.as_slice() {
        return None;
    }
    Some(key)
}
