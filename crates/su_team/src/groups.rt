// A digest in groups, as people compare it by voice.
ghost use Rattle.std.specs.Prelude.{◌≡◌, ◌++◌, ◌<◌, ◌∷◌, [], ℕ, List, IfOk, OnOk, MatchOption, if◌then◌else◌};
ghost use Rattle.std.specs.String.{string_bytes};
ghost use Rattle.hex.specs.Hex.{encode_lower};
ghost use Rattle.su_team.specs.Group.{IsDigest, blank_before, byte_shown, groups_of};

use std::alloc::{AllocError, Global};
use su_bytes::Digest;

/// Bytes of a digest.
const DIGEST_LENGTH: usize = 32;

/// Bytes of a group, of two digits each.
const GROUP_LENGTH: usize = 4;

/// Spells a digest as eight groups of eight digits in lower case, with a space between two.
pub fn grouped(alloc: Global, digest: &Digest) -> Result<String, AllocError>
    ensures { IfOk result (λ text. string_bytes text ≡ groups_of digest.now) }
{
    let bytes: &[u8] = digest.as_bytes();
    let mut text = String::new(alloc);
    for (place, byte) in bytes.iter().enumerate() {
        push_byte(alloc, &mut text, place, *byte)?;
    }
    Ok(text)
}

/// Appends the digits of the byte at a place, behind a space where a further group begins.
fn push_byte(alloc: Global, text: &mut String, place: usize, byte: u8) -> Result<(), AllocError>
    ensures { OnOk result (string_bytes text.new ≡ string_bytes text.old ++ byte_shown place byte) }
{
    if begins_group(place) {
        text.push_str(" ")?;
    }
    let digits = hex::encode(alloc, &[byte])?;
    text.push_str(digits.as_str())
}

/// Whether a further group begins with the byte at a place.
fn begins_group(place: usize) -> bool
    ensures { blank_before place ≡ (if result then 32 ∷ [] else []) }
{
    place != 0 && place % GROUP_LENGTH == 0
}

/// Reads the digest that a text spells as `grouped` does; `None` where it spells none.
pub fn read_groups(text: &[u8]) -> Option<Digest>
    ensures { MatchOption result
        ((digest : List ℕ) → IsDigest digest → text.now ≡ groups_of digest → ⊥)
        (λ digest. text.now ≡ groups_of digest) }
{
    let mut bytes = [0; DIGEST_LENGTH];
    let mut left = text;
    for place in 0..DIGEST_LENGTH {
        let (byte, behind) = take_byte(left, place)?;
        bytes[place] = byte;
        left = behind;
    }
    if !left.is_empty() {
        return None;
    }
    Some(Digest::new(bytes))
}

/// Reads the byte at a place from the front of a text, and lends what is behind it.
fn take_byte(text: &[u8], place: usize) -> Option<(u8, &[u8])>
    ensures { MatchOption result
        ((byte : ℕ) (rest : List ℕ) → byte < 256 → text.now ≡ byte_shown place byte ++ rest → ⊥)
        (λ taken. text.now ≡ byte_shown place taken.0 ++ taken.1.now) }
{
    let [high, low, behind @ ..] = skip_blank(text, place)? else {
        return None;
    };
    let byte = read_byte(*high, *low)?;
    Some((byte, behind))
}

/// Lends what is behind the space that stands before the byte at a place, if one should.
fn skip_blank(text: &[u8], place: usize) -> Option<&[u8]>
    ensures { MatchOption result ((rest : List ℕ) → text.now ≡ blank_before place ++ rest → ⊥)
        (λ rest. text.now ≡ blank_before place ++ rest.now) }
{
    if !begins_group(place) {
        return Some(text);
    }
    match text {
        [b' ', rest @ ..] => Some(rest),
        _ => None,
    }
}

/// Reads two digits in lower case.
fn read_byte(high: u8, low: u8) -> Option<u8>
    ensures { MatchOption result
        ((byte : ℕ) → byte < 256 → high ∷ low ∷ [] ≡ encode_lower (byte ∷ []) → ⊥)
        (λ byte. high ∷ low ∷ [] ≡ encode_lower (byte ∷ [])) }
{
    let mut byte = [0];
    if hex::decode_to_slice(&[high, low], &mut byte).is_err() {
        return None;
    }
    let mut digits = [0; 2];
    if hex::encode_to_slice(byte, &mut digits).is_err() || digits != [high, low] {
        return None;
    }
    Some(byte[0])
}
