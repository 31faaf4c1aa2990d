// The front of a digest, in groups as people compare it by voice.
ghost use Rattle.std.specs.Prelude.{◌≡◌, ◌*◌, length, IfOk, IfSome};
ghost use Rattle.su_people_line.specs.Deed.{IsFront};

use std::alloc::{AllocError, Global};

/// Bytes of a group, of two digits each.
const GROUP_LENGTH: usize = 4;

/// Groups of a whole digest.
const GROUP_COUNT: usize = 8;

/// Reads 1 to 8 groups of eight hex digits, one or several in a word, with blanks between; `None`
/// where the words are no such groups.
pub(crate) fn front_of(alloc: Global, words: &[&str]) -> Result<Option<Vec<u8>>, AllocError>
    ensures { IfOk result (λ front. IfSome front (λ front. IsFront front.items)) }
{
    let mut groups = Vec::new(alloc);
    for word in words {
        if !push_groups(&mut groups, word)? {
            return Ok(None);
        }
    }
    if groups.is_empty() || GROUP_COUNT < groups.len() {
        return Ok(None);
    }
    let front = joined(alloc, &groups)?;
    Ok(Some(front))
}

/// Appends the groups that stand in a word; tells whether there is nothing else in it.
fn push_groups(groups: &mut Vec<[u8; GROUP_LENGTH]>, word: &str) -> Result<bool, AllocError> {
    for text in word.split_whitespace() {
        let Some(group) = group_of(text) else {
            return Ok(false);
        };
        groups.push(group)?;
    }
    Ok(true)
}

/// Reads a group.
fn group_of(text: &str) -> Option<[u8; GROUP_LENGTH]> {
    let mut group = [0; GROUP_LENGTH];
    if hex::decode_to_slice(text, &mut group).is_err() {
        return None;
    }
    Some(group)
}

/// Joins the bytes of groups.
fn joined(alloc: Global, groups: &[[u8; GROUP_LENGTH]]) -> Result<Vec<u8>, AllocError>
    ensures { IfOk result (λ bytes. length bytes.items ≡ 4 * length groups.now) }
{
    let mut bytes = Vec::new(alloc);
    for group in groups {
        bytes.extend_from_slice(group)?;
    }
    Ok(bytes)
}
