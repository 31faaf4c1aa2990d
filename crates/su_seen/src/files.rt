// Up to which commit each file was seen.
ghost use Rattle.std.specs.Prelude.{◌≡◌, ◌++◌, ℕ, List, Some, All, IfOk, IfSome, OnOk, OnErr, length};
ghost use Rattle.std.specs.FinMap as map;
ghost use Rattle.su_seen.specs.Seen.{IsFile, IsTold, TakesLine, file_line, file_lines, told_by};

use crate::lines::{place_of, read_line, spelled_line};
use std::alloc::{AllocError, Global};
use std::collections::BTreeMap;
use std::marker::Model;

/// Up to which commit each file was seen, by its path. Its model is the map from paths to the
/// numbers of commits.
#[derive(Drop)]
pub struct SeenFiles {
    numbers: BTreeMap<Vec<u8>, u64>,
    alloc: Global,
}

impl Model for SeenFiles {
    ghost use Rattle.su_seen.specs.Seen.{Seen, seen_code};
    ghost use Rattle.su_seen.specs.Kept.{AreSorted, seen_of};

    ghost Value = { Seen };

    ghost coded = { seen_code };

    ghost view = { λ s. seen_of s.numbers.entries };

    ghost invariant = { λ s. AreSorted s.numbers.entries };
}

impl SeenFiles {
    /// Makes the map without files.
    pub fn new(alloc: Global) -> SeenFiles
        ensures { result ≡ map.empty }
    {
        SeenFiles {
            numbers: BTreeMap::new(alloc),
            alloc,
        }
    }

    /// Reads lines `NUMBER PATH`, each with a line feed behind it: of two with one path the later
    /// one counts. `None` where some line is none that `spelled_line` writes, or the last one has no
    /// line feed.
    pub fn of_text(alloc: Global, text: &[u8]) -> Result<Option<SeenFiles>, AllocError>
        ensures told { IfOk result (λ found. IfSome found (IsTold text.now)) }
        ensures read { IfOk result (λ found. (files : List (List ℕ × ℕ)) → All IsFile files
            → text.now ≡ file_lines files → found ≡ Some (told_by map.empty files)) }
    {
        let mut files = SeenFiles::new(alloc);
        let mut left = text;
        while !left.is_empty() {
            let Some(taken) = files.take_line(left)? else {
                return Ok(None);
            };
            left = &left[taken..];
        }
        Ok(Some(files))
    }

    /// Notes that the file at a path was seen up to the commit with that number, whatever was noted
    /// of it before. Where memory is refused, nothing changes.
    pub fn note(&mut self, number: u64, path: &[u8]) -> Result<(), AllocError>
        ensures ok { OnOk result (self.new ≡ map.insert self.old path.now number) }
        ensures err { OnErr result (self.new ≡ self.old) }
    {
        let path = Vec::from_slice(self.alloc, path)?;
        self.numbers.insert(path, number)?;
        Ok(())
    }

    /// Returns up to which commit the file at a path was seen. `None` where it wasn't.
    pub fn number_of(&self, path: &[u8]) -> Option<u64>
        ensures { result ≡ map.get self.now path.now }
    {
        self.numbers.get(path).copied()
    }

    /// Returns how many files were seen.
    pub fn count(&self) -> usize
        ensures { result ≡ map.len self.now }
    {
        self.numbers.len()
    }

    /// Spells a line for each file, in the order of their paths, with a line feed behind it.
    pub fn spelled(&self, alloc: Global) -> Result<Vec<u8>, AllocError>
        ensures { IfOk result (λ text. text.items ≡ file_lines (map.entries self.now)) }
    {
        let mut text = Vec::new(alloc);
        for (path, number) in &self.numbers {
            push_line(alloc, &mut text, *number, path)?;
        }
        Ok(text)
    }

    /// Notes what the first line of a text tells, and returns how many bytes it has. `None` where it
    /// is no line with a line feed that tells of a file.
    fn take_line(&mut self, text: &[u8]) -> Result<Option<usize>, AllocError>
        ensures told { IfOk result (λ taken. IfSome taken
            (TakesLine self.old self.new text.now)) }
        ensures read { IfOk result (λ taken. (file : List ℕ × ℕ) (rest : List ℕ) → IsFile file
            → text.now ≡ file_line file ++ rest
            → (taken ≡ Some (length (file_line file)))
            × (self.new ≡ map.insert self.old file.0 file.1)) }
    {
        let place = place_of(b'\n', text);
        if text.len() <= place {
            return Ok(None);
        }
        let Some(file) = read_line(self.alloc, &text[..place])? else {
            return Ok(None);
        };
        self.note(file.number, &file.path)?;
        Ok(Some(place + 1))
    }
}

/// Appends the line of a file, with its line feed.
fn push_line(alloc: Global, text: &mut Vec<u8>, number: u64, path: &[u8]) -> Result<(), AllocError>
    ensures { OnOk result (text.new.items ≡ text.old.items ++ file_line (path.now, number)) }
{
    let line = spelled_line(alloc, number, path)?;
    text.extend_from_slice(line.as_bytes())?;
    text.push(b'\n')?;
    Ok(())
}
