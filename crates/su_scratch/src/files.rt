// A scratch in a file.
ghost use Rattle.std.specs.Prelude.{◌≡◌, ◌⊎◌, [], true, None, IfErr, IfOk, is_some};
ghost use Rattle.su_bytes.specs.declared.refusals.Refusal.TheVariants.{SourceFailed, NoMemory};

use crate::scratches::Scratch;
use std::alloc::Global;
use std::fs::File;
use std::os::unix::fs::FileExt;
use su_bytes::Refusal;

/// A scratch in a file that nobody else writes, or in none: then nothing can be left in it, and it
/// gives nothing. Of a file no contract says what it gives back.
#[derive(Drop)]
pub struct FileScratch {
    file: Option<File>,
    end: u64,
}

impl FileScratch {
    /// Makes it of a file that can be read and written, of which what stands in it is written over.
    pub fn over(file: File) -> FileScratch {
        FileScratch {
            file: Some(file),
            end: 0,
        }
    }

    /// Makes one without a file.
    pub fn none() -> FileScratch
        ensures { result.file ≡ None }
    {
        FileScratch { file: None, end: 0 }
    }
}

impl Scratch for FileScratch {
    // Anything, where there is a file.
    ghost may_give = { λ s _. is_some s.file ≡ true };

    // No contract says so of a file.
    ghost keeps = { λ s. ⊥ };

    ghost written = { λ s. [] };

    fn end(&self) -> u64 {
        self.end
    }

    fn append(&mut self, bytes: &[u8]) -> Result<(), Refusal>
        ensures file { is_some self.new.file ≡ is_some self.old.file }
        ensures refused { IfErr result (λ e. e ≡ SourceFailed) }
    {
        let Some(file) = &self.file else {
            return Err(Refusal::SourceFailed);
        };
        if file.write_all_at(bytes, self.end).is_err() {
            return Err(Refusal::SourceFailed);
        }
        self.end = self.end.saturating_add(bytes.len() as u64);
        Ok(())
    }

    fn read(&mut self, alloc: Global, place: u64, count: usize) -> Result<Vec<u8>, Refusal>
        ensures given { IfOk result (λ _. is_some self.old.file ≡ true) }
        ensures file { is_some self.new.file ≡ is_some self.old.file }
        ensures refused { IfErr result (λ e. (e ≡ SourceFailed) ⊎ (e ≡ NoMemory)) }
    {
        let Some(file) = &self.file else {
            return Err(Refusal::SourceFailed);
        };
        let mut bytes = vec![in alloc; 0u8; count]?;
        match file.read_exact_at(&mut bytes, place) {
            Ok(()) => Ok(bytes),
            Err(_) => Err(Refusal::SourceFailed),
        }
    }
}
