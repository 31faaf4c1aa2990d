// How files are called.
ghost use Rattle.std.specs.Prelude.{◌≡◌, IfOk, OnOk, OnErr, option_copied};
ghost use Rattle.std.specs.FinMap.{empty};
ghost use Rattle.su_bytes.specs.FileId.{file_id_bytes};
ghost use Rattle.su_history_text.specs.FileNames.{path_at, with_path};

use std::alloc::{AllocError, Global};
use std::collections::BTreeMap;
use std::marker::Model;
use su_bytes::FileId;

/// The bytes of a path.
#[derive(Drop)]
struct Path {
    bytes: Vec<u8>,
}

impl Model for Path {
    ghost use Rattle.std.specs.Prelude.{ℕ, List};

    ghost Value = { List ℕ };

    ghost view = { λ path. path.bytes.items };
}

impl Path {
    fn new(bytes: Vec<u8>) -> Path
        ensures { result ≡ bytes.items }
    {
        Path { bytes }
    }

    fn as_bytes(&self) -> &[u8]
        ensures { result.now ≡ self.now }
    {
        &self.bytes
    }
}

/// The paths that lead to files now, one for each file that has one. Its model is the map from the
/// bytes of their ids to them.
#[derive(Drop)]
pub struct FileNames {
    paths: BTreeMap<[u8; 6], Path>,
    alloc: Global,
}

impl Model for FileNames {
    ghost use Rattle.std.specs.FinMap.{code, from_entries};
    ghost use Rattle.std.specs.Coded.{coded_list, coded_ℕ};
    ghost use Rattle.su_history_text.specs.FileNames.{Names};

    ghost Value = { Names };

    ghost coded = { code (coded_list coded_ℕ) (coded_list coded_ℕ) };

    ghost view = { λ names. from_entries names.paths.entries };
}

impl FileNames {
    /// Makes those of no file.
    pub fn new(alloc: Global) -> FileNames
        ensures { result ≡ empty }
    {
        FileNames {
            paths: BTreeMap::new(alloc),
            alloc,
        }
    }

    /// Gives a file the path that leads to it, where it has none yet: of several the first one
    /// stays. Fails only for want of memory, and then changes nothing.
    pub fn put(&mut self, file: FileId, path: &[u8]) -> Result<(), AllocError>
        ensures ok { OnOk result (self.new ≡ with_path self.old file path.now) }
        ensures err { OnErr result (self.new ≡ self.old) }
    {
        let key = key_of(file);
        if self.paths.contains_key(&key) {
            return Ok(());
        }
        let bytes = Vec::from_slice(self.alloc, path)?;
        self.paths.insert(key, Path::new(bytes))?;
        Ok(())
    }

    /// Lends the path of a file, if it has one.
    pub fn path_of(&self, file: FileId) -> Option<&[u8]>
        ensures { option_copied result ≡ path_at self.now file }
    {
        let path = self.paths.get(&key_of(file))?;
        Some(path.as_bytes())
    }
}

/// Returns the bytes of a file id.
fn key_of(file: FileId) -> [u8; 6]
    ensures { result ≡ file_id_bytes file }
{
    match file {
        FileId::User(user, number) => {
            let [first, second, third, fourth] = number.number().to_be_bytes();
            [0, user.number(), first, second, third, fourth]
        }
        FileId::Group(group, number) => {
            let [first, second, third, fourth] = number.number().to_be_bytes();
            [1, group.number(), first, second, third, fourth]
        }
    }
}
