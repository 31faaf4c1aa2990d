// What holds of the paths of files.
ghost use Rattle.std.specs.Prelude.{◌≡◌, List, Some, unwrap_or, ℕ};
ghost use Rattle.su_bytes.specs.declared.file_ids.FileId.{FileId};
ghost use Rattle.su_history_text.specs.FileNames.{Names, path_at, with_path};

/// Of several paths that are put for a file the first one stays.
pub fn the_first_path_stays()
    ensures { (names : Names) (file : FileId) (path : List ℕ)
        → path_at (with_path names file path) file ≡ Some (unwrap_or (path_at names file) path) }
{}
