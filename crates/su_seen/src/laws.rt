// What holds of the lines that tell of files.
ghost use Rattle.std.specs.Prelude.{◌≡◌};
ghost use Rattle.std.specs.FinMap as map;
ghost use Rattle.su_seen.specs.Seen.{Seen, told_by};

/// The lines that `SeenFiles::spelled` writes tell the files that they are spelled of.
pub fn lines_tell_what_they_spell()
    ensures { (seen : Seen) → told_by map.empty (map.entries seen) ≡ seen }
{}
