// What holds of shown names.
ghost use Rattle.std.specs.Prelude.{◌≡◌, ℕ, ◌<◌, List, Some, All, not};
ghost use Rattle.std.specs.List.{AllPass};
ghost use Rattle.std.specs.Str.{IsUtf8};
ghost use Rattle.su_spelling.specs.Shown.{AreBytes, is_control, shown};
ghost use Rattle.su_spelling.specs.Read.{path_read, read, rooted};

/// What is shown of a name is read as that name, so no two names are shown alike.
pub fn names_are_shown_apart()
    ensures read_back { (name : List ℕ) → AreBytes name → read (shown name) ≡ Some name }
    ensures apart { (a b : List ℕ) → AreBytes a → AreBytes b → shown a ≡ shown b → a ≡ b }
{}

/// What is shown of a path is read as that path, and what is shown of one without its first `/` as
/// the path with it.
pub fn shown_paths_are_read_back()
    ensures { (path : List ℕ) → AreBytes path → path_read (shown path) ≡ Some (rooted path) }
{}

/// What is shown of a name is text, and has no byte that ends a line or acts on a terminal.
pub fn shown_names_stay_on_their_line()
    ensures text { (name : List ℕ) → AreBytes name → IsUtf8 (shown name) }
    ensures line { (name : List ℕ) → AreBytes name
        → AllPass (λ b. not (is_control b)) (shown name) }
{}
