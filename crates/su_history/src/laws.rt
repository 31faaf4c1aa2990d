// What holds of the lines of a history, by their definition.
ghost use Rattle.std.specs.Prelude.{◌≡◌, ◌↔◌, ◌≤◌, ℕ, List, All, Contains, length};
ghost use Rattle.std.specs.List.{flat_map, range_with_len};
ghost use Rattle.su_desk.specs.declared.entries.Entry.{Entry};
ghost use Rattle.su_desk.specs.History.{live_numbers};
ghost use Rattle.su_history.specs.declared.line.Line.{Line};
ghost use Rattle.su_history.specs.declared.line.Fate.TheVariants.{Live};
ghost use Rattle.su_history.specs.Line.{lines, numbers};

/// Each entry of a history is in exactly one line: the numbers of the lines, one after another, are
/// those from 1 to that of the last entry.
pub fn each_entry_is_in_one_line()
    ensures { (h : List Entry) → flat_map numbers (lines h) ≡ range_with_len 1 (length h) }
{}

/// A line is live just where the operations of its entries are.
pub fn live_lines_are_live()
    ensures { (h : List Entry) → All (λ (l : Line). (n : ℕ) → l.first ≤ n → n ≤ l.last
        → (l.fate ≡ Live) ↔ Contains (live_numbers h) n) (lines h) }
{}
