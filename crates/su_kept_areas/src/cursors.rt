// Going over the marks of a footprint, one after another, where its areas are spelled.
ghost use Rattle.std.specs.Prelude.{◌≡◌, ◌∷◌, [], IfNone, IfSome};
ghost use Rattle.su_kept_areas.specs.Marks.{read_marks, written_marks};

use crate::footprints::KeptFootprint;
use crate::marks::Side;
use crate::sided::split_first;
use std::marker::Model;

/// Marks that are gone over. Its model is those that are left.
#[derive(Drop)]
pub struct MarksLeft<'a> {
    /// The bytes of the areas of which marks are left.
    left: &'a [u8],
    side: Side,
    /// How many marks of the first of these areas were passed.
    index: u32,
    /// How many areas were passed. (Proofs alone read it, and what follows.)
    passed: usize,
    footprint: &'a KeptFootprint,
}

impl<'a> Model for MarksLeft<'a> {
    ghost use Rattle.std.specs.Prelude.{ℕ, List, drop};

    ghost Value = { List ℕ };

    ghost use Rattle.su_kept_areas.specs.Marks.{areas_on, marks_from, GoesOver};

    ghost view = { λ m. marks_from m.side m.index (drop m.passed (areas_on m.side m.footprint.now)) };

    ghost invariant = { λ m. GoesOver m.side m.footprint.now m.passed m.left.now m.index };
}

impl<'a> MarksLeft<'a> {
    /// Returns the next mark, and passes it; none where none is left.
    pub fn pass(&mut self) -> Option<u32>
        ensures none { IfNone result (self.old ≡ []) }
        ensures some { IfSome result (λ mark. self.old ≡ mark ∷ self.new) }
    {
        if self.left.is_empty() {
            return None;
        }
        let (area, behind) = split_first(self.left, self.side);
        let count = area.mark_count(self.side);
        let mark = area.mark(self.side, self.index);
        let next = self.index + 1;
        if next < count {
            self.index = next;
        } else {
            self.left = behind;
            self.index = 0;
            self.passed += 1;
        }
        Some(mark)
    }
}

impl KeptFootprint {
    /// Lends the marks under which one is entered who reads what is read here.
    pub fn read_marks(&self) -> MarksLeft<'_>
        ensures { result ≡ read_marks self.now.reads.items }
    {
        MarksLeft {
            left: self.bytes_read(),
            side: Side::Read,
            index: 0,
            passed: 0,
            footprint: self,
        }
    }

    /// Lends the marks under which one looks who wrote what is written here.
    pub fn written_marks(&self) -> MarksLeft<'_>
        ensures { result ≡ written_marks self.now.writes.items }
    {
        MarksLeft {
            left: self.bytes_written(),
            side: Side::Written,
            index: 0,
            passed: 0,
            footprint: self,
        }
    }
}
