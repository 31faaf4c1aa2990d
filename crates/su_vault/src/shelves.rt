// Where the files of a vault are made.
ghost use Rattle.std.specs.Prelude.{ℕ, [], IfOk};

use crate::volumes::Volume;

/// Makes the files of a vault, one after another.
pub trait Shelf<V: Volume>: Drop {
    /// Makes the file of a number, counted from 0, which keeps nothing yet. A file of that number
    /// that is there already is refused, unless it is an empty one.
    fn make(&mut self, number: usize) -> Result<V, V::Fault>
        ensures empty { IfOk result (λ f. (n : ℕ) → V.counts f n []) }
        ensures shown { IfOk result (λ f. V.shows f []) };
}
