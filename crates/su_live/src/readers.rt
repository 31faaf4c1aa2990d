// An index of who reads which cells, by their marks.
ghost use Rattle.std.specs.Prelude.{◌≡◌, ◌<◌, ◌≤◌, ℕ, false, true, IfNone, IfSome, OnOk, OnErr};
ghost use Rattle.std.specs.Ordering.{nat_cmp, on, then_cmp, as_partial_cmp};
ghost use Rattle.std.specs.Cmp.{partial_order_from_own_ties};
ghost use Rattle.std.specs.Cmp.Rules.{comparing};
ghost use Rattle.std.proofs.Common.{rules};

use std::cmp::Ordering;

/// That the operation of that number reads a cell of that mark.
#[derive(Clone, Copy, PartialEq, Eq)]
pub(crate) struct Reader {
    pub(crate) mark: u32,
    pub(crate) number: u32,
}

impl Ord for Reader {
    ghost cmp = { then_cmp (on (λ r. r.mark) nat_cmp) (on (λ r. r.number) nat_cmp) };

    ghost total = { Prim.search (comparing, rules) };

    ghost matches_partial_cmp = { Prim.search (comparing, rules) };

    ghost matches_eq = { Prim.search (comparing, rules) };

    fn cmp(&self, other: &Reader) -> Ordering {
        self.mark
            .cmp(&other.mark)
            .then(self.number.cmp(&other.number))
    }
}

impl PartialOrd for Reader {
    ghost partial_cmp = { as_partial_cmp (then_cmp (on (λ r. r.mark) nat_cmp) (on (λ r. r.number) nat_cmp)) };

    ghost laws = { partial_order_from_own_ties (Prim.search (comparing, rules)) (Prim.search (comparing, rules)) };

    fn partial_cmp(&self, other: &Reader) -> Option<Ordering> {
        Some(self.cmp(other))
    }
}
