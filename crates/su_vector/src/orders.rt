// The order of what has a version vector.
ghost use Rattle.std.specs.Prelude.{◌≡◌, ◌≤◌, ◌<◌, ◌⊎◌, ◌↔◌, ℕ, List, true, IsTrue, length, map, IfOk, IfErr, MatchOption};
ghost use Rattle.std.specs.List.{AllByRecursion};
ghost use Rattle.su_vector.specs.Vector.{le};
ghost use Rattle.su_vector.specs.Order.{vector_at, AreComparable, IsFirstUnordered, IsOrder, place_in};
ghost use Rattle.su_bytes.specs.declared.refusals.Refusal.TheVariants.{NotOrdered, NoMemory};

use crate::vectors::Vector;
use std::alloc::Global;
use su_bytes::Refusal;

/// What has a version vector, by which it is put in order.
pub trait HasVector {
    // Its vector.
    ghost vector_of: { Self → List ℕ };

    /// Lends its vector.
    fn vector(&self) -> &Vector
        ensures { result.now ≡ vector_of self.now };
}

/// Returns the positions of the items from the least vector up, equal ones by position.
/// `NotOrdered` with the first pair of positions whose vectors aren't comparable, if there is one;
/// `NoMemory`.
pub fn order_of<T: HasVector>(alloc: Global, items: &[T]) -> Result<Vec<usize>, Refusal>
    ensures order { IfOk result (λ order. IsOrder (map T.vector_of items.now) order.items) }
    ensures refused { IfErr result (λ e. (e ≡ NoMemory)
        ⊎ ((i j : ℕ) × (e ≡ NotOrdered i j) × IsFirstUnordered (map T.vector_of items.now) i j)) }
{
    if let Some((i, j)) = first_unordered(items) {
        return Err(Refusal::NotOrdered(i as u64, j as u64));
    }
    let mut order = Vec::with_capacity(alloc, items.len())?;
    for position in 0..items.len() {
        let place = place_in(items, order.as_slice(), position);
        order.insert(place, position)?;
    }
    Ok(order)
}

/// Whether the vector at the one position is at most that at the other.
fn is_at_most<T: HasVector>(items: &[T], i: usize, j: usize) -> bool
    requires first { i < length items.now }
    requires second { j < length items.now }
    ensures { let vectors = map T.vector_of items.now in
        result ≡ le (vector_at vectors i) (vector_at vectors j) }
{
    items[i].vector().le(items[j].vector())
}

fn are_comparable<T: HasVector>(items: &[T], i: usize, j: usize) -> bool
    requires first { i < length items.now }
    requires second { j < length items.now }
    ensures { IsTrue result ↔ AreComparable (map T.vector_of items.now) i j }
{
    is_at_most(items, i, j) || is_at_most(items, j, i)
}

/// The first position behind i whose vector isn't comparable with that at i.
fn first_not_comparable<T: HasVector>(items: &[T], i: usize) -> Option<usize>
    requires { i < length items.now }
    ensures { MatchOption result
        ((b : ℕ) → i < b → b < length items.now → AreComparable (map T.vector_of items.now) i b)
        (λ j. (i < j) × (j < length items.now)
        × (AreComparable (map T.vector_of items.now) i j → ⊥)
        × ((b : ℕ) → i < b → b < j → AreComparable (map T.vector_of items.now) i b)) }
{
    for j in i + 1..items.len() {
        if !are_comparable(items, i, j) {
            return Some(j);
        }
    }
    None
}

/// Finds the first pair of positions whose vectors aren't comparable, by its first position and
/// then by its second.
pub fn first_unordered<T: HasVector>(items: &[T]) -> Option<(usize, usize)>
    ensures { MatchOption result
        ((a b : ℕ) → a < b → b < length items.now → AreComparable (map T.vector_of items.now) a b)
        (λ p. IsFirstUnordered (map T.vector_of items.now) p.0 p.1) }
{
    for i in 0..items.len() {
        if let Some(j) = first_not_comparable(items, i) {
            return Some((i, j));
        }
    }
    None
}

/// How many of these positions, from the front, have a vector that is at most that of another.
fn place_in<T: HasVector>(items: &[T], order: &[usize], position: usize) -> usize
    requires within { position < length items.now }
    requires all_within { AllByRecursion (λ q. q < length items.now) order.now }
    ensures place { result ≡ place_in (map T.vector_of items.now) order.now position }
    ensures range { result ≤ length order.now }
{
    let [first, others @ ..] = order else {
        return 0;
    };
    if is_at_most(items, *first, position) {
        1 + place_in(items, others, position)
    } else {
        0
    }
}
