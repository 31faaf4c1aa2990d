// How a person takes operations back.
ghost use Rattle.std.specs.Prelude.{◌≡◌, ◌≤◌, ◌++◌, ◌∷◌, [], ℕ, length, OnOk};
ghost use Rattle.su_client_work.specs.Work.{Works};
ghost use Rattle.su_person.specs.Undoing.{TakesBack};

use crate::carrying::kept;
use crate::faults::Fault;
use crate::keys::move_on;
use crate::persons::Person;
use std::io::{Read, Write};
use su_client_work::Member;
use su_lms::KeyStore;
use su_op::Change;

/// Undoes the operation of that number, before which the client may go on to another key, and appends
/// the number of the commit to `numbers`. `Shown` with the refusals of `Member::begin`; those of
/// `Member::publish`; `Unkept`.
pub fn undo<P, R, W, K>(
    person: &mut P,
    member: &mut Member<R, W, K>,
    number: u64,
    numbers: &mut Vec<u64>,
) -> Result<(), Fault>
where
    P: Person<R, W, K>,
    R: Read + Drop,
    W: Write + Drop,
    K: KeyStore + Drop,
    ensures works { Works member.old member.new }
    ensures undone { OnOk result ((n : ℕ) × (numbers.new.items ≡ numbers.old.items ++ n ∷ [])
        × TakesBack P.may_connect number member.old member.new n) }
    ensures kept { OnOk result (length member.new.holding.held ≤ P.kept person.new) }
{
    numbers.reserve(1)?;
    move_on(person, member);
    if let Err(refusal) = member.begin(person) {
        return Err(Fault::Shown(refusal));
    }
    let commit = member.publish(Change::Undo(number), false)?;
    numbers.push_reserved(commit);
    kept(person, member)
}
