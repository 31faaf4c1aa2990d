// How a person's client goes on to another key.
ghost use Rattle.std.specs.Prelude.{◌≡◌, false};
ghost use Rattle.su_client_work.specs.Work.{Works};
ghost use Rattle.su_person.specs.Moving.{MovesOn};

use crate::persons::Person;
use std::io::{Read, Write};
use su_client_work::Member;
use su_lms::KeyStore;

/// Goes on to the next key, where the program around it has one for it, and answers whether it tried
/// to: then commits of others may have been taken. What came of it the program is told; where it is
/// refused, the client goes on with its own.
pub fn move_on<P, R, W, K>(person: &mut P, member: &mut Member<R, W, K>) -> bool
where
    P: Person<R, W, K>,
    R: Read + Drop,
    W: Write + Drop,
    K: KeyStore + Drop,
    ensures works { Works member.old member.new }
    ensures moves { MovesOn member.old member.new }
    ensures same { result ≡ false → member.new ≡ member.old }
{
    let left = member.leaves_left();
    let Some(file) = person.next_key(left, member.store()) else {
        return false;
    };
    let Some(signer) = person.open_key(person.host(), file.as_str()) else {
        return false;
    };
    let rekeyed = member.rekey(person, signer);
    person.tell_rekey(&rekeyed);
    true
}
