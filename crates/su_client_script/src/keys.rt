// How a client goes on to another key, and commits changes with the one that it has then.
ghost use Rattle.std.specs.Prelude.{◌≡◌, ◌⊎◌, ℕ, List, Result};
ghost use Rattle.su_lms.specs.PrivateKey.{key_of};
ghost use Rattle.su_view.specs.declared.refusals.ViewRefusal.{ViewRefusal as Refusal_};
ghost use Rattle.su_client_work.specs.Publishing.{always};
ghost use Rattle.su_client_work.specs.Work.{Works};
ghost use Rattle.su_client_script.specs.Carrying.{Commits, CommitsLastUndo};
ghost use Rattle.su_client_script.specs.KeyMoves.{MovesOn, MovesOnThen, RekeysTo};

use crate::programs::Program;
use std::io::{Read, Write};
use su_client_work::Member;
use su_lms::{KeyStore, Signer};
use su_op::Change;
use su_view::ViewRefusal;

/// Goes on to the next key, where the program names a file of one. What came of it the program is told.
pub(crate) fn move_on<P, R, W, K>(program: &mut P, member: &mut Member<R, W, K>)
where
    P: Program<R, W, K>,
    R: Read + Drop,
    W: Write + Drop,
    K: KeyStore + Drop,
    ensures works { Works member.old member.new }
    ensures moves { MovesOn P.may_connect member.old member.new }
{
    let left = member.leaves_left();
    let next = program.next_key(left, member.store());
    if let Some(file) = next {
        let file = file.as_slice();
        match program.open_key(program.host(), file) {
            Ok(signer) => {
                let _ = rekey(program, member, file, signer);
            }
            Err(refusal) => program.tell_rekey(file, &Err(ViewRefusal::Plain(refusal))),
        }
    }
}

/// Commits a rekey to the key of this signer, which signs from then on, and tells the program what
/// came of it for the file of that name. The refusals are those of `Member::rekey`.
pub(crate) fn rekey<P, R, W, K>(
    program: &mut P,
    member: &mut Member<R, W, K>,
    file: &[u8],
    signer: Signer<K>,
) -> Result<u64, ViewRefusal>
where
    P: Program<R, W, K>,
    R: Read + Drop,
    W: Write + Drop,
    K: KeyStore + Drop,
    ensures works { Works member.old member.new }
    ensures rekeys { RekeysTo P.may_connect (key_of signer.key) signer.next member.old member.new
        result }
{
    let rekeyed = member.rekey(program, signer);
    program.tell_rekey(file, &rekeyed);
    rekeyed
}

/// Commits a change in a turn of its own, before which the client may go on to the next key. The
/// refusals are those of `Member::change`.
pub(crate) fn change<P, R, W, K>(
    program: &mut P,
    member: &mut Member<R, W, K>,
    change: Change,
    is_followed: bool,
) -> Result<u64, ViewRefusal>
where
    P: Program<R, W, K>,
    R: Read + Drop,
    W: Write + Drop,
    K: KeyStore + Drop,
    ensures works { Works member.old member.new }
    ensures commits { MovesOnThen P.may_connect
        (λ ready. Commits P.may_connect (always change) ready member.new result) member.old }
{
    move_on(program, member);
    member.change(program, change, is_followed)
}

/// Undoes the last operation that stands in a turn of its own, before which the client may go on to
/// the next key. The refusals are those of `Member::undo_last`.
pub(crate) fn undo_last<P, R, W, K>(
    program: &mut P,
    member: &mut Member<R, W, K>,
) -> Result<u64, ViewRefusal>
where
    P: Program<R, W, K>,
    R: Read + Drop,
    W: Write + Drop,
    K: KeyStore + Drop,
    ensures works { Works member.old member.new }
    ensures commits { MovesOnThen P.may_connect
        (λ ready. CommitsLastUndo P.may_connect ready member.new result) member.old }
{
    move_on(program, member);
    member.undo_last(program)
}
