// What a run does with one line of a script.
ghost use Rattle.std.specs.Prelude.{◌≡◌, ◌⊎◌, ℕ, List, false, Result, IfErr, IfOk, OnOk, OnErr};
ghost use Rattle.std.specs.Io.KnownBytes.{Appends};
ghost use Rattle.su_view.specs.declared.refusals.ViewRefusal.{ViewRefusal as Refusal_};
ghost use Rattle.su_view.specs.declared.refusals.ViewRefusal.TheVariants.{Plain};
ghost use Rattle.su_client_work.specs.Member.{OnlyTakes};
ghost use Rattle.su_client_work.specs.Turn.{IsRefusedTurn};
ghost use Rattle.su_client_work.specs.Work.{Works};
ghost use Rattle.su_desk_script.specs.Answer.{bad_text};
ghost use Rattle.su_client_script.specs.Carrying.{Carries, CarriesChange, CarriesRekey, CarriesSave, CarriesSome, CarriesSomeChange, CarriesSomeRekey, CommitsIn, CommitsSome, CommitsUntil, PlansParts};
ghost use Rattle.su_client_script.specs.Calls.{files_of};
ghost use Rattle.su_client_script.specs.KeyMoves.{MovesOnThen};
ghost use Rattle.su_client_script.specs.Leaving.{Leaves};
ghost use Rattle.su_client_script.specs.Lines.{LineDoesSome, Prints};
ghost use Rattle.su_client_script.specs.Step.{FitsCommand, IsOutcome, LineSteps, has_committed, is_first};
ghost use Rattle.su_client_script.specs.Text.{number_shown, refusal_shown};
ghost use Rattle.su_client_script.specs.declared.steps.Step.TheVariants as step;

use crate::answers::{Outcome, print_text, tell_bytes, tell_names, tell_number, tell_refusal};
use crate::endings::Fault;
use crate::keys::{change, move_on, rekey, undo_last};
use crate::parts::cut;
use crate::places::Place;
use crate::programs::{Cause, Program};
use crate::scripts::Manner;
use std::alloc::Global;
use std::io::{Read, Write};
use su_bytes::Refusal;
use su_client_lines::{ClientCommand, ClientLine, client_mistake_in, read_line};
use su_client_work::Member;
use su_desk_lines::Mistake;
use su_desk_script::bad;
use su_lms::KeyStore;
use su_op::{Batch, Change, Op};
use su_plan::Command;
use su_view::ViewRefusal;

/// What came of a line.
#[derive(Drop)]
pub(crate) enum Step {
    /// It was carried out, or is empty.
    Done,
    /// It was refused, which was printed.
    Refused,
    /// It is no command, which was printed; its first mistake, where there was memory to look for it.
    Bad(Option<Mistake>),
    /// There is no line any more.
    Over,
}

/// Carries out a line that is not empty, which has that number, and prints what comes of it.
pub(crate) fn line_step<P, O, R, W, K>(
    program: &mut P,
    alloc: Global,
    output: &mut O,
    member: &mut Member<R, W, K>,
    line: &[u8],
    number: u64,
    manner: Manner,
) -> Result<Step, Fault>
where
    P: Program<R, W, K>,
    O: Write,
    R: Read + Drop,
    W: Write + Drop,
    K: KeyStore + Drop,
    ensures works { Works member.old member.new }
    ensures steps { IfOk result (LineSteps P.may_connect (files_of P.saves P.opens)
        manner.batches number line.now member.old member.new (O.contents output.old)
        (O.contents output.new)) }
    ensures some { OnErr result
        (LineDoesSome P.may_connect manner.batches line.now member.old member.new) }
{
    match read_line(alloc, line) {
        Ok(ClientLine::Command(command)) => {
            let outcome = command_step(program, alloc, output, member, command, manner.batches)?;
            settle(program, member, &outcome, manner.leaves)
        }
        Ok(ClientLine::OutOfRange(refusal)) => refused_step(alloc, output, refusal),
        Ok(ClientLine::Bad) => {
            let mistake = client_mistake_in(alloc, line).ok();
            bad_step(alloc, output, number, mistake)
        }
        Err(_) => refused_step(alloc, output, Refusal::NoMemory),
    }
}

/// Prints that the line is bad, which ends the run.
pub(crate) fn bad_step<O: Write>(
    alloc: Global,
    output: &mut O,
    number: u64,
    mistake: Option<Mistake>,
) -> Result<Step, Fault>
    ensures printed { OnOk result
        (Appends (O.contents output.old) (O.contents output.new) (bad_text number)) }
    ensures step { IfOk result (λ it. it ≡ step.Bad mistake) }
{
    print_text(output, bad(alloc, number))?;
    Ok(Step::Bad(mistake))
}

/// Prints why a line is refused before anything is asked of the server.
fn refused_step<O: Write>(alloc: Global, output: &mut O, refusal: Refusal) -> Result<Step, Fault>
    ensures printed { OnOk result (Appends (O.contents output.old) (O.contents output.new)
        (refusal_shown (Plain refusal))) }
    ensures step { IfOk result (λ it. it ≡ step.Refused) }
{
    tell_refusal(alloc, output, ViewRefusal::Plain(refusal), Place::First)?;
    Ok(Step::Refused)
}

/// Has the program explain a refusal of a command, and behind a command that made a commit leaves the
/// tree to the server, if it is to. What that refuses changes nothing: what wasn't put stays loaded,
/// and a link that fails is noticed at the next command. `Link` where the link had failed before,
/// which ends the run.
fn settle<P, R, W, K>(
    program: &mut P,
    member: &mut Member<R, W, K>,
    outcome: &Outcome,
    leaves: bool,
) -> Result<Step, Fault>
where
    P: Program<R, W, K>,
    R: Read + Drop,
    W: Write + Drop,
    K: KeyStore + Drop,
    ensures leaves { Leaves member.old member.new }
    ensures same { has_committed outcome.now ≡ false → member.new ≡ member.old }
    ensures err { OnErr result (member.new ≡ member.old) }
    ensures step { IfOk result (λ it. (it ≡ step.Done) ⊎ (it ≡ step.Refused)) }
{
    let step = explain(program, member, outcome)?;
    leave(member, outcome.has_committed(), leaves);
    Ok(step)
}

/// Leaves the tree to the server, where that is due, and it is to be left at all.
fn leave<R, W, K>(member: &mut Member<R, W, K>, is_due: bool, leaves: bool)
where
    R: Read + Drop,
    W: Write + Drop,
    K: KeyStore + Drop,
    ensures leaves { Leaves member.old member.new }
    ensures same { is_due ≡ false → member.new ≡ member.old }
{
    if !is_due {
        return;
    }
    if !leaves {
        return;
    }
    let _ = member.shed();
}

/// Has the program explain a refusal of a command. `Link` where the link has failed, which ends the
/// run.
fn explain<P, R, W, K>(
    program: &mut P,
    member: &mut Member<R, W, K>,
    outcome: &Outcome,
) -> Result<Step, Fault>
where
    P: Program<R, W, K>,
    R: Read + Drop,
    W: Write + Drop,
    K: KeyStore + Drop,
    ensures same { member.new ≡ member.old }
    ensures step { IfOk result (λ it. (it ≡ step.Done) ⊎ (it ≡ step.Refused)) }
{
    let Outcome::Refused { refusal, place } = outcome else {
        return Ok(Step::Done);
    };
    let own_last = match refusal {
        ViewRefusal::OwnMissing => member.own_last(),
        _ => None,
    };
    program.explain(&Cause {
        refusal: *refusal,
        after_take: place.is_after_take(),
        own_last,
    });
    if member.has_failed() {
        return Err(Fault::Link);
    }
    Ok(Step::Refused)
}

/// Carries out a command, and prints what comes of it.
fn command_step<P, O, R, W, K>(
    program: &mut P,
    alloc: Global,
    output: &mut O,
    member: &mut Member<R, W, K>,
    command: ClientCommand,
    batches: bool,
) -> Result<Outcome, Fault>
where
    P: Program<R, W, K>,
    O: Write,
    R: Read + Drop,
    W: Write + Drop,
    K: KeyStore + Drop,
    ensures works { Works member.old member.new }
    ensures carries { OnOk result (Prints (O.contents output.old) (O.contents output.new)
        (Carries P.may_connect (files_of P.saves P.opens) batches command member.old member.new)) }
    ensures some { OnErr result
        (CarriesSome P.may_connect batches command member.old member.new) }
    ensures outcome { IfOk result (FitsCommand command) }
{
    match command {
        ClientCommand::Change(command) => {
            change_step(program, alloc, output, member, &command, batches)
        }
        ClientCommand::Undo(number) => {
            let undone = change(program, member, Change::Undo(number), false);
            tell_number(alloc, output, undone, Place::First)
        }
        ClientCommand::UndoLast => {
            let undone = undo_last(program, member);
            tell_number(alloc, output, undone, Place::First)
        }
        ClientCommand::List { path } => {
            let names = member.list(program, path.as_slice());
            tell_names(alloc, output, names)
        }
        ClientCommand::Read { path, off, len } => {
            let bytes = member.read(program, path.as_slice(), off, len);
            tell_bytes(alloc, output, bytes)
        }
        ClientCommand::Rekey { file } => rekey_step(program, alloc, output, member, file),
        ClientCommand::Save { file } => save_step(program, alloc, output, member, file),
    }
}

/// Carries out a command on paths, before which the client may go on to the next key.
fn change_step<P, O, R, W, K>(
    program: &mut P,
    alloc: Global,
    output: &mut O,
    member: &mut Member<R, W, K>,
    command: &Command,
    batches: bool,
) -> Result<Outcome, Fault>
where
    P: Program<R, W, K>,
    O: Write,
    R: Read + Drop,
    W: Write + Drop,
    K: KeyStore + Drop,
    ensures works { Works member.old member.new }
    ensures carries { OnOk result (Prints (O.contents output.old) (O.contents output.new)
        (λ text. MovesOnThen P.may_connect
        (λ ready. CarriesChange P.may_connect batches command.now ready member.new text)
        member.old)) }
    ensures some { OnErr result (MovesOnThen P.may_connect
        (λ ready. CarriesSomeChange P.may_connect batches command.now ready member.new)
        member.old) }
{
    move_on(program, member);
    plan_step(program, alloc, output, member, command, batches)
}

/// Plans a command on paths, and commits its operations in parts, one after the other; the first
/// refusal ends it, and what was committed before stays.
fn plan_step<P, O, R, W, K>(
    program: &mut P,
    alloc: Global,
    output: &mut O,
    member: &mut Member<R, W, K>,
    command: &Command,
    batches: bool,
) -> Result<Outcome, Fault>
where
    P: Program<R, W, K>,
    O: Write,
    R: Read + Drop,
    W: Write + Drop,
    K: KeyStore + Drop,
    ensures works { Works member.old member.new }
    ensures carries { OnOk result (Prints (O.contents output.old) (O.contents output.new)
        (CarriesChange P.may_connect batches command.now member.old member.new)) }
    ensures some { OnErr result
        (CarriesSomeChange P.may_connect batches command.now member.old member.new) }
{
    match plan_parts(program, alloc, member, command, batches) {
        Ok(parts) => commit_all(program, alloc, output, member, parts),
        Err(refusal) => tell_refusal(alloc, output, refusal, Place::First),
    }
}

/// Takes a turn, and plans a command on paths as the parts in which its operations are committed.
/// Where there is nothing to commit, or on a refusal, the turn is given back. The refusals are
/// those of `Member::plan`, and `NoMemory`.
fn plan_parts<P, R, W, K>(
    program: &mut P,
    alloc: Global,
    member: &mut Member<R, W, K>,
    command: &Command,
    batches: bool,
) -> Result<Vec<Batch>, ViewRefusal>
where
    P: Program<R, W, K>,
    R: Read + Drop,
    W: Write + Drop,
    K: KeyStore + Drop,
    ensures takes { OnlyTakes member.old member.new }
    ensures plans { IfOk result (λ parts.
        PlansParts P.may_connect batches command.now member.old member.new parts.items) }
    ensures refused { IfErr result
        (IsRefusedTurn P.may_connect member.old.link member.new.link) }
{
    let operations = member.plan(program, command)?;
    match cut(alloc, operations, batches) {
        Ok(parts) => Ok(parts),
        Err(refusal) => {
            member.give_up();
            Err(ViewRefusal::Plain(refusal))
        }
    }
}

/// Commits parts, each in a turn of its own but for the first, for which the turn is held.
fn commit_all<P, O, R, W, K>(
    program: &mut P,
    alloc: Global,
    output: &mut O,
    member: &mut Member<R, W, K>,
    parts: Vec<Batch>,
) -> Result<Outcome, Fault>
where
    P: Program<R, W, K>,
    O: Write,
    R: Read + Drop,
    W: Write + Drop,
    K: KeyStore + Drop,
    ensures works { Works member.old member.new }
    ensures commits { OnOk result (Prints (O.contents output.old) (O.contents output.new)
        (CommitsUntil P.may_connect parts.items member.old member.new)) }
    ensures some { OnErr result
        (CommitsSome P.may_connect parts.items member.old member.new) }
{
    let mut place = Place::First;
    let mut left = parts.len();
    for part in parts {
        let next = place.after(&part);
        left = left.saturating_sub(1);
        let ahead = 0 < left;
        let outcome = commit_one(program, alloc, output, member, part, place, ahead)?;
        if outcome.is_refused() {
            return Ok(outcome);
        }
        place = next;
    }
    Ok(Outcome::of_all(place))
}

/// Commits a part, and prints what comes of it. The next turn is asked for ahead of its time,
/// where that is told.
fn commit_one<P, O, R, W, K>(
    program: &mut P,
    alloc: Global,
    output: &mut O,
    member: &mut Member<R, W, K>,
    part: Batch,
    place: Place,
    ahead: bool,
) -> Result<Outcome, Fault>
where
    P: Program<R, W, K>,
    O: Write,
    R: Read + Drop,
    W: Write + Drop,
    K: KeyStore + Drop,
    ensures works { Works member.old member.new }
    ensures commits { (r : Result ℕ Refusal_)
        × CommitsIn P.may_connect (is_first place) part member.old member.new r
        × IfOk result (λ out. IsOutcome place r out
        × Appends (O.contents output.old) (O.contents output.new) (number_shown r)) }
{
    let stored = commit(program, member, part, place, ahead);
    tell_number(alloc, output, stored, place)
}

/// Commits a part, in the turn that is held or one of its own.
fn commit<P, R, W, K>(
    program: &mut P,
    member: &mut Member<R, W, K>,
    part: Batch,
    place: Place,
    ahead: bool,
) -> Result<u64, ViewRefusal>
where
    P: Program<R, W, K>,
    R: Read + Drop,
    W: Write + Drop,
    K: KeyStore + Drop,
    ensures works { Works member.old member.new }
    ensures commits { CommitsIn P.may_connect (is_first place) part member.old member.new result }
{
    if matches!(place, Place::First) {
        return member.publish(Change::Do(part), ahead);
    }
    change(program, member, Change::Do(part), ahead)
}

/// Goes on to the key in a key file, and prints the number of the commit, or a refusal.
fn rekey_step<P, O, R, W, K>(
    program: &mut P,
    alloc: Global,
    output: &mut O,
    member: &mut Member<R, W, K>,
    file: Vec<u8>,
) -> Result<Outcome, Fault>
where
    P: Program<R, W, K>,
    O: Write,
    R: Read + Drop,
    W: Write + Drop,
    K: KeyStore + Drop,
    ensures works { Works member.old member.new }
    ensures carries { OnOk result (Prints (O.contents output.old) (O.contents output.new)
        (CarriesRekey P.may_connect (files_of P.saves P.opens) file.items member.old member.new)) }
    ensures some { OnErr result (CarriesSomeRekey P.may_connect member.old member.new) }
{
    match program.open_key(program.host(), file.as_slice()) {
        Ok(signer) => {
            let rekeyed = rekey(program, member, file.as_slice(), signer);
            tell_number(alloc, output, rekeyed, Place::First)
        }
        Err(refusal) => tell_refusal(alloc, output, ViewRefusal::Plain(refusal), Place::First),
    }
}

/// Saves the log, and prints nothing but a refusal.
fn save_step<P, O, R, W, K>(
    program: &mut P,
    alloc: Global,
    output: &mut O,
    member: &mut Member<R, W, K>,
    file: Vec<u8>,
) -> Result<Outcome, Fault>
where
    P: Program<R, W, K>,
    O: Write,
    R: Read + Drop,
    W: Write + Drop,
    K: KeyStore + Drop,
    ensures works { Works member.old member.new }
    ensures carries { OnOk result (Prints (O.contents output.old) (O.contents output.new)
        (CarriesSave P.may_connect (files_of P.saves P.opens) file.items member.old member.new)) }
    ensures outcome { IfOk result (λ out. has_committed out ≡ false) }
    ensures takes { OnlyTakes member.old member.new }
{
    match member.log(program) {
        Ok(log) => match program.save(file.as_slice(), log.as_slice()) {
            Ok(()) => Ok(Outcome::Done),
            Err(reason) => Err(Fault::Saving { file, reason }),
        },
        Err(refusal) => tell_refusal(alloc, output, refusal, Place::First),
    }
}
