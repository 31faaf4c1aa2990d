// How commands on paths are carried out.
ghost use Rattle.std.specs.Prelude.{◌≡◌, ◌≤◌, ◌<◌, ◌++◌, ℕ, List, true, drop, length, IfErr, IfOk, OnErr, OnOk};
ghost use Rattle.std.specs.Option.{IfSome, IsSome};
ghost use Rattle.std.specs.Vec.{vec_capacity, vec_len};
ghost use Rattle.su_client_work.specs.Member.{OnlyAsks, OnlyTakes};
ghost use Rattle.su_client_work.specs.Work.{Works};
ghost use Rattle.su_person.specs.Carrying.{Before, CarriedOut, CarriesSome, GoesAlong, IsStepped, numbers_of};
ghost use Rattle.su_person.specs.Fault.{TellsNoChange};
ghost use Rattle.su_person.specs.declared.carrying.Others.TheVariants.{Welcome};

use crate::faults::Fault;
use crate::keys::move_on;
use crate::persons::Person;
use crate::steps::{Step, commit_next};
use std::io::{Read, Write};
use su_bytes::Refusal;
use su_client_work::Member;
use su_lms::KeyStore;
use su_plan::Command;

/// How many steps commands may have at most, beside one for each of them: more than any plan has items,
/// but where others take files over again and again in between.
const MOST_STEPS: usize = 64;

/// The seat that is told where others come in between again and again.
const ANY_SEAT: u16 = 0;

/// What the commits of others mean for commands that are being carried out.
#[derive(Clone, Copy, Debug, PartialEq, Eq)]
pub(crate) enum Others {
    /// It goes on behind them.
    Welcome,
    /// It ends before them.
    Unwelcome,
}

/// Carries out commands on paths, one after another, and appends the numbers of its commits to
/// `numbers`. Each commit has a turn of its own, before which the client may go on to another key, and
/// as many of the commands as one item has room for, which are planned on the tree as it is then: so
/// what others do meanwhile doesn't make them fail where they can still be done. `Shown` with the
/// refusals of `Member::begin`; those of `View::plan_all` and of `Member::publish`; `Busy` where others
/// come in between again and again; `Unkept`. What is committed before stays.
pub fn carry_out<P, R, W, K>(
    person: &mut P,
    member: &mut Member<R, W, K>,
    commands: &[Command],
    numbers: &mut Vec<u64>,
) -> Result<(), Fault>
where
    P: Person<R, W, K>,
    R: Read + Drop,
    W: Write + Drop,
    K: KeyStore + Drop,
    ensures works { Works member.old member.new }
    ensures carried { OnOk result ((ns : List ℕ)
        × (numbers.new.items ≡ numbers.old.items ++ ns)
        × CarriedOut Welcome commands.now member.old ns member.new) }
    ensures some { (ns : List ℕ) × (numbers.new.items ≡ numbers.old.items ++ ns)
        × CarriesSome Welcome commands.now member.old ns member.new }
    ensures faults { IfErr result TellsNoChange }
    // All that is held then is kept.
    ensures kept { OnOk result (length member.new.holding.held ≤ P.kept person.new) }
{
    carry(person, member, commands, Others::Welcome, numbers)?;
    Ok(())
}

/// Carries out commands on paths as `carry_out` does, and answers whether all are carried out: where
/// the commits of others are unwelcome, it ends before them, and once the client goes on to another key.
pub(crate) fn carry<P, R, W, K>(
    person: &mut P,
    member: &mut Member<R, W, K>,
    commands: &[Command],
    others: Others,
    numbers: &mut Vec<u64>,
) -> Result<bool, Fault>
where
    P: Person<R, W, K>,
    R: Read + Drop,
    W: Write + Drop,
    K: KeyStore + Drop,
    ensures works { Works member.old member.new }
    ensures carried { IfOk result (λ is_done. is_done ≡ true → (ns : List ℕ)
        × (numbers.new.items ≡ numbers.old.items ++ ns)
        × CarriedOut others commands.now member.old ns member.new) }
    ensures some { (ns : List ℕ) × (numbers.new.items ≡ numbers.old.items ++ ns)
        × CarriesSome others commands.now member.old ns member.new }
    ensures done { IfOk result (λ is_done. others ≡ Welcome → is_done ≡ true) }
    ensures faults { IfErr result TellsNoChange }
    ensures kept { IfOk result (λ is_done. is_done ≡ true
        → length member.new.holding.held ≤ P.kept person.new) }
{
    let mut left = commands;
    for _ in 0..commands.len().saturating_add(MOST_STEPS) {
        if left.is_empty() {
            kept(person, member)?;
            return Ok(true);
        }
        let Some(step) = step(person, member, left, others, numbers)? else {
            return Ok(false);
        };
        left = behind(left, step.done);
    }
    Err(Fault::from(Refusal::Busy(ANY_SEAT)))
}

/// Returns the commands behind the first ones, so many.
fn behind(commands: &[Command], done: usize) -> &[Command]
    requires { done ≤ length commands.now }
    ensures { result.now ≡ drop done commands.now }
{
    &commands[done..]
}

/// Makes the next step of commands, of which there are some, in a turn of its own, appends the number
/// of its commit to `numbers`, and has the program keep it. None where others came in between, or the
/// client went on to another key, and that is unwelcome. Refused as `carry_out` is.
fn step<P, R, W, K>(
    person: &mut P,
    member: &mut Member<R, W, K>,
    commands: &[Command],
    others: Others,
    numbers: &mut Vec<u64>,
) -> Result<Option<Step>, Fault>
where
    P: Person<R, W, K>,
    R: Read + Drop,
    W: Write + Drop,
    K: KeyStore + Drop,
    requires { 1 ≤ length commands.now }
    ensures works { Works member.old member.new }
    ensures steps { IfOk result (λ step. (ns : List ℕ)
        × (numbers.new.items ≡ numbers.old.items ++ ns)
        × IsStepped others commands.now member.old step ns member.new) }
    ensures few { IfOk result (λ step. IfSome step (λ it. it.done ≤ length commands.now)) }
    ensures some { OnErr result ((ns : List ℕ) × (numbers.new.items ≡ numbers.old.items ++ ns)
        × CarriesSome others commands.now member.old ns member.new) }
    ensures goes_on { IfOk result (λ step. others ≡ Welcome → IsSome step) }
    ensures faults { IfErr result TellsNoChange }
{
    numbers.reserve(1)?;
    if !begin(person, member, others)? {
        return Ok(None);
    }
    let step = commit_next(member, commands)?;
    note(numbers, step.number);
    kept(person, member)?;
    Ok(Some(step))
}

/// Appends the number of a commit, if one was made. There is room for it.
fn note(numbers: &mut Vec<u64>, number: Option<u64>)
    requires { vec_len numbers.old < vec_capacity numbers.old }
    ensures { numbers.new.items ≡ numbers.old.items ++ numbers_of number }
{
    if let Some(number) = number {
        numbers.push_reserved(number);
    }
}

/// Takes the turn for a step, and answers whether to go on.
fn begin<P, R, W, K>(
    person: &mut P,
    member: &mut Member<R, W, K>,
    others: Others,
) -> Result<bool, Fault>
where
    P: Person<R, W, K>,
    R: Read + Drop,
    W: Write + Drop,
    K: KeyStore + Drop,
    ensures works { Works member.old member.new }
    ensures takes { GoesAlong member.old member.new }
    ensures before { IfOk result (λ goes_on. goes_on ≡ true → Before others member.old member.new) }
    ensures goes_on { IfOk result (λ goes_on. others ≡ Welcome → goes_on ≡ true) }
    ensures faults { IfErr result TellsNoChange }
{
    match others {
        Others::Welcome => begin_behind(person, member),
        Others::Unwelcome => begin_alone(person, member),
    }
}

/// Goes on to another key, where the client is to, and takes the turn and the commits that came. The
/// refusals are those of `Member::begin`.
fn begin_behind<P, R, W, K>(person: &mut P, member: &mut Member<R, W, K>) -> Result<bool, Fault>
where
    P: Person<R, W, K>,
    R: Read + Drop,
    W: Write + Drop,
    K: KeyStore + Drop,
    ensures works { Works member.old member.new }
    ensures takes { GoesAlong member.old member.new }
    ensures goes_on { IfOk result (λ goes_on. goes_on ≡ true) }
    ensures faults { IfErr result TellsNoChange }
{
    move_on(person, member);
    take_turn(person, member)?;
    Ok(true)
}

/// Takes the turn, and answers whether to go on: not where the client goes on to another key, nor where
/// commits came; then the turn is given back. The refusals are those of `Member::begin`.
fn begin_alone<P, R, W, K>(person: &mut P, member: &mut Member<R, W, K>) -> Result<bool, Fault>
where
    P: Person<R, W, K>,
    R: Read + Drop,
    W: Write + Drop,
    K: KeyStore + Drop,
    ensures works { Works member.old member.new }
    ensures takes { GoesAlong member.old member.new }
    ensures before { IfOk result (λ goes_on. goes_on ≡ true → OnlyAsks member.old member.new) }
    ensures faults { IfErr result TellsNoChange }
{
    if move_on(person, member) {
        return Ok(false);
    }
    let (before, _) = member.view().head();
    take_turn(person, member)?;
    let (after, _) = member.view().head();
    if before == after {
        return Ok(true);
    }
    member.give_up();
    Ok(false)
}

/// Takes the turn and the commits that came. `Shown` with the refusals of `Member::begin`.
fn take_turn<P, R, W, K>(person: &mut P, member: &mut Member<R, W, K>) -> Result<(), Fault>
where
    P: Person<R, W, K>,
    R: Read + Drop,
    W: Write + Drop,
    K: KeyStore + Drop,
    ensures takes { OnlyTakes member.old member.new }
    ensures faults { IfErr result TellsNoChange }
{
    match member.begin(person) {
        Ok(_) => Ok(()),
        Err(refusal) => Err(Fault::Shown(refusal)),
    }
}

/// Has the program keep what the client holds. `Unkept` where it can't.
pub(crate) fn kept<P, R, W, K>(person: &mut P, member: &Member<R, W, K>) -> Result<(), Fault>
where
    P: Person<R, W, K>,
    R: Read + Drop,
    W: Write + Drop,
    K: KeyStore + Drop,
    ensures kept { OnOk result (length member.now.holding.held ≤ P.kept person.new) }
    ensures faults { IfErr result TellsNoChange }
{
    if person.keep(member.view()) {
        return Ok(());
    }
    Err(Fault::Unkept)
}
