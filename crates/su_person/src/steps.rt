// One step of commands on paths: a commit of as many of them as an item has room for.
ghost use Rattle.std.specs.Prelude.{◌≡◌, ◌≤◌, length, IfOk, OnErr};
ghost use Rattle.su_client.specs.Link.{Follows};
ghost use Rattle.su_client_work.specs.Member.{IsClear, OnlyAsks};
ghost use Rattle.su_client_work.specs.Work.{Works};
ghost use Rattle.su_person.specs.Carrying.{IsPlannedStep, Steps, Tries};

use std::io::{Read, Write};
use su_bytes::Refusal;
use su_change::longest_head;
use su_client_work::Member;
use su_lms::KeyStore;
use su_op::{Batch, Change, Op};
use su_plan::Command;
use su_view::ViewRefusal;

/// How many commands are planned together at most: each has an operation at least, mostly one.
const MOST_COMMANDS: usize = 250;

/// How many bytes the operations of commands that are planned together have, about, at most: some
/// fewer than an item may have.
const MOST_BYTES: usize = 69_000;

/// How many bytes the operations of a command have, about, beside its names and its bytes.
const OTHER_BYTES: usize = 32;

/// What a step of commands came to.
#[derive(Clone, Copy, Debug, PartialEq, Eq)]
pub(crate) struct Step {
    /// How many of the commands are carried out by it: none where its commit has but the first
    /// operations of the first one.
    pub(crate) done: usize,
    /// The number of its commit, if it made one.
    pub(crate) number: Option<u64>,
}

/// What is to be committed in a step.
#[derive(Debug, Drop)]
struct Planned {
    operations: Vec<Op>,
    /// How many of the commands they carry out, as in `Step`.
    done: usize,
}

/// Plans the first of the commands on the tree that is held, while the client has the turn, as many as
/// one item has room for, and makes one commit of their operations; where commands are left behind
/// them, the next turn is asked for with it. Where there are no operations, or on a refusal, the turn
/// is given back. The refusals of `View::plan_all` and of `Member::publish`.
pub(crate) fn commit_next<R, W, K>(
    member: &mut Member<R, W, K>,
    commands: &[Command],
) -> Result<Step, ViewRefusal>
where
    R: Read + Drop,
    W: Write + Drop,
    K: KeyStore + Drop,
    requires { 1 ≤ length commands.now }
    ensures works { Works member.old member.new }
    ensures steps { IfOk result (λ step. Steps commands.now member.old step member.new) }
    ensures tries { OnErr result (Tries commands.now member.old member.new) }
{
    let planned = match plan_some(member, commands, together(commands)) {
        Ok(planned) => planned,
        Err(refusal) => {
            member.give_up();
            return Err(ViewRefusal::Plain(refusal));
        }
    };
    let Planned { operations, done } = planned;
    let Some(batch) = Batch::of_operations(operations) else {
        member.give_up();
        return Ok(Step { done, number: None });
    };
    let is_followed = done < commands.len();
    let number = member.publish(Change::Do(batch), is_followed)?;
    Ok(Step {
        done,
        number: Some(number),
    })
}

/// Plans so many of the commands as one, on the tree that is held; fewer, where one item has no room
/// for their operations; and of the first alone as many operations as it has room for. The refusals of
/// `View::plan_all`.
fn plan_some<R, W, K>(
    member: &mut Member<R, W, K>,
    commands: &[Command],
    count: usize,
) -> Result<Planned, Refusal>
where
    R: Read + Drop,
    W: Write + Drop,
    K: KeyStore + Drop,
    requires some { 1 ≤ count }
    requires within { count ≤ length commands.now }
    ensures asks { OnlyAsks member.old member.new }
    ensures follows { Follows member.old.link member.new.link }
    ensures planned { IsClear member.new → IfOk result (λ planned.
        IsPlannedStep commands.now member.old.holding planned.done planned.operations.items) }
    ensures few { IfOk result (λ planned. planned.done ≤ length commands.now) }
{
    let mut operations = member.plan_held(&commands[..count])?;
    let head = longest_head(operations.as_slice());
    if head == operations.len() {
        return Ok(Planned {
            operations,
            done: count,
        });
    }
    if count == 1 {
        operations.truncate(head.max(1));
        return Ok(Planned {
            operations,
            done: 0,
        });
    }
    plan_some(member, commands, count / 2)
}

/// Returns how many of the commands, of which there are some, are planned together: as many of the
/// first as an item has room for, as far as their paths and bytes tell; one at least.
fn together(commands: &[Command]) -> usize
    requires { 1 ≤ length commands.now }
    ensures some { 1 ≤ result }
    ensures within { result ≤ length commands.now }
{
    let mut bytes = 0usize;
    let mut count = 0usize;
    for command in commands {
        bytes = bytes.saturating_add(bytes_of(command));
        if 0 < count && (MOST_BYTES < bytes || MOST_COMMANDS <= count) {
            return count;
        }
        count += 1;
    }
    count
}

/// Returns how many bytes the operations of a command have in an item, about: names no longer than
/// its paths, and the bytes that it writes.
fn bytes_of(command: &Command) -> usize {
    let named = match command {
        Command::Mkdir { path } | Command::Create { path } | Command::Remove { path } => path.len(),
        Command::Write { bytes, .. } => bytes.len(),
        Command::Link { old_, new_ } | Command::Rename { old_, new_ } => {
            old_.len().saturating_add(new_.len())
        }
        Command::Truncate { .. } | Command::Tidy => 0,
    };
    named.saturating_add(OTHER_BYTES)
}
