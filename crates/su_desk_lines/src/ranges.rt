// From what a line says to its command, whose words are within their ranges.
ghost use Rattle.std.specs.Prelude.{◌≡◌, ◌≢◌, ◌⊎◌, [], ◌∷◌, ◌++◌, true, false, cond, None, Some, IfOk, IfErr, IfSome, OnOk, map};
ghost use Rattle.su_bytes.specs.declared.refusals.Refusal.TheVariants.{NoMemory, BadNumber};
ghost use Rattle.su_bytes.specs.FileId.{is_file_id};
ghost use Rattle.su_bytes.specs.Principal.{is_principal};
ghost use Rattle.su_desk_lines.specs.Desk.{batch_said, change_said, command_said, operation_said, question_said, spoken_of};
ghost use Rattle.su_desk_lines.specs.Form.{value_refusal};
ghost use Rattle.su_desk_lines.specs.Raw.{file_of, principal_of};
ghost use Rattle.su_desk_lines.specs.Range.{is_stranger, stranger, stranger_first, word_refusal};
ghost use Rattle.su_desk_lines.specs.Value.{left_of, value_of};

use crate::parse::{RawFile, RawPrincipal, Spoken};
use crate::values::Value;
use crate::verbs::{ChangeVerb, QuestionVerb, Verb};
use crate::words::{Words, check_values};
use std::alloc::Global;
use su_bytes::{FileId, Group, Inum, Kind, Principal, Refusal, Roster, User};
use su_op::{Batch, Change, Create, DropBody, Link, Op, Rename, Take, Truncate, Unlink, Write};

/// A command of a script, each of its words within its range.
#[derive(Drop)]
pub enum Command {
    /// A change by a user.
    Apply(User, Change),
    /// The undo of the last live operation, by a user.
    UndoLast(User),
    /// A question about the tree.
    Ask(Question),
    /// The version numbers of all users and groups.
    Versions,
    /// Keeps the digests of all i-tables.
    Mark,
    /// Whether all i-tables have the digests that were kept.
    Same,
}

/// A question about the tree, which changes nothing.
#[derive(Clone, Copy)]
pub enum Question {
    /// The names of a directory.
    List(FileId),
    /// The bytes of a file from an offset on, at most so many.
    Read(FileId, u64, u64),
    /// What a file is, how large, how many names lead to it, and where its inode stands.
    Describe(FileId),
    /// The digest of the i-table of a user or a group.
    Handle(Principal),
}

/// Checks the words of a command. Where one is outside its range, refuses a user of 0 to 63 who isn't
/// in the roster by `NoUser`, then a bad name by `BadName`, then any other word by `BadNumber`; fails
/// with `NoMemory` where there is no room for the command.
pub fn check_ranges(alloc: Global, roster: &Roster, said: Spoken<'_>) -> Result<Command, Refusal>
    ensures value { IfOk result (λ c. command_said c ≡ spoken_of said.entry) }
    ensures accepted { OnOk result
        (word_refusal roster.now (spoken_of said.entry).values ≡ None) }
    ensures refused { IfErr result (λ e. (e ≡ NoMemory)
        ⊎ (word_refusal roster.now (spoken_of said.entry).values ≡ Some e)) }
{
    let Spoken { verbs, values } = said;
    let user = stranger(roster, values.as_slice());
    let words = match check_values(alloc, values) {
        Ok(words) => words,
        Err(refusal) => return Err(stranger_first(user, refusal)),
    };
    match whole_command(alloc, verbs.as_slice(), words) {
        Some(command) => Ok(command),
        None => Err(Refusal::NoMemory),
    }
}

/// Finds the user of 0 to 63 whose command this is, if he isn't in the roster.
fn stranger(roster: &Roster, values: &[Value<'_>]) -> Option<User>
    ensures { result ≡ stranger roster.now (map value_of values.now) }
{
    match values {
        [first, ..] => match first {
            Value::User(user) => unlisted(roster, *user),
            _ => None,
        },
        [] => None,
    }
}

/// Finds the user of that number, if there can be one who isn't in the roster.
fn unlisted(roster: &Roster, number: u64) -> Option<User>
    ensures { result ≡ cond (is_stranger roster.now number) (Some number) None }
{
    let Ok(user) = User::new(number) else {
        return None;
    };
    if roster.has_user(user) {
        return None;
    }
    Some(user)
}

/// Returns the first refusal of words that are refused so, of a stranger if there is one. Want of
/// memory stays.
fn stranger_first(user: Option<User>, refusal: Refusal) -> Refusal
    ensures { ((refusal ≡ NoMemory) × (result ≡ NoMemory))
        ⊎ ((refusal ≢ NoMemory) × (stranger_first user (Some refusal) ≡ Some result)) }
{
    match (user, refusal) {
        (_, Refusal::NoMemory) => Refusal::NoMemory,
        (Some(user), _) => Refusal::NoUser(user),
        (None, _) => refusal,
    }
}

/// Makes a command of its words. `None` where they are not those of its form, or where there is no
/// room for the operations of a batch.
fn whole_command(alloc: Global, verbs: &[Verb], mut words: Words) -> Option<Command>
    ensures { IfSome result (λ c.
        command_said c ≡ record { verbs = verbs.now; values = left_of words }) }
{
    let command = take_command(alloc, verbs, &mut words)?;
    if words.is_empty() {
        Some(command)
    } else {
        None
    }
}

/// Takes the words of a command, or of a batch of several operations. `None` where other words come,
/// or where there is no room for the operations.
fn take_command(alloc: Global, verbs: &[Verb], words: &mut Words) -> Option<Command>
    ensures verbs { IfSome result (λ c. (command_said c).verbs ≡ verbs.now) }
    ensures words { IfSome result (λ c.
        left_of words.old ≡ (command_said c).values ++ left_of words.new) }
{
    match verbs {
        [verb] => take_alone(alloc, *verb, words),
        _ => {
            let user = words.take_user()?;
            let batch = take_batch(alloc, verbs, words)?;
            Some(Command::Apply(user, Change::Do(batch)))
        }
    }
}

/// Takes the words of one command. `None` where other words come.
fn take_alone(alloc: Global, verb: Verb, words: &mut Words) -> Option<Command>
    ensures verb { IfSome result (λ c. (command_said c).verbs ≡ verb ∷ []) }
    ensures words { IfSome result (λ c.
        left_of words.old ≡ (command_said c).values ++ left_of words.new) }
{
    match verb {
        Verb::Change(verb) => {
            let user = words.take_user()?;
            let change = take_change(alloc, verb, words)?;
            Some(Command::Apply(user, change))
        }
        Verb::UndoLast => {
            let user = words.take_user()?;
            Some(Command::UndoLast(user))
        }
        Verb::Ask(verb) => {
            let question = take_question(verb, words)?;
            Some(Command::Ask(question))
        }
        Verb::Versions => Some(Command::Versions),
        Verb::Mark => Some(Command::Mark),
        Verb::Same => Some(Command::Same),
    }
}

/// Takes the words of operations, one after another. `None` where there are none, where other words
/// come, or where there is no room for them.
fn take_batch(alloc: Global, verbs: &[Verb], words: &mut Words) -> Option<Batch>
    ensures verbs { IfSome result (λ ops.
        map (λ v. Verb.Change v) (batch_said ops).verbs ≡ verbs.now) }
    ensures words { IfSome result (λ ops.
        left_of words.old ≡ (batch_said ops).values ++ left_of words.new) }
{
    let mut operations = Vec::new(alloc);
    for verb in verbs {
        let Verb::Change(verb) = *verb else {
            return None;
        };
        let operation = take_operation(verb, words)?;
        operations.push(operation).ok()?;
    }
    Batch::of_operations(operations)
}

/// Takes the words of a change. `None` where other words come.
fn take_change(alloc: Global, verb: ChangeVerb, words: &mut Words) -> Option<Change>
    ensures verb { IfSome result (λ c. (change_said c).verbs ≡ verb ∷ []) }
    ensures words { IfSome result (λ c.
        left_of words.old ≡ (change_said c).values ++ left_of words.new) }
{
    match verb {
        ChangeVerb::Undo => Some(Change::Undo(words.take_number()?)),
        ChangeVerb::Rekey => Some(Change::Rekey(words.take_key()?)),
        _ => Some(Change::of(alloc, take_operation(verb, words)?)),
    }
}

/// Takes the words of an operation. `None` where other words come, or where the command makes none.
fn take_operation(verb: ChangeVerb, words: &mut Words) -> Option<Op>
    ensures verb { IfSome result (λ op. (operation_said op).0 ≡ verb) }
    ensures words { IfSome result (λ op.
        left_of words.old ≡ (operation_said op).1 ++ left_of words.new) }
{
    match verb {
        ChangeVerb::Create(kind) => take_create(kind, words),
        ChangeVerb::Write => {
            let file = words.take_file()?;
            let off = words.take_size()?;
            let bytes = words.take_bytes()?;
            Some(Op::Write(Write { file, off, bytes }))
        }
        ChangeVerb::Truncate => {
            let file = words.take_file()?;
            let size = words.take_size()?;
            Some(Op::Truncate(Truncate { file, size }))
        }
        ChangeVerb::Unlink => take_unlink(words),
        ChangeVerb::Take => {
            let file = words.take_file()?;
            let body = words.take_body()?;
            Some(Op::Take(Take { file, body }))
        }
        ChangeVerb::Link => take_link(words),
        ChangeVerb::Rename => take_rename(words),
        ChangeVerb::Drop => {
            let body = words.take_body()?;
            Some(Op::Drop(DropBody { body }))
        }
        ChangeVerb::Undo | ChangeVerb::Rekey => None,
    }
}

/// Takes the words of a create. `None` where other words come.
fn take_create(kind: Kind, words: &mut Words) -> Option<Op>
    ensures verb { IfSome result (λ op. (operation_said op).0 ≡ ChangeVerb.Create kind) }
    ensures words { IfSome result (λ op.
        left_of words.old ≡ (operation_said op).1 ++ left_of words.new) }
{
    let dir = words.take_file()?;
    let name = words.take_name()?;
    let file = words.take_file()?;
    let body = words.take_body()?;
    Some(Op::Create(Create {
        dir,
        name,
        file,
        body,
        kind,
    }))
}

/// Takes the words of an unlink. `None` where other words come.
fn take_unlink(words: &mut Words) -> Option<Op>
    ensures verb { IfSome result (λ op. (operation_said op).0 ≡ ChangeVerb.Unlink) }
    ensures words { IfSome result (λ op.
        left_of words.old ≡ (operation_said op).1 ++ left_of words.new) }
{
    let dir = words.take_file()?;
    let name = words.take_name()?;
    let file = words.take_file()?;
    Some(Op::Unlink(Unlink { dir, name, file }))
}

/// Takes the words of a link. `None` where other words come.
fn take_link(words: &mut Words) -> Option<Op>
    ensures verb { IfSome result (λ op. (operation_said op).0 ≡ ChangeVerb.Link) }
    ensures words { IfSome result (λ op.
        left_of words.old ≡ (operation_said op).1 ++ left_of words.new) }
{
    let dir = words.take_file()?;
    let name = words.take_name()?;
    let file = words.take_file()?;
    Some(Op::Link(Link { dir, name, file }))
}

/// Takes the words of a rename. `None` where other words come.
fn take_rename(words: &mut Words) -> Option<Op>
    ensures verb { IfSome result (λ op. (operation_said op).0 ≡ ChangeVerb.Rename) }
    ensures words { IfSome result (λ op.
        left_of words.old ≡ (operation_said op).1 ++ left_of words.new) }
{
    let from_ = words.take_file()?;
    let old_ = words.take_name()?;
    let to_ = words.take_file()?;
    let new_ = words.take_name()?;
    let file = words.take_file()?;
    Some(Op::Rename(Rename {
        from_,
        old_,
        to_,
        new_,
        file,
    }))
}

/// Takes the words of a question. `None` where other words come.
fn take_question(verb: QuestionVerb, words: &mut Words) -> Option<Question>
    ensures verb { IfSome result (λ q. (question_said q).0 ≡ verb) }
    ensures words { IfSome result (λ q.
        left_of words.old ≡ (question_said q).1 ++ left_of words.new) }
{
    match verb {
        QuestionVerb::List => Some(Question::List(words.take_file()?)),
        QuestionVerb::Read => {
            let file = words.take_file()?;
            let off = words.take_number()?;
            let len = words.take_number()?;
            Some(Question::Read(file, off, len))
        }
        QuestionVerb::Describe => Some(Question::Describe(words.take_file()?)),
        QuestionVerb::Handle => Some(Question::Handle(words.take_principal()?)),
    }
}

/// Checks the numbers of a file id. Refuses one outside its range by `BadNumber`.
pub(crate) fn file_id(raw: RawFile) -> Result<FileId, Refusal>
    ensures value { IfOk result (λ f. (f ≡ file_of raw) × (is_file_id f ≡ true)) }
    ensures refused { IfErr result (λ e. (e ≡ BadNumber) × (is_file_id (file_of raw) ≡ false)) }
{
    let number = Inum::new(raw.number)?;
    match raw.owner {
        RawPrincipal::User(user) => Ok(FileId::User(User::new(user)?, number)),
        RawPrincipal::Group(group) => Ok(FileId::Group(Group::new(group)?, number)),
    }
}

/// Checks the number of a user or a group. Refuses one outside its range by `BadNumber`.
pub(crate) fn principal_id(raw: RawPrincipal) -> Result<Principal, Refusal>
    ensures value { IfOk result (λ p. (p ≡ principal_of raw) × (is_principal p ≡ true)) }
    ensures refused { IfErr result (λ e.
        (e ≡ BadNumber) × (is_principal (principal_of raw) ≡ false)) }
{
    // names the type for the prover (docs/ARCHITECTURE.md, "Forms the kit wants")
    let _file: Option<FileId> = None;
    match raw {
        RawPrincipal::User(user) => Ok(Principal::User(User::new(user)?)),
        RawPrincipal::Group(group) => Ok(Principal::Group(Group::new(group)?)),
    }
}
