// A desk with what a script keeps beside it, and the texts that it answers.
ghost use Rattle.std.specs.Prelude.{◌≡◌, ◌⊎◌, ◌++◌, [], None, Some, Ok, IfOk, IfErr, OnOk};
ghost use Rattle.su_bytes.specs.declared.refusals.Refusal.TheVariants.{NoMemory};
ghost use Rattle.su_node.specs.Inode.{Inode};
ghost use Rattle.su_reading.specs.Reading.{head_of};
ghost use Rattle.su_desk_script.specs.Answer.{answer_text, refused_text, name_text, listing_text, bytes_text, inode_text, digest_line, kind_text, bad_text, version_text, versions_text};
ghost use Rattle.su_desk_lines.specs.declared.ranges.Command.TheVariants.{Mark, Same};
ghost use Rattle.su_desk_script.specs.Session.{desk_tree, handles, question_text, same_text, Does, IsText};

use crate::loaded::LoadedDesk;
use std::alloc::{AllocError, Global};
use std::marker::Model;
use su_bytes::{Digest, FileId, Format, Kind, Name, Place, Principal, Refusal, Roster};
use su_desk_lines::{Command, Question};
use su_reading::InodeHead;

/// A desk, the format of the changes that a script makes, and the digests that it keeps to compare
/// with later.
#[derive(Drop)]
pub struct Session {
    desk: LoadedDesk,
    format: Format,
    mark: Option<Vec<Digest>>,
}

impl Model for Session {
    ghost use Rattle.std.specs.Prelude.{option_map};
    ghost use Rattle.su_desk_script.specs.Session.{SessionState};

    ghost Value = { SessionState };

    ghost view = { λ s. record {
      desk = s.desk.settled;
      format = s.format;
      mark = option_map (λ v. v.items) s.mark;
    } };
}

impl Session {
    /// Wraps a desk on which changes are made in that format, with nothing kept.
    pub fn new(desk: LoadedDesk, format: Format) -> Session
        ensures { result ≡ record { desk = desk.settled; format = format; mark = None } }
    {
        Session {
            desk,
            format,
            mark: None,
        }
    }

    /// Returns the roster of the desk.
    pub fn roster(&self) -> &Roster
        ensures { result.now ≡ self.now.desk.roster }
    {
        self.desk.roster()
    }

    /// Carries out a command whose words are within their ranges. Returns what it prints.
    pub fn carry_out(&mut self, alloc: Global, command: Command) -> Result<Vec<u8>, AllocError>
        ensures { IfOk result (λ text. Does self.old command text.items self.new) }
    {
        match command {
            Command::Apply(user, change) => {
                answered(alloc, self.desk.apply_as(self.format, user, change))
            }
            Command::UndoLast(user) => answered(alloc, self.desk.undo_last_as(self.format, user)),
            Command::Ask(question) => match self.desk.take_back() {
                Ok(()) => answer(alloc, &mut self.desk, question),
                Err(refusal) => refused(alloc, refusal),
            },
            Command::Versions => versions_shown(alloc, self.desk.versions()),
            Command::Mark => self.keep_mark(alloc),
            Command::Same => self.compare(alloc),
        }
    }

    /// Keeps the digests of all i-tables, and prints nothing, or `NoMemory` where there is no room.
    fn keep_mark(&mut self, alloc: Global) -> Result<Vec<u8>, AllocError>
        ensures { IfOk result (λ text. Does self.old Mark text.items self.new) }
    {
        if let Err(refusal) = self.desk.take_back() {
            return refused(alloc, refusal);
        }
        match all_handles(alloc, &self.desk) {
            Ok(handles) => {
                self.mark = Some(handles);
                Ok(Vec::new(alloc))
            }
            Err(refusal) => refused(alloc, refusal),
        }
    }

    /// Returns `same` or `differs`, by the digests that were kept, or `no mark`.
    fn compare(&mut self, alloc: Global) -> Result<Vec<u8>, AllocError>
        ensures { IfOk result (λ text. Does self.old Same text.items self.new) }
    {
        if let Err(refusal) = self.desk.take_back() {
            return refused(alloc, refusal);
        }
        let Some(mark) = &self.mark else {
            return line(alloc, "no mark\n");
        };
        match all_handles(alloc, &self.desk) {
            Ok(handles) => compared(alloc, mark, &handles),
            Err(refusal) => refused(alloc, refusal),
        }
    }
}

/// Returns `same` where these digests are those that were kept, and else `differs`.
fn compared(alloc: Global, kept: &[Digest], now: &[Digest]) -> Result<Vec<u8>, AllocError>
    ensures { IfOk result (λ text. text.items ≡ same_text (Some kept.now) now.now) }
{
    if now == kept {
        line(alloc, "same\n")
    } else {
        line(alloc, "differs\n")
    }
}

/// The bytes of a text.
fn line(alloc: Global, text: &str) -> Result<Vec<u8>, AllocError>
    ensures { IfOk result (λ line. line.items ≡ text.now) }
{
    Vec::from_slice(alloc, text.as_bytes())
}

/// Answers a question, where nothing stands ready; its text, or that of `NoMemory`.
fn answer(alloc: Global, desk: &mut LoadedDesk, question: Question) -> Result<Vec<u8>, AllocError>
    requires { desk.old.ready ≡ [] }
    ensures text { IfOk result (λ text.
        IsText (question_text (desk_tree desk.old.settled) question) text.items) }
    ensures same { desk.new ≡ desk.old }
{
    match question {
        Question::List(directory) => match desk.list(directory) {
            Ok(names) => listed(alloc, names.as_slice()),
            Err(refusal) => refused(alloc, refusal),
        },
        Question::Read(file, off, len) => match desk.read_at(file, off, len) {
            Ok(bytes) => in_hex(alloc, bytes.as_slice()),
            Err(refusal) => refused(alloc, refusal),
        },
        Question::Describe(file) => match desk.describe(file) {
            Ok((place, head)) => described(alloc, &place, &head),
            Err(refusal) => refused(alloc, refusal),
        },
        Question::Handle(principal) => digest_shown(alloc, desk.handle(principal)),
    }
}

/// Returns the digests of the i-tables of all users, and then of all groups, where nothing stands
/// ready. Fails only with `NoMemory`.
fn all_handles(alloc: Global, desk: &LoadedDesk) -> Result<Vec<Digest>, Refusal>
    requires { desk.now.ready ≡ [] }
    ensures value { IfOk result (λ digests.
        digests.items ≡ handles desk.now.settled.roster (desk_tree desk.now.settled)) }
    ensures refused { IfErr result (λ e. e ≡ NoMemory) }
{
    let principals = desk.roster().principals()?;
    let mut digests = Vec::with_capacity(alloc, principals.len())?;
    for principal in &principals {
        digests.push(desk.handle(*principal))?;
    }
    Ok(digests)
}

/// Writes `ok N`, or the refusal.
pub fn answered(alloc: Global, answer: Result<u64, Refusal>) -> Result<Vec<u8>, AllocError>
    ensures { IfOk result (λ text. text.items ≡ answer_text answer) }
{
    match answer {
        Ok(number) => {
            let text = format!(in alloc; "ok {number}\n")?;
            Vec::from_slice(alloc, text.as_bytes())
        }
        Err(refusal) => refused(alloc, refusal),
    }
}

/// Writes `no NUMBER NAME ARGS`.
pub fn refused(alloc: Global, refusal: Refusal) -> Result<Vec<u8>, AllocError>
    ensures { IfOk result (λ text. text.items ≡ refused_text refusal) }
{
    let text = format!(in alloc; "no {refusal}\n")?;
    Vec::from_slice(alloc, text.as_bytes())
}

/// Writes a line for each name.
pub fn listed(alloc: Global, names: &[(Name, FileId)]) -> Result<Vec<u8>, AllocError>
    ensures { IfOk result (λ text. text.items ≡ listing_text (Ok names.now)) }
{
    let mut text = Vec::new(alloc);
    for entry in names {
        push_name(alloc, &mut text, entry)?;
    }
    Ok(text)
}

/// Appends `NAME FILE`.
fn push_name(alloc: Global, text: &mut Vec<u8>, entry: &(Name, FileId)) -> Result<(), AllocError>
    ensures { OnOk result (text.new.items ≡ text.old.items ++ name_text entry.now) }
{
    let file = entry.1;
    let file = format!(in alloc; " {file}\n")?;
    text.extend_from_slice(entry.0.as_bytes())?;
    text.extend_from_slice(file.as_bytes())?;
    Ok(())
}

/// Writes `line N: bad`.
pub fn bad(alloc: Global, number: u64) -> Result<Vec<u8>, AllocError>
    ensures { IfOk result (λ text. text.items ≡ bad_text number) }
{
    let text = format!(in alloc; "line {number}: bad\n")?;
    Vec::from_slice(alloc, text.as_bytes())
}

/// Writes bytes in hex.
pub fn in_hex(alloc: Global, bytes: &[u8]) -> Result<Vec<u8>, AllocError>
    ensures { IfOk result (λ text. text.items ≡ bytes_text (Ok bytes.now)) }
{
    let digits = hex::encode(alloc, bytes)?;
    let mut text = Vec::from_slice(alloc, digits.as_bytes())?;
    text.push(b'\n')?;
    Ok(text)
}

/// Writes `file size 5 links 1 at U0:3`, of the inode at that place.
fn described(alloc: Global, place: &Place, head: &InodeHead) -> Result<Vec<u8>, AllocError>
    ensures { (i : Inode) → head.now ≡ head_of i
        → IfOk result (λ text. text.items ≡ inode_text place.now i) }
{
    let (user, number) = *place;
    let kind = kind_word(head.kind);
    let size = head.size;
    let links = head.links;
    let stands = FileId::User(user, number);
    let text = format!(in alloc; "{kind} size {size} links {links} at {stands}\n")?;
    Vec::from_slice(alloc, text.as_bytes())
}

fn kind_word(kind: Kind) -> &'static str
    ensures { result.now ≡ kind_text kind }
{
    match kind {
        Kind::File => "file",
        Kind::Dir => "dir",
    }
}

/// Writes a digest, 64 hex digits.
pub fn digest_shown(alloc: Global, digest: Digest) -> Result<Vec<u8>, AllocError>
    ensures { IfOk result (λ text. text.items ≡ digest_line digest) }
{
    let text = format!(in alloc; "{digest}\n")?;
    Vec::from_slice(alloc, text.as_bytes())
}

/// Writes `U0=2 U1=0 G0=0 G1=0`.
pub fn versions_shown(alloc: Global, versions: &[(Principal, u64)]) -> Result<Vec<u8>, AllocError>
    ensures { IfOk result (λ text. text.items ≡ versions_text versions.now) }
{
    let Some((first, others)) = versions.split_first() else {
        return Vec::from_slice(alloc, b"\n".as_slice());
    };
    let mut text = Vec::new(alloc);
    push_version(alloc, &mut text, first)?;
    for version in others {
        text.push(b' ')?;
        push_version(alloc, &mut text, version)?;
    }
    text.push(b'\n')?;
    Ok(text)
}

/// Appends `U0=2`.
fn push_version(
    alloc: Global,
    text: &mut Vec<u8>,
    version: &(Principal, u64),
) -> Result<(), AllocError>
    ensures { OnOk result (text.new.items ≡ text.old.items ++ version_text version.now) }
{
    let (principal, number) = *version;
    let shown = format!(in alloc; "{principal}={number}")?;
    text.extend_from_slice(shown.as_bytes())?;
    Ok(())
}
