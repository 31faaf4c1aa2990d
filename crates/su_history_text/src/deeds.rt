// What entries did, in words.
ghost use Rattle.std.specs.Prelude.{◌≡◌, ◌++◌, true, IfOk, codes};
ghost use Rattle.std.specs.Fmt.{decimal};
ghost use Rattle.std.specs.String.{string_bytes};
ghost use Rattle.su_bytes.specs.Place.{file_eq};
ghost use Rattle.su_history_text.specs.Parts.{stays_on_line};
ghost use Rattle.su_history_text.specs.Text.{cut_text, deed_text, dropped_text, linked_text, made_text, put_text, removed_text, renamed_text, together_text, took_text, wrote_text};

use crate::file_names::FileNames;
use crate::parts::{file_text, name_text, size_text};
use std::alloc::{AllocError, Global};
use su_bytes::{FileId, Kind};
use su_history::Deed;
use su_op::{Create, DropBody, Link, Rename, Take, Truncate, Unlink};

/// Spells what entries did, without their author.
pub(crate) fn deed_text(alloc: Global, deed: &Deed, names: &FileNames) -> Result<String, AllocError>
    ensures value { IfOk result (λ text. string_bytes text ≡ deed_text names.now deed.now) }
    ensures line { IfOk result (λ text. stays_on_line (string_bytes text) ≡ true) }
{
    match deed {
        Deed::Made(create) => made_text(alloc, create, names),
        Deed::Put { made, bytes } => put_text(alloc, made, *bytes, names),
        Deed::Wrote { file, bytes } => wrote_text(alloc, *file, *bytes, names),
        Deed::Cut(truncate) => cut_text(alloc, truncate, names),
        Deed::Linked(link) => linked_text(alloc, link, names),
        Deed::Renamed(rename) => renamed_text(alloc, rename, names),
        Deed::Removed(unlink) => removed_text(alloc, unlink, names),
        Deed::TookOver(take) => took_text(alloc, take, names),
        Deed::Dropped(dropped) => dropped_text(alloc, dropped),
        Deed::Together(several) => together_text(alloc, several.operations, several.bytes),
        Deed::Undid(number) => undid_text(alloc, *number),
        Deed::NamedKey => format!(in alloc; "went on to another key"),
    }
}

/// Spells that a file or a folder was made.
fn made_text(alloc: Global, create: &Create, names: &FileNames) -> Result<String, AllocError>
    ensures value { IfOk result (λ text. string_bytes text ≡ made_text names.now create.now) }
    ensures line { IfOk result (λ text. stays_on_line (string_bytes text) ≡ true) }
{
    let file = file_text(alloc, create.file, names)?;
    match create.kind {
        Kind::File => format!(in alloc; "made {file}"),
        Kind::Dir => format!(in alloc; "made the folder {file}"),
    }
}

/// Spells that a file was made, with so many bytes.
fn put_text(
    alloc: Global,
    create: &Create,
    bytes: u64,
    names: &FileNames,
) -> Result<String, AllocError>
    ensures value { IfOk result (λ text.
        string_bytes text ≡ put_text names.now create.now bytes) }
    ensures line { IfOk result (λ text. stays_on_line (string_bytes text) ≡ true) }
{
    let file = file_text(alloc, create.file, names)?;
    let size = size_text(alloc, bytes)?;
    format!(in alloc; "put {file} ({size})")
}

/// Spells that so many bytes were written to a file.
fn wrote_text(
    alloc: Global,
    file: FileId,
    bytes: u64,
    names: &FileNames,
) -> Result<String, AllocError>
    ensures value { IfOk result (λ text. string_bytes text ≡ wrote_text names.now file bytes) }
    ensures line { IfOk result (λ text. stays_on_line (string_bytes text) ≡ true) }
{
    let file = file_text(alloc, file, names)?;
    let size = size_text(alloc, bytes)?;
    format!(in alloc; "wrote {size} to {file}")
}

/// Spells that a file got a size.
fn cut_text(alloc: Global, truncate: &Truncate, names: &FileNames) -> Result<String, AllocError>
    ensures value { IfOk result (λ text. string_bytes text ≡ cut_text names.now truncate.now) }
    ensures line { IfOk result (λ text. stays_on_line (string_bytes text) ≡ true) }
{
    let file = file_text(alloc, truncate.file, names)?;
    let size = size_text(alloc, u64::from(truncate.size))?;
    format!(in alloc; "set the size of {file} to {size}")
}

/// Spells that a file got a further name.
fn linked_text(alloc: Global, link: &Link, names: &FileNames) -> Result<String, AllocError>
    ensures value { IfOk result (λ text. string_bytes text ≡ linked_text names.now link.now) }
    ensures line { IfOk result (λ text. stays_on_line (string_bytes text) ≡ true) }
{
    let file = file_text(alloc, link.file, names)?;
    let name = name_text(alloc, &link.name)?;
    let folder = file_text(alloc, link.dir, names)?;
    format!(in alloc; "gave {file} a further name, {name} in {folder}")
}

/// Spells that a file got another name, in its folder or in another one.
fn renamed_text(alloc: Global, rename: &Rename, names: &FileNames) -> Result<String, AllocError>
    ensures value { IfOk result (λ text. string_bytes text ≡ renamed_text names.now rename.now) }
    ensures line { IfOk result (λ text. stays_on_line (string_bytes text) ≡ true) }
{
    let old_ = name_text(alloc, &rename.old_)?;
    let new_ = name_text(alloc, &rename.new_)?;
    let source = file_text(alloc, rename.from_, names)?;
    if is_same(rename.from_, rename.to_) {
        return format!(in alloc; "renamed {old_} in {source} to {new_}");
    }
    let target = file_text(alloc, rename.to_, names)?;
    format!(in alloc; "moved {old_} in {source} to {new_} in {target}")
}

/// Tells whether both are the same file.
fn is_same(file: FileId, other: FileId) -> bool
    ensures { result ≡ file_eq file other }
{
    file == other
}

/// Spells that a name was taken out of a folder.
fn removed_text(alloc: Global, unlink: &Unlink, names: &FileNames) -> Result<String, AllocError>
    ensures value { IfOk result (λ text. string_bytes text ≡ removed_text names.now unlink.now) }
    ensures line { IfOk result (λ text. stays_on_line (string_bytes text) ≡ true) }
{
    let name = name_text(alloc, &unlink.name)?;
    let folder = file_text(alloc, unlink.dir, names)?;
    format!(in alloc; "took the name {name} out of {folder}")
}

/// Spells that a file was taken over.
fn took_text(alloc: Global, take: &Take, names: &FileNames) -> Result<String, AllocError>
    ensures value { IfOk result (λ text. string_bytes text ≡ took_text names.now take.now) }
    ensures line { IfOk result (λ text. stays_on_line (string_bytes text) ≡ true) }
{
    let file = file_text(alloc, take.file, names)?;
    format!(in alloc; "took {file} over")
}

/// Spells that a body was dropped which was taken over from its author.
fn dropped_text(alloc: Global, dropped: &DropBody) -> Result<String, AllocError>
    ensures value { IfOk result (λ text. string_bytes text ≡ dropped_text dropped.now) }
    ensures line { IfOk result (λ text. stays_on_line (string_bytes text) ≡ true) }
{
    let number = dropped.body.number();
    format!(in alloc; "dropped an old copy, number {number} of its own")
}

/// Spells that so many operations were done together, which wrote so many bytes.
fn together_text(alloc: Global, operations: u64, bytes: u64) -> Result<String, AllocError>
    ensures value { IfOk result (λ text. string_bytes text ≡ together_text operations bytes) }
    ensures line { IfOk result (λ text. stays_on_line (string_bytes text) ≡ true) }
{
    let size = size_text(alloc, bytes)?;
    format!(in alloc; "did {operations} operations together ({size})")
}

/// Spells that an operation was undone.
fn undid_text(alloc: Global, number: u64) -> Result<String, AllocError>
    ensures value { IfOk result (λ text. string_bytes text ≡ codes "undid " ++ decimal number) }
    ensures line { IfOk result (λ text. stays_on_line (string_bytes text) ≡ true) }
{
    format!(in alloc; "undid {number}")
}
