// Which areas the check of an operation may ask for.
ghost use Rattle.std.specs.Prelude.{◌≡◌, [], ◌∷◌, ◌++◌, IfOk, IfErr, OnOk};
ghost use Rattle.su_bytes.specs.declared.refusals.Refusal.TheVariants.{NoMemory};
ghost use Rattle.su_node.specs.Field.{Field.KindOf};
ghost use Rattle.su_table.specs.Cell.{Cell.At, val};
ghost use Rattle.su_table.specs.Query.{body};
ghost use Rattle.su_part_forest.specs.Forest.{IsSound};
ghost use Rattle.su_part_forest.specs.Seen.{seen};
ghost use Rattle.su_op.specs.DropBody.{group_home};
ghost use Rattle.su_op.specs.declared.areas.Area.TheVariants.{Inode as InodeArea};
ghost use Rattle.su_asked.specs.Asked.{asked_first, asked_then, at_body, files_named, home_areas, homes, kind_of, leaving, linked, named, own_place, pointer_of, sized};

use std::alloc::Global;
use su_bytes::{FileId, GroupFile, Name, Place, Refusal, User};
use su_op::{Area, Op, Part, Rename, Unlink};
use su_part_forest::PartForest;

/// Returns the areas that the check of an operation by `author` asks for first, whatever stands in
/// the tree: where the files stand that it names, and what stands at the place of the author's at
/// which it makes an inode, or drops one. Fails only with `NoMemory`.
pub fn asked_first(alloc: Global, author: User, op: &Op) -> Result<Vec<Area>, Refusal>
    ensures value { IfOk result (λ areas. areas.items ≡ asked_first author op.now) }
    ensures refused { IfErr result (λ e. e ≡ NoMemory) }
{
    let mut areas = homes_named(alloc, op)?;
    match own_place(author, op) {
        None => Ok(areas),
        Some(place) => {
            areas.push(part_of(&place, Part::Kind))?;
            Ok(areas)
        }
    }
}

/// Returns the areas that the check of an operation by `author` may ask for then, as the bodies
/// stand: their kinds, a name, the links or the size; and the pointer of the group file that a body
/// was made for. Fails only with `NoMemory`.
pub fn asked_then(
    alloc: Global,
    author: User,
    op: &Op,
    forest: &PartForest,
) -> Result<Vec<Area>, Refusal>
    ensures value { IsSound forest.now → IfOk result (λ areas.
        areas.items ≡ asked_then (seen forest.now) author op.now) }
    ensures refused { IfErr result (λ e. e ≡ NoMemory) }
{
    match op {
        Op::Create(create) => about_name(alloc, forest, create.dir, &create.name),
        Op::Unlink(unlink) => about_unlink(alloc, forest, unlink),
        Op::Write(write) => about_bytes(alloc, forest, write.file),
        Op::Truncate(truncate) => about_bytes(alloc, forest, truncate.file),
        Op::Take(take) => about_kind(alloc, forest, take.file),
        Op::Link(link) => about_link(alloc, forest, link.dir, &link.name, link.file),
        Op::Rename(rename) => about_move(alloc, forest, rename),
        Op::Drop(dropped) => about_home(alloc, forest, &(author, dropped.body)),
    }
}

/// Returns the place of the author's at which an operation makes an inode, or drops one.
fn own_place(author: User, op: &Op) -> Option<Place>
    ensures { result ≡ own_place author op.now }
{
    match op {
        Op::Create(create) => Some((author, create.body)),
        Op::Take(take) => Some((author, take.body)),
        Op::Drop(dropped) => Some((author, dropped.body)),
        _ => None,
    }
}

/// Returns where the files stand that an operation names.
fn homes_named(alloc: Global, op: &Op) -> Result<Vec<Area>, Refusal>
    ensures value { IfOk result (λ areas. areas.items ≡ homes (files_named op.now)) }
    ensures refused { IfErr result (λ e. e ≡ NoMemory) }
{
    match op {
        Op::Create(create) => homes(alloc, &[create.dir, create.file]),
        Op::Unlink(unlink) => homes(alloc, &[unlink.dir, unlink.file]),
        Op::Write(write) => homes(alloc, &[write.file]),
        Op::Truncate(truncate) => homes(alloc, &[truncate.file]),
        Op::Take(take) => homes(alloc, &[take.file]),
        Op::Link(link) => homes(alloc, &[link.dir, link.file]),
        Op::Rename(rename) => homes(alloc, &[rename.from_, rename.to_, rename.file]),
        Op::Drop(_) => Ok(Vec::new(alloc)),
    }
}

/// Returns where files stand.
fn homes(alloc: Global, files: &[FileId]) -> Result<Vec<Area>, Refusal>
    ensures value { IfOk result (λ areas. areas.items ≡ homes files.now) }
    ensures refused { IfErr result (λ e. e ≡ NoMemory) }
{
    let mut areas = Vec::new(alloc);
    for file in files {
        areas.push(home(*file))?;
    }
    Ok(areas)
}

/// Returns where a file stands.
fn home(file: FileId) -> Area
    ensures { home_areas file ≡ result ∷ [] }
{
    match file {
        FileId::User(user, number) => Area::Inode((user, number), Part::Kind),
        FileId::Group(group, number) => Area::Pointer((group, number)),
    }
}

/// Returns what is asked of a directory about a name.
fn about_name(
    alloc: Global,
    forest: &PartForest,
    dir: FileId,
    name: &Name,
) -> Result<Vec<Area>, Refusal>
    ensures value { IsSound forest.now → IfOk result (λ areas.
        areas.items ≡ at_body (body (seen forest.now) dir) (named name.now)) }
    ensures refused { IfErr result (λ e. e ≡ NoMemory) }
{
    let mut areas = Vec::new(alloc);
    push_named(&mut areas, forest.body(dir), name)?;
    Ok(areas)
}

/// Returns what is asked of a directory about a name, and of a file about its links.
fn about_link(
    alloc: Global,
    forest: &PartForest,
    dir: FileId,
    name: &Name,
    file: FileId,
) -> Result<Vec<Area>, Refusal>
    ensures value { IsSound forest.now → IfOk result (λ areas. areas.items
        ≡ at_body (body (seen forest.now) dir) (named name.now)
        ++ at_body (body (seen forest.now) file) linked) }
    ensures refused { IfErr result (λ e. e ≡ NoMemory) }
{
    let mut areas = Vec::new(alloc);
    push_named(&mut areas, forest.body(dir), name)?;
    push_linked(&mut areas, forest.body(file))?;
    Ok(areas)
}

/// Returns what is asked of a directory about a name that it loses, and of what goes with it.
fn about_unlink(alloc: Global, forest: &PartForest, unlink: &Unlink) -> Result<Vec<Area>, Refusal>
    ensures value { IsSound forest.now → IfOk result (λ areas. areas.items
        ≡ at_body (body (seen forest.now) unlink.now.dir) (named unlink.now.name)
        ++ at_body (body (seen forest.now) unlink.now.file) (leaving unlink.now.name)) }
    ensures refused { IfErr result (λ e. e ≡ NoMemory) }
{
    let mut areas = Vec::new(alloc);
    push_named(&mut areas, forest.body(unlink.dir), &unlink.name)?;
    push_leaving(&mut areas, forest.body(unlink.file), &unlink.name)?;
    Ok(areas)
}

/// Returns what is asked of two directories about the names that a rename takes and gives, and of
/// the file.
fn about_move(alloc: Global, forest: &PartForest, rename: &Rename) -> Result<Vec<Area>, Refusal>
    ensures value { IsSound forest.now → IfOk result (λ areas. areas.items
        ≡ at_body (body (seen forest.now) rename.now.from_) (named rename.now.old_)
        ++ (at_body (body (seen forest.now) rename.now.to_) (named rename.now.new_)
        ++ at_body (body (seen forest.now) rename.now.file) linked)) }
    ensures refused { IfErr result (λ e. e ≡ NoMemory) }
{
    let mut areas = Vec::new(alloc);
    push_named(&mut areas, forest.body(rename.from_), &rename.old_)?;
    push_named(&mut areas, forest.body(rename.to_), &rename.new_)?;
    push_linked(&mut areas, forest.body(rename.file))?;
    Ok(areas)
}

/// Returns what is asked of a file that is written or cut.
fn about_bytes(alloc: Global, forest: &PartForest, file: FileId) -> Result<Vec<Area>, Refusal>
    ensures value { IsSound forest.now → IfOk result (λ areas.
        areas.items ≡ at_body (body (seen forest.now) file) sized) }
    ensures refused { IfErr result (λ e. e ≡ NoMemory) }
{
    let mut areas = Vec::new(alloc);
    let Some(place) = forest.body(file) else {
        return Ok(areas);
    };
    areas.push(part_of(&place, Part::Kind))?;
    areas.push(part_of(&place, Part::Size))?;
    Ok(areas)
}

/// Returns what is asked of what is taken over.
fn about_kind(alloc: Global, forest: &PartForest, file: FileId) -> Result<Vec<Area>, Refusal>
    ensures value { IsSound forest.now → IfOk result (λ areas.
        areas.items ≡ at_body (body (seen forest.now) file) kind_of) }
    ensures refused { IfErr result (λ e. e ≡ NoMemory) }
{
    let mut areas = Vec::new(alloc);
    let Some(place) = forest.body(file) else {
        return Ok(areas);
    };
    areas.push(part_of(&place, Part::Kind))?;
    Ok(areas)
}

/// Returns the pointer of the group file that what stands at `place` was made for, if it was made
/// for one.
fn about_home(alloc: Global, forest: &PartForest, place: &Place) -> Result<Vec<Area>, Refusal>
    ensures value { IsSound forest.now → IfOk result (λ areas.
        areas.items ≡ pointer_of (group_home (val (seen forest.now) (At place.now KindOf)))) }
    ensures refused { IfErr result (λ e. e ≡ NoMemory) }
{
    let mut areas = Vec::new(alloc);
    let Some(home) = group_home(forest, place) else {
        return Ok(areas);
    };
    areas.push(Area::Pointer(home))?;
    Ok(areas)
}

/// Returns the group file that what stands at `place` was made for, if it was made for one.
#[tactic(auto, unfolding(su_table::specs::Cell::val))]
fn group_home(forest: &PartForest, place: &Place) -> Option<GroupFile>
    ensures { IsSound forest.now
        → result ≡ group_home (val (seen forest.now) (At place.now KindOf)) }
{
    match forest.home(*place)? {
        FileId::User(..) => None,
        FileId::Group(group, file) => Some((group, file)),
    }
}

/// Adds what is asked of a directory at a place about a name, if one is there.
fn push_named(areas: &mut Vec<Area>, place: Option<Place>, name: &Name) -> Result<(), Refusal>
    ensures ok { OnOk result (areas.new.items ≡ areas.old.items ++ at_body place (named name.now)) }
    ensures refused { IfErr result (λ e. e ≡ NoMemory) }
{
    let Some(place) = place else {
        return Ok(());
    };
    areas.push(part_of(&place, Part::Kind))?;
    areas.push(part_of(&place, Part::Name(name.clone()?)))?;
    Ok(())
}

/// Adds what is asked of what goes when a directory loses a name, if it is there.
fn push_leaving(areas: &mut Vec<Area>, place: Option<Place>, name: &Name) -> Result<(), Refusal>
    ensures ok { OnOk result
        (areas.new.items ≡ areas.old.items ++ at_body place (leaving name.now)) }
    ensures refused { IfErr result (λ e. e ≡ NoMemory) }
{
    let Some(place) = place else {
        return Ok(());
    };
    areas.push(part_of(&place, Part::Kind))?;
    areas.push(part_of(&place, Part::Links))?;
    areas.push(part_of(&place, Part::Name(name.clone()?)))?;
    Ok(())
}

/// Adds what is asked of what gets a name or moves, if it is there.
fn push_linked(areas: &mut Vec<Area>, place: Option<Place>) -> Result<(), Refusal>
    ensures ok { OnOk result (areas.new.items ≡ areas.old.items ++ at_body place linked) }
    ensures refused { IfErr result (λ e. e ≡ NoMemory) }
{
    let Some(place) = place else {
        return Ok(());
    };
    areas.push(part_of(&place, Part::Kind))?;
    areas.push(part_of(&place, Part::Links))?;
    Ok(())
}

/// Returns a part of what stands at a place.
fn part_of(place: &Place, part: Part) -> Area
    ensures { result ≡ InodeArea place.now part }
{
    Area::Inode(*place, part)
}
