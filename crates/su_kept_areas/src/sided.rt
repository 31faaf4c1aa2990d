// Areas of a footprint in bytes, each with the sides on which it stands.
ghost use Rattle.std.specs.Prelude.{◌≡◌, ◌∷◌, ◌++◌, ◌<◌, ◌≤◌, ℕ, List, length, OnOk};
ghost use Rattle.su_op.specs.declared.areas.Area.{Area as Area_};
ghost use Rattle.su_kept_areas.specs.Lent.{area_of};
ghost use Rattle.su_kept_areas.specs.Spelling.{IsArea};
ghost use Rattle.su_kept_areas.specs.Sided.{AreSided, AreSomeSided, BeginWithOne, BeginWithSided, BeginsWithSided, SidedArea, Spells, TellsSome, areas_of, has_side, sided_byte, sided_bytes, sides_number};
ghost use Rattle.su_kept_areas.specs.declared.kinds.AreaKind.{AreaKind as AreaKind_};
ghost use Rattle.su_kept_areas.specs.declared.sided.Sides.{Sides as Sides_};

use crate::areas::{put_fields, take_fields};
use crate::kinds::AreaKind;
use crate::lent::LentArea;
use crate::marks::Side;
use std::alloc::AllocError;
use su_bytes::FileId;
use su_format::{Reader, Writer};
use su_op::Area;

/// By what the number of sides is multiplied: more than there are kinds of areas.
const KINDS: u8 = 8;

/// On which sides of a footprint an area stands.
#[derive(Clone, Copy, Debug, PartialEq, Eq)]
pub(crate) enum Sides {
    Read,
    Both,
    Written,
}

impl Sides {
    /// Returns the number that tells them.
    fn number(self) -> u8
        ensures value { result ≡ sides_number self }
        ensures few { result < 3 }
    {
        match self {
            Sides::Read => 0,
            Sides::Both => 1,
            Sides::Written => 2,
        }
    }

    /// Returns those that the number tells.
    fn of_number(number: u8) -> Sides
        ensures { (its : Sides_) → sides_number its ≡ number → result ≡ its }
    {
        match number {
            0 => Sides::Read,
            1 => Sides::Both,
            _ => Sides::Written,
        }
    }

    /// Tells whether the side is one of them.
    fn has(self, side: Side) -> bool
        ensures { result ≡ has_side side self }
    {
        match (side, self) {
            (Side::Read, Sides::Written) => false,
            (Side::Written, Sides::Read) => false,
            _ => true,
        }
    }
}

/// Writes an area with its sides. Fails where there is no room.
pub(crate) fn put_sided(writer: &mut Writer, sides: Sides, area: &Area) -> Result<(), AllocError>
    ensures ok { OnOk result (writer.new ≡ writer.old ++ sided_bytes (sides, area.now)) }
    ensures meant { OnOk result (IsArea area.now) }
{
    let kind = AreaKind::of(area);
    writer.put_u8(kind.number() + KINDS * sides.number())?;
    put_fields(writer, area)
}

/// Returns the sides that the byte tells.
fn sides_of(byte: u8) -> Sides
    ensures { (its : Sides_) (kind : AreaKind_) → byte ≡ sided_byte its kind → result ≡ its }
{
    Sides::of_number(byte / KINDS)
}

/// Returns the kind that the byte tells.
fn kind_of(byte: u8) -> AreaKind
    requires { TellsSome byte }
    ensures { (its : Sides_) (kind : AreaKind_) → byte ≡ sided_byte its kind → result ≡ kind }
{
    let Some(kind) = AreaKind::of_number(byte % KINDS) else {
        unreachable!();
    };
    kind
}

/// Returns the first area that is spelled here, and what comes behind it.
fn split_sided(bytes: &[u8]) -> (LentArea<'_>, &[u8])
    requires { BeginWithSided bytes.now }
    ensures value { (it : SidedArea) (rest : List ℕ) → BeginsWithSided bytes.now it rest
        → (area_of result.0 ≡ it.1) × (result.1.now ≡ rest) }
    ensures shorter { length result.1.now < length bytes.now }
{
    // names the type for the prover (docs/ARCHITECTURE.md, "Forms the kit wants")
    let _file: Option<FileId> = None;
    let kind = kind_of(bytes[0]);
    let mut reader = Reader::new(&bytes[1..]);
    let Ok(area) = take_fields(&mut reader, kind) else {
        unreachable!();
    };
    (area, reader.take_rest())
}

/// Returns the bytes from the first area of that side on.
pub(crate) fn from_side(bytes: &[u8], side: Side) -> &[u8]
    requires { AreSomeSided bytes.now }
    ensures value { (them : List SidedArea) → AreSided bytes.now them
        → Spells side result.now (areas_of side them) }
    ensures few { length result.now ≤ length bytes.now }
{
    let mut left = bytes;
    while !left.is_empty() {
        if sides_of(left[0]).has(side) {
            return left;
        }
        let (_, behind) = split_sided(left);
        left = behind;
    }
    left
}

/// Returns the first area of that side, with which the bytes begin, and the bytes from the next one
/// on.
pub(crate) fn split_first(bytes: &[u8], side: Side) -> (LentArea<'_>, &[u8])
    requires { BeginWithOne side bytes.now }
    ensures value { (a : Area_) (others : List Area_) → Spells side bytes.now (a ∷ others)
        → (area_of result.0 ≡ a) × Spells side result.1.now others }
    ensures is { IsArea (area_of result.0) }
    ensures shorter { length result.1.now < length bytes.now }
{
    let (area, behind) = split_sided(bytes);
    (area, from_side(behind, side))
}
