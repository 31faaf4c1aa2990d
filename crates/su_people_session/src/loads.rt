// Refusals of loads: what is needed of the tree can't be had, so what was asked of it isn't answered.
ghost use Rattle.std.specs.Prelude.{◌↔◌, IsTrue};
ghost use Rattle.su_part_tree.specs.Loading.{IsLoadRefusal};

use crate::sentences::is_lie;
use crate::troubles::Trouble;
use su_bytes::Refusal;
use su_view::ViewRefusal;

/// Tells whether a refusal is that of a load, or want of memory: then what was asked of the tree isn't
/// answered.
pub fn is_of_load(refusal: &Refusal) -> bool
    ensures { IsTrue result ↔ IsLoadRefusal refusal.now }
{
    matches!(
        refusal,
        Refusal::MissingBlock
            | Refusal::WrongBlock
            | Refusal::SourceFailed
            | Refusal::NoMemory
            | Refusal::Malformed(0)
    )
}

/// Tells whether something is refused as the server can't be asked, or shows what it may not: so that
/// nothing else would be answered either.
pub fn is_of_source(trouble: &Trouble) -> bool {
    match trouble {
        Trouble::Refused {
            refusal: ViewRefusal::Plain(Refusal::SourceFailed),
            ..
        } => true,
        Trouble::Refused { refusal, takes, .. } => is_lie(*takes, refusal),
        _ => false,
    }
}
