// Why a view refuses.
ghost use Rattle.std.specs.Prelude.{◌≡◌, ◌++◌, Some, IfErr, OnOk, OnErr};
ghost use Rattle.su_bytes.specs.declared.refusals.Refusal.TheVariants.{NoMemory};
ghost use Rattle.su_view.specs.Refusal.{view_refusal_text};
ghost use Rattle.su_view.specs.declared.refusals.ViewRefusal.TheVariants.{Plain};

use std::fmt;
use su_bytes::{Principal, Refusal};

/// Why a view refuses a call. Numbers and names go on from those of `Refusal`.
#[derive(Clone, Copy, Debug, PartialEq, Eq)]
pub enum ViewRefusal {
    /// A refusal that other calls share, under its own number.
    Plain(Refusal),
    /// 38: the commit holds another i-handle of this principal than the tree has with the change.
    WrongHandle(Principal),
    /// 39: the item is that of no change, or the change is refused.
    Change(Refusal),
    /// 40: the user's own last commit isn't among those that are shown.
    OwnMissing,
}

impl ViewRefusal {
    /// Appends number, name and arguments, with single spaces between. Only `NoMemory` can come,
    /// and then nothing is added.
    pub fn show(&self, out: &mut Vec<u8>) -> Result<(), Refusal>
        ensures ok { OnOk result (out.new.items ≡ out.old.items ++ view_refusal_text self.now) }
        ensures refused { IfErr result (λ e. e ≡ NoMemory) }
        ensures err { OnErr result (out.new.items ≡ out.old.items) }
    {
        let text = format!(in *out.allocator(); "{self}")?;
        out.extend_from_slice(text.as_bytes())?;
        Ok(())
    }
}

/// `NUMBER NAME ARGS`: a principal as `U0` or `G1`, what refuses a change with its own number.
impl fmt::Display for ViewRefusal {
    ghost output = { λ r. Some (view_refusal_text r) };

    fn fmt<W: fmt::Write>(&self, f: &mut fmt::Formatter<W>) -> fmt::Result {
        match self {
            ViewRefusal::Plain(refusal) => write!(f, "{refusal}"),
            ViewRefusal::WrongHandle(principal) => write!(f, "38 WrongHandle {principal}"),
            ViewRefusal::Change(refusal) => write!(f, "39 Change {refusal}"),
            ViewRefusal::OwnMissing => write!(f, "40 OwnMissing"),
        }
    }
}

/// A refusal that other calls share.
impl From<Refusal> for ViewRefusal {
    ghost from_gives = { λ refusal r. r ≡ Plain refusal };

    fn from(refusal: Refusal) -> ViewRefusal {
        ViewRefusal::Plain(refusal)
    }
}
