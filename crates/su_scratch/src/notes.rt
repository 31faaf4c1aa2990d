// Where an item lies.
ghost use Rattle.std.specs.Prelude.{◌≡◌, length, if◌then◌else◌};
ghost use Rattle.std.specs.Str.{bytes_eq};
ghost use Rattle.su_scratch.specs.Page.{IsNote};

use su_bytes::Digest;

/// Where an item lies in a scratch, and how many bytes it has.
#[derive(Clone, Copy, Debug, PartialEq, Eq)]
pub(crate) struct Place {
    pub(crate) first: u64,
    pub(crate) count: u32,
}

/// Where the item of a digest lies.
#[derive(Clone, Copy, Debug)]
pub(crate) struct Note {
    pub(crate) digest: Digest,
    pub(crate) place: Place,
}

impl Note {
    /// Returns where the item of a digest lies: as this note says, where it is about it, and else as
    /// was found before.
    pub(crate) fn tells(&self, digest: &Digest, found: Option<Place>) -> Option<Place>
        ensures { result
            ≡ (if bytes_eq digest.now self.now.digest then Some self.now.place else found) }
    {
        if *digest == self.digest {
            Some(self.place)
        } else {
            found
        }
    }

    /// Does nothing: its clause tells the prover that a page can tell the note.
    pub(crate) fn can_be_told(&self)
        ensures { IsNote self.now }
    {
        // how long it is, and that the numbers fit (docs/ARCHITECTURE.md, "Forms the kit wants")
        has_digest_length(&self.digest);
        let _first = self.place.first;
        let _count = self.place.count;
    }
}

/// Tells the prover how long a digest is.
fn has_digest_length(digest: &Digest)
    ensures { length digest.now ≡ 32 }
{
    let _bytes: &[u8] = digest.as_bytes();
}
