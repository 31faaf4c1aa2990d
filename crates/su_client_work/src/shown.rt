// What a server shows as the users' last commits.
ghost use Rattle.std.specs.Prelude.{◌≡◌, ◌∷◌, ◌++◌, [], OnOk};

use std::alloc::{AllocError, Global};
use su_version::Commit;

/// Commits that a server shows as the users' last ones, each with the number that it told.
#[derive(Drop)]
pub(crate) struct Shown {
    numbers: Vec<u64>,
    commits: Vec<Commit>,
}

impl Shown {
    /// Makes it of no commits.
    pub fn new(alloc: Global) -> Shown
        ensures { result.commits.items ≡ [] }
    {
        Shown {
            numbers: Vec::new(alloc),
            commits: Vec::new(alloc),
        }
    }

    /// Adds a commit with its number.
    pub fn push(&mut self, number: u64, commit: Commit) -> Result<(), AllocError>
        ensures { OnOk result (self.new.commits.items ≡ self.old.commits.items ++ commit ∷ []) }
    {
        self.numbers.push(number)?;
        self.commits.push(commit)?;
        Ok(())
    }

    /// Lends the commits.
    pub fn commits(&self) -> &[Commit]
        ensures { result.now ≡ self.now.commits.items }
    {
        self.commits.as_slice()
    }

    /// Lends the commit that is shown with that number, if one is.
    pub fn of(&self, number: u64) -> Option<&Commit> {
        let place = self.numbers.iter().position(|it| *it == number)?;
        self.commits.get(place)
    }
}
