// What a crash leaves of a file, for theorems that span a restart.
ghost use Rattle.std.specs.Prelude.{List, IfSome};
ghost use Rattle.su_keeper.specs.Kept.{KeptRecord};
ghost use Rattle.su_vault.specs.Records.{commits_of};

use crate::volumes::Volume;

/// A file of a vault that can be made to crash, for theorems that span a restart.
pub trait Crashing: Volume {
    /// Lets the process die and its disk crash. What the next start finds is just what was kept, as
    /// long as no wrong answer was taken as true. `None` where the file was lost to a call.
    fn crash(self) -> Option<Self>
        ensures { IfSome result (λ f. Self.Volume.is_clean f → (records : List KeptRecord)
            → Self.Volume.keeps self records → Self.Volume.was_found f (commits_of records)) };
}
