// What holds of the definitions themselves.
ghost use Rattle.su_asked.specs.Asked.{AskedInTwoRounds, RefusalsAreLocal};
ghost use Rattle.su_asked.specs.Following.{ChangesFollow};

/// Refusals are local: in each tree that agrees on the cells that its check may ask for, an action
/// is accepted or refused alike, with the same refusal.
pub fn refusals_are_local()
    ensures { RefusalsAreLocal }
{}

/// A tree that follows what is done to its loaded part is the one that has what is loaded where
/// something was written, and elsewhere what it had.
pub fn changes_follow()
    ensures { ChangesFollow }
{}

/// Which areas a check may ask for beyond the first ones is known from those: so they are found in
/// two rounds.
pub fn asked_in_two_rounds()
    ensures { AskedInTwoRounds }
{}
