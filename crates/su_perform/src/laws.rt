// What holds of the definitions themselves.
ghost use Rattle.su_perform.specs.Found.{FoundFits, FoundIsLocal, FoundTellsPlan};

/// What the check of an operation finds is as local as its refusals are.
pub fn found_is_local()
    ensures { FoundIsLocal }
{}

/// What a check found tells what its operation does.
pub fn found_tells_plan()
    ensures { FoundTellsPlan }
{}

/// An operation that no check refuses can be performed with what was found.
pub fn found_fits()
    ensures { FoundFits }
{}
