// What holds of the definitions themselves.
ghost use Rattle.su_undone.specs.Undone.{UndoneIsPutBack};

/// What the steps of an inverse make of a tree is the tree that has the kept values in the areas of
/// the inverse and elsewhere the present ones, where there is such a tree.
pub fn undone_is_put_back()
    ensures { UndoneIsPutBack }
{}
