// What holds of legal lists.
ghost use Rattle.std.specs.Prelude.{◌≡◌, ◌++◌, ◌∷◌, [], List, map};
ghost use Rattle.su_bytes.specs.Membership.{Membership};
ghost use Rattle.su_desk.specs.Applied.{tree_after};
ghost use Rattle.su_desk.specs.Headline.{Headline};
ghost use Rattle.su_desk.specs.Version.{versions};
ghost use Rattle.su_legal.specs.Legal.{Committed, Legal, MayJoin, history, vector_of};

/// Of the tree of a legal list all holds that a desk is for, with the list's own history; and the
/// vector of its last commit counts, of each user, the user's commits, and of each group those that
/// carry it.
pub fn legal_lists_are_good()
    ensures headline { (ro : Membership) (cs : List Committed) → Legal ro cs
        → Headline ro (history cs) (tree_after ro (history cs)) }
    ensures vector { (ro : Membership) (cs : List Committed) → Legal ro cs
        → vector_of ro cs ≡ map (λ v. v.1) (versions ro (history cs)) }
{}

/// Each commit of a legal list may join the list of those before it, which is legal; and a legal
/// list with a commit that may join it is legal.
pub fn fronts_are_legal()
    ensures front { (ro : Membership) (xs ys : List Committed) (c : Committed)
        → Legal ro (xs ++ c ∷ ys) → Legal ro xs × MayJoin ro xs c }
    ensures longer { (ro : Membership) (xs : List Committed) (c : Committed)
        → Legal ro xs → MayJoin ro xs c → Legal ro (xs ++ c ∷ []) }
{}
