// What holds of every run of honest users' clients. docs/FORKS.md tells it in words.
ghost use Rattle.std.specs.Prelude.{◌≡◌, ◌≢◌, ◌⊎◌, ◌++◌, ◌∷◌, ◌-◌, [], ℕ, true, Some, take, List};
ghost use Rattle.su_bytes.specs.Membership.{Membership};
ghost use Rattle.su_tree.specs.Collision.{Collision};
ghost use Rattle.su_version.specs.Version.{Version};
ghost use Rattle.su_version.specs.Commit.{Commit};
ghost use Rattle.su_legal.specs.Legal.{Committed, author_of, head_of, MayJoin, Legal};
ghost use Rattle.su_legal.specs.Act.{Act};
ghost use Rattle.su_view.specs.Holding.{HoldingState, Took, MaySign};
ghost use Rattle.su_view.specs.Acting.{Does};
ghost use Rattle.su_view.specs.LastCommits.{last_by, own_last, ShowsOwn};
ghost use Rattle.su_fork.specs.Numbered.{at, IsFrontOf, ForkAt, Related};
ghost use Rattle.su_fork.specs.Events.{World, Event, taking, signing, list_of, all_taken, Run, Held};
ghost use Rattle.su_fork.specs.Premises.{hashed, NoCollision, NoForgery, IsOnlyClient};
ghost use Rattle.su_fork.specs.Consistency.{SharedUpTo, SharedBefore, AsMade, NotJoined, NeverJoins, NoneAbove};
ghost use Rattle.su_fork.specs.Noticing.{AreOf, HasUpTo, NoneIsAbove, NoneComparable};
ghost use Rattle.su_fork.specs.Calls.{holding_after, acting, CommitsIn, Shown};

/// What an honest user's client holds, at whatever moment, is a legal list: all that a desk is for
/// holds of its tree.
pub fn views_are_legal()
    ensures { (w : World) (es : List Event) (k : ℕ) (xs : List Committed)
        → Run w es → Held es k xs → Legal w.roster xs }
{}

/// Lists that honest users' clients hold, at whatever moments, and that have one commit, have it at
/// one number and are equal up to it. Where they have one version structure, by whatever
/// signatures, they have it at one number and are equal before it.
pub fn views_agree()
    ensures up_to { (w : World) (es : List Event) (j k : ℕ) (xs ys : List Committed)
        → Run w es → NoCollision (hashed w.roster (all_taken es))
        → Held es j xs → Held es k ys
        → SharedUpTo xs ys }
    ensures before { (w : World) (es : List Event) (j k : ℕ) (xs ys : List Committed)
        → Run w es → NoCollision (hashed w.roster (all_taken es))
        → Held es j xs → Held es k ys
        → SharedBefore xs ys }
{}

/// Lists that are held and have one head are one list: users who compare the heads of their views
/// by other means than the server know whether they see the same.
pub fn heads_tell_lists()
    ensures { (w : World) (es : List Event) (j k : ℕ) (xs ys : List Committed)
        → Run w es → NoCollision (hashed w.roster (all_taken es))
        → Held es j xs → Held es k ys
        → head_of w.roster xs ≡ head_of w.roster ys → xs ≡ ys }
{}

/// A commit of an honest user stands, in each list that is held, after just the list that a client
/// of this user held when it signed the commit.
pub fn commits_stand_as_made()
    ensures { (w : World) (es : List Event) (u k : ℕ) (ys : List Committed)
        → Run w es → NoCollision (hashed w.roster (all_taken es)) → NoForgery w es (all_taken es)
        → w.honest u ≡ true → Held es k ys → AsMade w es u ys }
{}

/// A fork never joins. What a client signs while its list differs, at a number that both have, from
/// a list that is held at whatever moment isn't in that list (`apart`); so once two clients' lists
/// differ, nothing that one of them signs afterwards is ever in the other's (`ever`).
pub fn forks_never_join()
    ensures apart { (w : World) (es : List Event) (j k : ℕ) (ys : List Committed)
        → Run w es → NoCollision (hashed w.roster (all_taken es))
        → Held es k ys → NotJoined es j ys }
    ensures ever { (w : World) (es : List Event) (j k : ℕ)
        → Run w es → NoCollision (hashed w.roster (all_taken es)) → NeverJoins es j k }
{}

/// Above a number at which it differs from the list of an honest user's only client, no list that
/// is held has a commit of this user, earlier ones included.
pub fn forks_part_authors()
    ensures { (w : World) (es : List Event) (j k : ℕ) (ys : List Committed)
        → Run w es → NoCollision (hashed w.roster (all_taken es)) → NoForgery w es (all_taken es)
        → w.honest (w.user j) ≡ true → IsOnlyClient w j
        → Held es k ys → NoneAbove (w.user j) (list_of j es) ys }
{}

/// What a client holds it keeps.
pub fn lists_only_grow()
    ensures { (es more : List Event) (k : ℕ) → IsFrontOf (list_of k es) (list_of k (es ++ more)) }
{}

/// Of two lists that are held one begins with the other, or they fork at a number.
pub fn views_are_related()
    ensures { (w : World) (es : List Event) (j k : ℕ) (xs ys : List Committed)
        → Run w es → Held es j xs → Held es k ys → Related xs ys }
{}

/// A commit of a legal list may join what a client holds only where this is just what stands before
/// it there. So commits of a list that are shown again, too early, in another order, or with others
/// left out are refused, also if nobody holds that list.
pub fn commits_have_one_place()
    ensures { (w : World) (es : List Event) (k n : ℕ) (xs ys : List Committed) (c : Committed)
        → Run w es → NoCollision (hashed w.roster (all_taken es ++ xs))
        → Legal w.roster xs → Held es k ys
        → at xs n ≡ Some c → MayJoin w.roster ys c → ys ≡ take (n - 1) xs }
{}

/// Where among the users' last commits, as they are shown, the own one of an honest user's only
/// client isn't missing, each legal list that they are of has all that the client holds up to its
/// user's own last commit, also if nobody holds that list. So a rollback behind that commit is
/// refused as `OwnMissing`.
pub fn rollbacks_show()
    ensures { (w : World) (es : List Event) (k n : ℕ) (ys : List Committed)
        (shown : List Commit) (last : Committed)
        → let v = holding_after w es k n in let seen = all_taken es ++ ys in
        Run w es → NoCollision (hashed w.roster seen) → NoForgery w es seen
        → w.honest v.user ≡ true → IsOnlyClient w k → Legal w.roster ys → AreOf ys shown
        → ShowsOwn v.roster v.user (own_last v) shown → last_by v.user v.held ≡ Some last
        → HasUpTo last v.held ys }
{}

/// Of a legal list that forks from that of an honest user's only client at a number n, where it has
/// no commit of this user, no commit is above one of the user's own from n on (`above`). So where
/// two honest users' lists fork, and each has a commit of its own user from there on, these aren't
/// ordered, unless at n one has a commit of the other's user (`unordered`).
pub fn forks_show()
    ensures above { (w : World) (es : List Event) (k n : ℕ) (ys : List Committed)
        → let seen = all_taken es ++ ys in
        Run w es → NoCollision (hashed w.roster seen) → NoForgery w es seen
        → w.honest (w.user k) ≡ true → IsOnlyClient w k → Legal w.roster ys
        → (fork : ForkAt n (list_of k es) ys) → author_of fork.there.second ≢ w.user k
        → NoneIsAbove (w.user k) n (list_of k es) ys }
    ensures unordered { (w : World) (es : List Event) (j k n : ℕ)
        → Run w es → NoCollision (hashed w.roster (all_taken es)) → NoForgery w es (all_taken es)
        → w.honest (w.user j) ≡ true → IsOnlyClient w j
        → w.honest (w.user k) ≡ true → IsOnlyClient w k
        → (fork : ForkAt n (list_of j es) (list_of k es))
        → author_of fork.there.first ≢ w.user k → author_of fork.there.second ≢ w.user j
        → NoneComparable (w.user j) (w.user k) n (list_of j es) (list_of k es) }
{}

/// The premise on digests fails only where two byte strings of the commits have one SHA-256.
pub fn digests_tell_or_collide()
    ensures { (ro : Membership) (cs : List Committed)
        → NoCollision (hashed ro cs) ⊎ Collision (hashed ro cs) (hashed ro cs) }
{}

/// A server may show any legal list to one client, and any other to another: nothing in a run
/// restrains it.
pub fn anything_legal_may_be_shown()
    ensures { (w : World) (j k : ℕ) (xs ys : List Committed) → j ≢ k
        → w.honest (w.user j) ≡ true → w.honest (w.user k) ≡ true
        → Legal w.roster xs → Legal w.roster ys → Shown w j xs k ys }
{}

/// The calls of honest users' views make a run. A new view holds what its client holds before all
/// events. A call that took commits, as the clause `took` of a view's calls says it where nothing was
/// mixed up, and one that signed what its view may sign, is one event more of its client; what other
/// clients hold stays. A view that leaves the items of its commits makes no event.
pub fn calls_make_runs()
    ensures new { (w : World) (k n : ℕ) → holding_after w [] k n
        ≡ record { roster = w.roster; user = w.user k; held = []; itemless = n } }
    ensures leaving { (w : World) (es : List Event) (k n m : ℕ)
        → record (holding_after w es k n) { itemless = m } ≡ holding_after w es k m }
    ensures taking { (w : World) (es : List Event) (k n : ℕ) (v : HoldingState)
        (more : List Committed) → Run w es → w.honest (w.user k) ≡ true
        → Took (holding_after w es k n) more v
        → Run w (es ++ taking k more ∷ []) × (v ≡ holding_after w (es ++ taking k more ∷ []) k n) }
    ensures signing { (w : World) (es : List Event) (k n : ℕ) (s : Version)
        → Run w es → w.honest (w.user k) ≡ true → MaySign (holding_after w es k n) s
        → Run w (es ++ signing k s ∷ [])
        × (holding_after w (es ++ signing k s ∷ []) k n ≡ holding_after w es k n) }
    ensures others { (w : World) (es : List Event) (j k n : ℕ) (x : Act) → j ≢ k
        → holding_after w (es ++ record { client = k; act = x } ∷ []) j n ≡ holding_after w es j n }
{}

/// What an honest user's client does act by act, as the clause `works` of a member's calls says it
/// where nothing was mixed up, makes a run of what came before: what holds of runs holds of a program
/// that does it.
pub fn acts_make_runs()
    ensures acts { (w : World) (es : List Event) (k n : ℕ) (acts : List Act)
        (v : HoldingState)
        → Run w es → w.honest (w.user k) ≡ true → Does (holding_after w es k n) acts v
        → Run w (es ++ acting k acts) × (v ≡ holding_after w (es ++ acting k acts) k n) }
{}

/// The runs of which the laws on forks speak have signatures in them: a commit that an honest user's
/// client made, as the clauses `may_sign` and `joins` of `View::make` say it, and then took makes a
/// run without forgery into one more, in which it is signed.
pub fn commits_make_runs()
    ensures none { (w : World) → Run w [] × NoForgery w [] (all_taken []) }
    ensures more { (w : World) (es : List Event) (k n : ℕ) (c : Committed)
        → let v = holding_after w es k n in
        Run w es → NoForgery w es (all_taken es) → w.honest (w.user k) ≡ true
        → MaySign v c.commit.version → MayJoin v.roster v.held c → CommitsIn w es k c }
{}
