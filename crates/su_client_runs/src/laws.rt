// A client at work among the runs of the laws on forks.
ghost use Rattle.std.specs.Prelude.{◌≡◌, ℕ, true, List};
ghost use Rattle.su_fork.specs.Events.{World, Event, Run};
ghost use Rattle.su_fork.specs.Calls.{holding_after};
ghost use Rattle.su_client_work.specs.Member.{IsClear, MemberState};
ghost use Rattle.su_client_work.specs.Work.{Works};
ghost use Rattle.su_client_runs.specs.Runs.{GoesOn};

use su_fork::acts_make_runs;

/// What an honest user's client did, as the clause `works` of a member's calls and of the run of a
/// script says it, makes a run of what came before, where nothing was mixed up; and the commits that
/// were signed with its keys since are just what it signs there. So what the laws on forks say of
/// runs holds of what a script's run does with the keys (`run_client`).
pub fn clients_make_runs()
    ensures { (w : World) (es : List Event) (k : ℕ) (s t : MemberState)
        → Run w es → w.honest (w.user k) ≡ true → s.holding ≡ holding_after w es k s.holding.itemless
        → IsClear t → Works s t → GoesOn w es k s t }
{
    acts_make_runs();
}
