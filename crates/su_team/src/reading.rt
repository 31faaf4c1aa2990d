// How the text of a team is read.
ghost use Rattle.std.specs.Prelude.{◌≡◌, ℕ, List, IfOk, IfErr};
ghost use Rattle.su_team.specs.Team.{AreUsers, IsTeam, team_text, user_lines};
ghost use Rattle.su_team.specs.TeamUsers.{users_of};
ghost use Rattle.su_team.specs.WrongLine.{LinesStop, TellsOf};
ghost use Rattle.su_team.specs.declared.faults.TextFault.TheVariants.{NoMemory};

use crate::faults::{Mistake, TextFault};
use crate::lines::{TeamUser, push_user};
use crate::teams::{FIRST_LINE, Team};
use std::alloc::Global;

/// Reads the text of a team: the line `sundr team 1`, and then for each of 1 to 64 users, from user
/// 0 on, `NAME KEY`; each line ends with a line feed. Else tells the first line that is wrong.
pub fn read_team(alloc: Global, text: &[u8]) -> Result<Team, TextFault>
    ensures ok { IfOk result (λ team. team_text team ≡ text.now) }
    ensures wrong { IfErr result (TellsOf text.now) }
    ensures read { (users : List (List ℕ × List ℕ)) → IsTeam users → text.now ≡ team_text users
        → IfErr result (λ e. e ≡ NoMemory) }
{
    let Some(lines) = text.strip_prefix(FIRST_LINE) else {
        return Err(TextFault::Line {
            line: 1,
            mistake: Mistake::FirstLine,
        });
    };
    let users = read_users(alloc, lines)?;
    if users.is_empty() {
        return Err(TextFault::Line {
            line: 2,
            mistake: Mistake::NoUser,
        });
    }
    Ok(Team::of_users(users))
}

/// Reads the lines of users, up to the end.
fn read_users(alloc: Global, lines: &[u8]) -> Result<Vec<TeamUser>, TextFault>
    ensures ok { IfOk result (λ users. user_lines (users_of users.items) ≡ lines.now) }
    ensures users { IfOk result (λ users. AreUsers (users_of users.items)) }
    ensures wrong { IfErr result (LinesStop lines.now) }
{
    let mut users = Vec::new(alloc);
    let mut left = lines;
    while !left.is_empty() {
        let taken = push_user(alloc, &mut users, left)?;
        left = &left[taken..];
    }
    Ok(users)
}
