// Teams.
ghost use Rattle.std.specs.Prelude.{◌≡◌, ◌≢◌, ◌++◌, ℕ, List, All, Some, MatchOption, IfOk, IfErr, OnOk, length, map, option_map, slice_get};
ghost use Rattle.std.specs.Option.{option_copied};
ghost use Rattle.su_bytes.specs.Membership.{membership_of_keys};
ghost use Rattle.su_bytes.specs.declared.refusals.Refusal.TheVariants.{NoMemory};
ghost use Rattle.su_team.specs.Team.{IsTeam, name_at, team_text, user_line, user_lines};
ghost use Rattle.su_team.specs.TeamUsers.{told, users_of};

use crate::lines::{TeamUser, place_of};
use std::alloc::{AllocError, Global};
use std::marker::Model;
use su_bytes::{FileId, KEY_LENGTH, Refusal, Roster, User};

/// The first line of a team's text.
pub(crate) const FIRST_LINE: &[u8] = b"sundr team 1\n";

/// Who belongs to a store: 1 to 64 users, from user 0 on, each with a name of its own and a public
/// key. Its model is their names and keys.
#[derive(Debug, Drop)]
pub struct Team {
    users: Vec<TeamUser>,
}

impl Model for Team {
    ghost use Rattle.std.specs.Prelude.{ℕ, List};
    ghost use Rattle.su_team.specs.Team.{IsTeam};
    ghost use Rattle.su_team.specs.TeamUsers.{users_of};

    ghost Value = { List (List ℕ × List ℕ) };

    ghost view = { λ t. users_of t.users.items };

    ghost invariant = { λ t. IsTeam (users_of t.users.items) };
}

impl Team {
    /// Makes the team of these users.
    pub(crate) fn of_users(users: Vec<TeamUser>) -> Team
        requires { IsTeam (users_of users.items) }
        ensures { result ≡ users_of users.items }
    {
        Team { users }
    }

    /// Returns how many users there are: 1 to 64.
    pub fn user_count(&self) -> usize
        ensures value { result ≡ length self.now }
        // What holds of each team.
        ensures team { IsTeam self.now }
    {
        self.users.len()
    }

    /// Lends the name of a user, if there is such a user.
    pub fn name_of(&self, user: User) -> Option<&[u8]>
        ensures { option_copied result ≡ name_at self.now user }
    {
        let user = self.users.get(usize::from(user.number()))?;
        Some(&user.name)
    }

    /// Returns the user who has the name, if one has it.
    pub fn user_of(&self, name: &[u8]) -> Option<User>
        ensures { MatchOption result (All (λ u. u.0 ≢ name.now) self.now)
            (λ user. name_at self.now user ≡ Some name.now) }
    {
        // names the type for the prover (docs/ARCHITECTURE.md, "Forms the kit wants")
        let _file: Option<FileId> = None;
        let place = place_of(&self.users, name)?;
        match User::new(place as u64) {
            Ok(user) => Some(user),
            Err(_) => unreachable!(),
        }
    }

    /// Makes the roster of the team: group 0 has all users, and group 1 has user 0. Fails only with
    /// `NoMemory`.
    pub fn roster(&self, alloc: Global) -> Result<Roster, Refusal>
        ensures value { IfOk result (λ roster.
            roster ≡ membership_of_keys (map (λ u. u.1) self.now)) }
        ensures refused { IfErr result (λ e. e ≡ NoMemory) }
    {
        let keys = keys_of(alloc, &self.users)?;
        Roster::of_keys(alloc, &keys)
    }

    /// Spells the text of the team, which `read_team` reads.
    pub fn spelled(&self, alloc: Global) -> Result<Vec<u8>, AllocError>
        ensures { IfOk result (λ text. text.items ≡ team_text self.now) }
    {
        let mut text = Vec::from_slice(alloc, FIRST_LINE)?;
        push_lines(alloc, &mut text, &self.users)?;
        Ok(text)
    }
}

/// Appends the lines of users.
fn push_lines(alloc: Global, text: &mut Vec<u8>, users: &[TeamUser]) -> Result<(), AllocError>
    ensures { OnOk result (text.new.items ≡ text.old.items ++ user_lines (users_of users.now)) }
{
    for user in users {
        push_line(alloc, text, user)?;
    }
    Ok(())
}

/// Copies the keys of users, in order.
fn keys_of(alloc: Global, users: &[TeamUser]) -> Result<Vec<[u8; KEY_LENGTH]>, AllocError>
    ensures { IfOk result (λ keys. keys.items ≡ map (λ u. (told u).1) users.now) }
{
    let mut keys = Vec::new(alloc);
    for user in users {
        keys.push(user.key)?;
    }
    Ok(keys)
}

/// Appends the line of a user.
fn push_line(alloc: Global, text: &mut Vec<u8>, user: &TeamUser) -> Result<(), AllocError>
    ensures { OnOk result (text.new.items ≡ text.old.items ++ user_line (told user.now)) }
{
    let digits = hex::encode(alloc, &user.key)?;
    text.extend_from_slice(&user.name)?;
    text.push(b' ')?;
    text.extend_from_slice(digits.as_bytes())?;
    text.push(b'\n')?;
    Ok(())
}
