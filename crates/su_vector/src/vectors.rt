// Version vectors.
ghost use Rattle.std.specs.Prelude.{◌≡◌, ◌<◌, ◌+◌, ◌-◌, ◌^◌, ◌++◌, ◌↔◌, IsTrue, nat_eq, cond, length, map, IfOk, IfErr, OnOk};
ghost use Rattle.std.specs.List.{AllByRecursion, list_any};
ghost use Rattle.su_bytes.specs.Principal.{principals};
ghost use Rattle.su_bytes.specs.Roster.{users_of};
ghost use Rattle.su_vector.specs.Vector.{number_in, number_of, le, bump, concerns, numbers_after};
ghost use Rattle.su_bytes.specs.declared.refusals.Refusal.TheVariants.{NoMemory};

use std::alloc::{AllocError, Global};
use std::marker::Model;
use su_bytes::{Digest, Group, Principal, Refusal, Roster, RosterUser, User};

/// How many commits concern each principal of the roster: its users, and then its groups. Its
/// model is these numbers.
#[derive(Debug, Drop)]
pub struct Vector {
    numbers: Vec<u64>,
}

impl Model for Vector {
    ghost use Rattle.std.specs.Prelude.{ℕ, List};

    ghost Value = { List ℕ };

    ghost view = { λ v. v.numbers.items };
}

impl Clone for Vector {
    ghost is_clone = { λ vector copy. copy ≡ vector };

    fn clone(&self) -> Result<Vector, AllocError> {
        let numbers = Vec::from_slice(*self.numbers.allocator(), self.numbers.as_slice())?;
        Ok(Vector { numbers })
    }
}

impl Vector {
    /// Makes the vector of these numbers.
    pub fn new(numbers: Vec<u64>) -> Vector
        ensures { result ≡ numbers.items }
    {
        Vector { numbers }
    }

    /// Returns the numbers.
    pub fn numbers(&self) -> &[u64]
        ensures { result.now ≡ self.now }
    {
        self.numbers.as_slice()
    }

    /// Returns the number of a user of the roster, if there is such a user and the vector has it.
    pub fn number_of(&self, roster: &Roster, user: User) -> Option<u64>
        ensures { result ≡ number_of roster.now self.now user }
    {
        number_in(roster.users(), self.numbers(), user)
    }

    /// Takes the numbers of another vector, which is as long. It takes no memory.
    pub fn set(&mut self, other: &Vector)
        requires { length self.old ≡ length other.now }
        ensures { self.new ≡ other.now }
    {
        self.numbers.copy_from_slice(other.numbers());
    }

    /// Whether the vectors are as long, and no number is greater than the other's at the same
    /// place. It takes no memory.
    pub fn le(&self, other: &Vector) -> bool
        ensures { result ≡ le self.now other.now }
    {
        is_le(self.numbers(), other.numbers())
    }

    /// Returns the vector after a commit by this author that carries these groups: their numbers
    /// are one higher. The vector has a number for each principal of the roster, and none is at its
    /// last value. Fails only with `NoMemory`.
    pub fn bump(
        &self,
        alloc: Global,
        roster: &Roster,
        author: User,
        groups: &[(Group, Digest)],
    ) -> Result<Vector, Refusal>
        requires size { length self.now ≡ length (principals roster.now) }
        requires room { AllByRecursion (λ n. n < 2 ^ 64 - 1) self.now }
        ensures value { IfOk result (λ v.
            v ≡ bump roster.now self.now author (map (λ g. g.0) groups.now)) }
        ensures refused { IfErr result (λ e. e ≡ NoMemory) }
    {
        let principals = roster.principals()?;
        let mut numbers = Vec::with_capacity(alloc, self.numbers.len())?;
        push_numbers_after(&mut numbers, &principals, self.numbers(), author, groups)?;
        Ok(Vector { numbers })
    }
}

/// The number at the place of a user among these.
fn number_in(users: &[RosterUser], numbers: &[u64], user: User) -> Option<u64>
    ensures { result ≡ number_in (users_of users.now) numbers.now user }
{
    let [first, users @ ..] = users else {
        return None;
    };
    let [number, numbers @ ..] = numbers else {
        return None;
    };
    if first.user == user {
        Some(*number)
    } else {
        number_in(users, numbers, user)
    }
}

fn is_le(numbers: &[u64], others: &[u64]) -> bool
    ensures { result ≡ le numbers.now others.now }
{
    match (numbers, others) {
        ([], []) => true,
        ([number, numbers @ ..], [other, others @ ..]) => {
            number <= other && is_le(numbers, others)
        }
        _ => false,
    }
}

/// Whether a commit by this author that carries these groups concerns the principal.
fn concerns(principal: &Principal, author: User, groups: &[(Group, Digest)]) -> bool
    ensures { result ≡ concerns author (map (λ g. g.0) groups.now) principal.now }
{
    match principal {
        Principal::User(user) => *user == author,
        Principal::Group(group) => carries(groups, *group),
    }
}

fn carries(groups: &[(Group, Digest)], group: Group) -> bool
    ensures { result ≡ list_any (λ e. nat_eq group e.0) groups.now }
{
    groups.iter().any(|carried| group == carried.0)
}

// Adds the numbers of these principals after such a commit.
fn push_numbers_after(
    numbers: &mut Vec<u64>,
    principals: &[Principal],
    before: &[u64],
    author: User,
    groups: &[(Group, Digest)],
) -> Result<(), AllocError>
    requires { AllByRecursion (λ n. n < 2 ^ 64 - 1) before.now }
    ensures { OnOk result (numbers.new.items ≡ numbers.old.items
        ++ numbers_after principals.now before.now author (map (λ g. g.0) groups.now)) }
{
    let [principal, principals @ ..] = principals else {
        return Ok(());
    };
    let [number, before @ ..] = before else {
        return Ok(());
    };
    let raised = concerns(principal, author, groups);
    numbers.push(*number + u64::from(raised))?;
    push_numbers_after(numbers, principals, before, author, groups)
}

/// Whether these are the numbers of the principals after such a commit. It takes no memory.
pub fn are_numbers_after(
    numbers: &[u64],
    principals: &[Principal],
    before: &[u64],
    author: User,
    groups: &[(Group, Digest)],
) -> bool
    ensures { IsTrue result ↔ (numbers.now
        ≡ numbers_after principals.now before.now author (map (λ g. g.0) groups.now)) }
{
    let [principal, principals @ ..] = principals else {
        return numbers.is_empty();
    };
    let [number, before @ ..] = before else {
        return numbers.is_empty();
    };
    let [first, numbers @ ..] = numbers else {
        return false;
    };
    let raised = concerns(principal, author, groups);
    is_number_after(*first, *number, raised)
        && are_numbers_after(numbers, principals, before, author, groups)
}

// Whether a number is the other one, or where it was raised the next.
fn is_number_after(number: u64, before: u64, raised: bool) -> bool
    ensures { IsTrue result ↔ (number ≡ before + cond raised 1 0) }
{
    if raised {
        number != 0 && number - 1 == before
    } else {
        number == before
    }
}
