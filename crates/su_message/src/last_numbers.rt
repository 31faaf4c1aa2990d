// Which users have a record, and the number of the last one of each.
ghost use Rattle.std.specs.Prelude.{◌≡◌, ◌++◌, ◌<◌, length, IfOk, IfErr, OnOk};
ghost use Rattle.su_format.specs.Reading.{Took, Refuses, Takes};
ghost use Rattle.su_message.specs.LastNumbers.{AreLast, last_format, user_above, user_number_format, users_bytes};

use std::alloc::{AllocError, Global};
use std::marker::Model;
use su_bytes::{FileId, Refusal, User};
use su_format::{Reader, Writer};

/// Users in ascending order, each with the number of the user's last record. Its model is these
/// pairs.
#[derive(Drop)]
pub struct LastNumbers {
    users: Vec<(User, u64)>,
}

impl Model for LastNumbers {
    ghost use Rattle.std.specs.Prelude.{ℕ, List};
    ghost use Rattle.su_message.specs.LastNumbers.{AreLast};

    ghost Value = { List (ℕ × ℕ) };

    ghost view = { λ l. l.users.items };

    ghost invariant = { λ l. AreLast l.users.items };
}

impl LastNumbers {
    /// Makes a list of these users, which ascend, at most one for each user that there can be.
    pub fn new(users: Vec<(User, u64)>) -> LastNumbers
        requires { AreLast users.items }
        ensures { result ≡ users.items }
    {
        LastNumbers { users }
    }

    /// Lends the users with their numbers.
    pub fn as_slice(&self) -> &[(User, u64)]
        ensures value { result.now ≡ self.now }
        // What holds of each such list.
        ensures last { AreLast self.now }
    {
        self.users.as_slice()
    }

    /// Writes how many users there are, and each with its number.
    pub(crate) fn write(&self, writer: &mut Writer) -> Result<(), AllocError>
        ensures written { OnOk result
            (AreLast self.now × (writer.new ≡ writer.old ++ users_bytes self.now)) }
    {
        write_users(writer, self.users.as_slice())
    }

    /// Reads how many users there are, and each with its number.
    pub(crate) fn read(alloc: Global, reader: &mut Reader<'_>) -> Result<LastNumbers, Refusal>
        ensures { Takes last_format reader.old result reader.new }
    {
        let users = read_users(alloc, reader)?;
        Ok(LastNumbers { users })
    }
}

fn write_users(writer: &mut Writer, users: &[(User, u64)]) -> Result<(), AllocError>
    requires { length users.now < 256 }
    ensures { OnOk result
        (writer.new ≡ writer.old ++ users_bytes users.now) }
{
    writer.put_u8(users.len() as u8)?;
    for (user, number) in users {
        writer.put_user(*user)?;
        writer.put_u64(*number)?;
    }
    Ok(())
}

/// A user that is not below this number.
fn read_user_above(reader: &mut Reader<'_>, least: u8) -> Result<User, Refusal>
    ensures { Takes (user_above least) reader.old result reader.new }
{
    let malformed = Refusal::Malformed(reader.place());
    let Ok(user) = reader.take_user() else {
        return Err(malformed);
    };
    if user.number() < least {
        return Err(malformed);
    }
    Ok(user)
}

/// A user that is not below this number, and the number of the user's last record.
fn read_user(reader: &mut Reader<'_>, least: u8) -> Result<(User, u64), Refusal>
    ensures { Takes (user_number_format least) reader.old result reader.new }
{
    // names the type for the prover (docs/ARCHITECTURE.md, "Forms the kit wants")
    let _file: Option<FileId> = None;
    let user = read_user_above(reader, least)?;
    let number = reader.take_u64()?;
    Ok((user, number))
}

fn read_users(alloc: Global, reader: &mut Reader<'_>) -> Result<Vec<(User, u64)>, Refusal>
    ensures found { IfOk result (λ users. Took last_format reader.old users.items reader.new) }
    ensures refused { IfErr result (λ e. Refuses last_format reader.old e) }
{
    // names the type for the prover (docs/ARCHITECTURE.md, "Forms the kit wants")
    let _file: Option<FileId> = None;
    let count = reader.take_u8()?;
    let mut users = Vec::new(alloc);
    let mut least = 0;
    for _ in 0..count {
        let (user, number) = read_user(reader, least)?;
        users.push((user, number))?;
        least = user.number() + 1;
    }
    Ok(users)
}
