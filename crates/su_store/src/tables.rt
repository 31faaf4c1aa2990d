// The two tables of a file.
ghost use Rattle.std.specs.Prelude.{◌≡◌, false, [], OnOk};
ghost use Rattle.sqlite.specs.State.{HasCleanDisk, Survives};
ghost use Rattle.sqlite.specs.Held.{state};
ghost use Rattle.su_store.specs.Tables.{no_schema, half_schema, store_schema};
ghost use Rattle.su_store.specs.Files.{BeginsFrom};

use crate::faults::FileFault;
use crate::schemas::{is_half, is_new, is_store};
use sqlite::{Alter, Connection, Error};

/// Makes the table of records, with none.
fn create_records<S: Alter>(conn: &mut Connection<S>) -> Result<usize, Error>
    requires { HasCleanDisk (state S.Store conn.old)
        → (state S.Store conn.old).now.schema ≡ no_schema }
    ensures schema { HasCleanDisk (state S.Store conn.new)
        → OnOk result ((state S.Store conn.new).now.schema ≡ half_schema) }
    ensures empty { HasCleanDisk (state S.Store conn.new)
        → OnOk result ((state S.Store conn.new).now.trees 0 ≡ []) }
    ensures clean { HasCleanDisk (state S.Store conn.new) → HasCleanDisk (state S.Store conn.old) }
{
    conn.execute(
        "CREATE TABLE record (number INTEGER PRIMARY KEY, bytes BLOB NOT NULL) STRICT",
        &[],
    )
}

/// Makes the table of blocks, with none.
fn create_blocks<S: Alter>(conn: &mut Connection<S>) -> Result<usize, Error>
    requires { HasCleanDisk (state S.Store conn.old)
        → (state S.Store conn.old).now.schema ≡ half_schema }
    ensures schema { HasCleanDisk (state S.Store conn.new)
        → OnOk result ((state S.Store conn.new).now.schema ≡ store_schema) }
    ensures empty { HasCleanDisk (state S.Store conn.new)
        → OnOk result ((state S.Store conn.new).now.trees 1 ≡ []) }
    ensures kept { HasCleanDisk (state S.Store conn.new)
        → OnOk result ((state S.Store conn.new).now.trees 0
        ≡ (state S.Store conn.old).now.trees 0) }
    ensures clean { HasCleanDisk (state S.Store conn.new) → HasCleanDisk (state S.Store conn.old) }
{
    conn.execute(
        "CREATE TABLE block (digest BLOB PRIMARY KEY NOT NULL, bytes BLOB NOT NULL) STRICT",
        &[],
    )
}

/// Makes the tables of a new file, and those that a making which was cut short has left out. A
/// file of something else is refused with `Foreign` before anything is written into it.
pub(crate) fn prepare<S: Alter>(conn: &mut Connection<S>) -> Result<(), FileFault>
    ensures begun { HasCleanDisk (state S.Store conn.new) → OnOk result
        (BeginsFrom (state S.Store conn.old) (state S.Store conn.new)) }
    ensures clean { HasCleanDisk (state S.Store conn.new) → HasCleanDisk (state S.Store conn.old) }
{
    if is_store(conn.schema()) {
        return Ok(());
    }
    if is_half(conn.schema()) {
        create_blocks(conn)?;
        return Ok(());
    }
    if !is_new(conn.schema()) {
        return Err(FileFault::Foreign);
    }
    create_records(conn)?;
    create_blocks(conn)?;
    Ok(())
}
