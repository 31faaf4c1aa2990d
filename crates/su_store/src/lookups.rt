// Looking for a record by its number, and for a block by its digest.
ghost use Rattle.std.specs.Prelude.{◌≡◌, ◌<◌, ◌≤◌, ◌^◌, false, IsTrue, IfOk, OnOk, option_map};
ghost use Rattle.sqlite.specs.State.{HasCleanDisk, Survives, IsUnchanged};
ghost use Rattle.sqlite.specs.Held.{state};
ghost use Rattle.su_store.specs.Tables.{store_schema};
ghost use Rattle.su_store.specs.Lookups.{IsRecord, IsBlock, TellsHeld, IsFirst};
ghost use Rattle.su_store.specs.Changes.{HasRecords};

use sqlite::{Alter, Connection, Error, Row, Transaction, params};

/// Reads the bytes of the first row. `None` where there is no row.
fn first_bytes(rows: &[Row]) -> Result<Option<Vec<u8>>, Error>
    ensures { IfOk result (λ found. IsFirst (option_map (λ b. b.items) found) rows.now) }
{
    match rows.first() {
        None => Ok(None),
        Some(row) => {
            let bytes = row.get(0)?;
            Ok(Some(bytes))
        }
    }
}

/// Looks for the record of a number. `None` where there are no more than so many.
pub(crate) fn find_record<S: Alter>(
    conn: &mut Connection<S>,
    number: u32,
) -> Result<Option<Vec<u8>>, Error>
    requires { HasCleanDisk (state S.Store conn.old)
        → (state S.Store conn.old).now.schema ≡ store_schema }
    ensures found { HasCleanDisk (state S.Store conn.new) → IfOk result (λ found.
        IsRecord number (option_map (λ b. b.items) found) (state S.Store conn.old).now.trees) }
    ensures same { HasCleanDisk (state S.Store conn.new)
        → OnOk result (IsUnchanged (state S.Store conn.old) (state S.Store conn.new)) }
    ensures mode { conn.old.in_transaction ≡ false → conn.new.in_transaction ≡ false }
    ensures crash { Survives (state S.Store conn.old) (state S.Store conn.new) (λ _. ⊥) }
{
    let rows = conn.query_all(
        "SELECT bytes FROM record WHERE number = ?1",
        params![number],
    )?;
    first_bytes(rows.as_slice())
}

/// Looks for a block of the digest, as the table has it. `None` where there is none.
pub(crate) fn find_block<S: Alter>(
    conn: &mut Connection<S>,
    digest: &[u8],
) -> Result<Option<Vec<u8>>, Error>
    requires { HasCleanDisk (state S.Store conn.old)
        → (state S.Store conn.old).now.schema ≡ store_schema }
    ensures found { HasCleanDisk (state S.Store conn.new) → IfOk result (λ found.
        IsBlock digest.now (option_map (λ b. b.items) found) (state S.Store conn.old).now.trees) }
    ensures same { HasCleanDisk (state S.Store conn.new)
        → OnOk result (IsUnchanged (state S.Store conn.old) (state S.Store conn.new)) }
    ensures mode { conn.old.in_transaction ≡ false → conn.new.in_transaction ≡ false }
    ensures crash { Survives (state S.Store conn.old) (state S.Store conn.new) (λ _. ⊥) }
{
    let rows = conn.query_all("SELECT bytes FROM block WHERE digest = ?1", params![digest])?;
    first_bytes(rows.as_slice())
}

/// Whether a block of the digest is kept, as the transaction sees it.
pub(crate) fn is_held<S: Alter>(tx: &mut Transaction<'_, S>, digest: &[u8]) -> Result<bool, Error>
    requires { HasCleanDisk (state S.Store tx.old.conn.now)
        → (state S.Store tx.old.conn.now).now.schema ≡ store_schema }
    ensures same_reference { tx.new.conn.ghost_name ≡ tx.old.conn.ghost_name }
    ensures held { HasCleanDisk (state S.Store tx.new.conn.now) → IfOk result (λ held.
        TellsHeld digest.now held (state S.Store tx.old.conn.now).now.trees) }
    ensures same { HasCleanDisk (state S.Store tx.new.conn.now) → OnOk result
        (IsUnchanged (state S.Store tx.old.conn.now) (state S.Store tx.new.conn.now)) }
    ensures crash { Survives (state S.Store tx.old.conn.now) (state S.Store tx.new.conn.now)
        (λ _. ⊥) }
{
    let rows = tx.query_all("SELECT bytes FROM block WHERE digest = ?1", params![digest])?;
    Ok(!rows.as_slice().is_empty())
}

/// Whether the record of this number would be the next: there is none of it, and one of each below.
pub(crate) fn is_next<S: Alter>(conn: &mut Connection<S>, number: u32) -> Result<bool, Error>
    requires { HasCleanDisk (state S.Store conn.old)
        → (state S.Store conn.old).now.schema ≡ store_schema }
    ensures next { HasCleanDisk (state S.Store conn.new) → IfOk result (λ is. IsTrue is →
        HasRecords number (state S.Store conn.old).now.trees) }
    ensures same { HasCleanDisk (state S.Store conn.new)
        → OnOk result (IsUnchanged (state S.Store conn.old) (state S.Store conn.new)) }
    ensures crash { Survives (state S.Store conn.old) (state S.Store conn.new) (λ _. ⊥) }
{
    if find_record(conn, number)?.is_some() {
        return Ok(false);
    }
    match number.checked_sub(1) {
        None => Ok(true),
        Some(last) => Ok(find_record(conn, last)?.is_some()),
    }
}

/// Counts the records, of which there are none or one of each number from 0 on, up to `most`. More
/// than `most` count as `most` and one.
pub(crate) fn count_records<S: Alter>(conn: &mut Connection<S>, most: u32) -> Result<u32, Error>
    requires schema { HasCleanDisk (state S.Store conn.old)
        → (state S.Store conn.old).now.schema ≡ store_schema }
    requires room { most < 2 ^ 31 }
    ensures counted { HasCleanDisk (state S.Store conn.new) → IfOk result (λ count.
        count ≤ most → HasRecords count (state S.Store conn.old).now.trees) }
    ensures same { HasCleanDisk (state S.Store conn.new) → OnOk result
        ((state S.Store conn.new).now ≡ (state S.Store conn.old).now) }
    ensures is_open { HasCleanDisk (state S.Store conn.new)
        → OnOk result (IsTrue (state S.Store conn.new).is_open) }
    ensures crash { Survives (state S.Store conn.old) (state S.Store conn.new) (λ _. ⊥) }
{
    if find_record(conn, most)?.is_some() {
        return Ok(most + 1);
    }
    let mut low = 0;
    let mut high = most;
    'halves: while low < high {
        let middle = low + (high - low) / 2;
        if find_record(conn, middle)?.is_some() {
            low = middle + 1;
        } else {
            high = middle;
        }
    }
    Ok(low)
}
