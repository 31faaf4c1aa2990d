// A record and the blocks that it needs, in one transaction.
ghost use Rattle.std.specs.Prelude.{◌≡◌, IsTrue, OnOk, IfOk, map};
ghost use Rattle.sha2.specs.Sha256.{sha256};
ghost use Rattle.sqlite.specs.State.{HasCleanDisk, Survives};
ghost use Rattle.sqlite.specs.Held.{state};
ghost use Rattle.su_store.specs.Tables.{store_schema};
ghost use Rattle.su_store.specs.Changes.{PutsRecord, PutsBlock, HoldsBlock, HoldsBlocks};
ghost use Rattle.su_store.specs.Changes.{MakesInside, HasRecords, Extends, Keeps, LeavesBlock};

use crate::lookups::is_held;
use sha2::Sha256;
use sqlite::{Alter, Connection, Error, Transaction, params};

/// Puts a record under the next number.
fn put_record<S: Alter>(
    tx: &mut Transaction<'_, S>,
    number: u32,
    bytes: &[u8],
) -> Result<usize, Error>
    requires schema { HasCleanDisk (state S.Store tx.old.conn.now)
        → (state S.Store tx.old.conn.now).now.schema ≡ store_schema }
    requires begun { HasCleanDisk (state S.Store tx.old.conn.now)
        → IsTrue (state S.Store tx.old.conn.now).in_transaction }
    ensures same_reference { tx.new.conn.ghost_name ≡ tx.old.conn.ghost_name }
    ensures put { HasCleanDisk (state S.Store tx.new.conn.now) → OnOk result
        (MakesInside (PutsRecord number bytes.now)
        (state S.Store tx.old.conn.now) (state S.Store tx.new.conn.now)) }
    ensures crash { Survives (state S.Store tx.old.conn.now) (state S.Store tx.new.conn.now)
        (λ _. ⊥) }
{
    tx.execute(
        "INSERT INTO record (number, bytes) VALUES (?1, ?2)",
        params![number, bytes],
    )
}

/// Puts a block under its digest, which no other may have.
fn put_block<S: Alter>(
    tx: &mut Transaction<'_, S>,
    digest: &[u8],
    bytes: &[u8],
) -> Result<usize, Error>
    requires schema { HasCleanDisk (state S.Store tx.old.conn.now)
        → (state S.Store tx.old.conn.now).now.schema ≡ store_schema }
    requires begun { HasCleanDisk (state S.Store tx.old.conn.now)
        → IsTrue (state S.Store tx.old.conn.now).in_transaction }
    requires digest { digest.now ≡ sha256 bytes.now }
    ensures same_reference { tx.new.conn.ghost_name ≡ tx.old.conn.ghost_name }
    ensures put { HasCleanDisk (state S.Store tx.new.conn.now) → OnOk result
        (MakesInside (PutsBlock bytes.now)
        (state S.Store tx.old.conn.now) (state S.Store tx.new.conn.now)) }
    ensures crash { Survives (state S.Store tx.old.conn.now) (state S.Store tx.new.conn.now)
        (λ _. ⊥) }
{
    tx.execute(
        "INSERT INTO block (digest, bytes) VALUES (?1, ?2)",
        params![digest, bytes],
    )
}

/// Holds a block under its digest. Where one is held there, that one stays.
fn hold_block<S: Alter>(tx: &mut Transaction<'_, S>, bytes: &[u8]) -> Result<(), Error>
    requires schema { HasCleanDisk (state S.Store tx.old.conn.now)
        → (state S.Store tx.old.conn.now).now.schema ≡ store_schema }
    requires begun { HasCleanDisk (state S.Store tx.old.conn.now)
        → IsTrue (state S.Store tx.old.conn.now).in_transaction }
    ensures same_reference { tx.new.conn.ghost_name ≡ tx.old.conn.ghost_name }
    ensures held { HasCleanDisk (state S.Store tx.new.conn.now) → OnOk result
        (MakesInside (HoldsBlock bytes.now)
        (state S.Store tx.old.conn.now) (state S.Store tx.new.conn.now)) }
    ensures was_open { HasCleanDisk (state S.Store tx.new.conn.now)
        → OnOk result (IsTrue (state S.Store tx.old.conn.now).is_open) }
    ensures crash { Survives (state S.Store tx.old.conn.now) (state S.Store tx.new.conn.now)
        (λ _. ⊥) }
{
    let digest = <Sha256 as sha2::Digest>::digest(bytes);
    if !is_held(tx, &digest)? {
        put_block(tx, &digest, bytes)?;
    }
    Ok(())
}

/// Holds each of the blocks under its digest.
fn hold_blocks<S: Alter>(tx: &mut Transaction<'_, S>, blocks: &[Vec<u8>]) -> Result<(), Error>
    requires schema { HasCleanDisk (state S.Store tx.old.conn.now)
        → (state S.Store tx.old.conn.now).now.schema ≡ store_schema }
    requires begun { HasCleanDisk (state S.Store tx.old.conn.now)
        → IsTrue (state S.Store tx.old.conn.now).in_transaction }
    ensures same_reference { tx.new.conn.ghost_name ≡ tx.old.conn.ghost_name }
    ensures held { HasCleanDisk (state S.Store tx.new.conn.now) → OnOk result
        (MakesInside (HoldsBlocks (map (λ b. b.items) blocks.now))
        (state S.Store tx.old.conn.now) (state S.Store tx.new.conn.now)) }
    ensures crash { Survives (state S.Store tx.old.conn.now) (state S.Store tx.new.conn.now)
        (λ _. ⊥) }
{
    for block in blocks {
        hold_block(tx, block.as_slice())?;
    }
    Ok(())
}

/// Keeps one more record and the blocks that it needs, all or nothing. `number` is that of the
/// record: how many there are. At `Ok` they are on the disk. `false` where a transaction is open.
pub(crate) fn append<S: Alter>(
    conn: &mut Connection<S>,
    number: u32,
    bytes: &[u8],
    blocks: &[Vec<u8>],
) -> Result<bool, Error>
    requires schema { HasCleanDisk (state S.Store conn.old)
        → (state S.Store conn.old).now.schema ≡ store_schema }
    requires numbered { HasCleanDisk (state S.Store conn.old)
        → HasRecords number (state S.Store conn.old).now.trees }
    ensures kept { HasCleanDisk (state S.Store conn.new) → IfOk result (λ done. IsTrue done →
        Keeps (Extends bytes.now (map (λ b. b.items) blocks.now))
        (state S.Store conn.old) (state S.Store conn.new)) }

    // A crash at any moment of the call leaves what it could leave before, or all of this.
    ensures crash { Survives (state S.Store conn.old) (state S.Store conn.new)
        (Extends bytes.now (map (λ b. b.items) blocks.now) (state S.Store conn.old).now.trees) }
{
    if !conn.is_autocommit() {
        return Ok(false);
    }
    let mut tx = conn.transaction();
    hold_blocks(&mut tx, blocks)?;
    put_record(&mut tx, number, bytes)?;
    tx.commit()?;
    Ok(true)
}

/// Keeps a block under its digest, which no record comes with. Where one is held there, that one
/// stays. At `Ok` it is on the disk. `false` where a transaction is open.
pub(crate) fn keep_block<S: Alter>(conn: &mut Connection<S>, block: &[u8]) -> Result<bool, Error>
    requires { HasCleanDisk (state S.Store conn.old)
        → (state S.Store conn.old).now.schema ≡ store_schema }
    ensures kept { HasCleanDisk (state S.Store conn.new) → IfOk result (λ done. IsTrue done →
        Keeps (HoldsBlock block.now) (state S.Store conn.old) (state S.Store conn.new)) }

    // A crash at any moment of the call leaves what it could leave before, or all of this.
    ensures crash { Survives (state S.Store conn.old) (state S.Store conn.new)
        (LeavesBlock block.now (state S.Store conn.old)) }
{
    if !conn.is_autocommit() {
        return Ok(false);
    }
    let mut tx = conn.transaction();
    hold_block(&mut tx, block)?;
    tx.commit()?;
    Ok(true)
}
