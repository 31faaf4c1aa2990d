// Whether the schema of a file is a store's.
ghost use Rattle.std.specs.Prelude.{◌≡◌, IsTrue, true, false, [], ◌∷◌};
ghost use Rattle.sqlite_value.specs.Keys.{plain};
ghost use Rattle.su_store.specs.Tables.{strict_column, record_table, block_table, block_index};
ghost use Rattle.su_store.specs.Tables.{no_schema, half_schema, store_schema};
ghost use Rattle.su_store.specs.Schemas.{HasNoRules, HasRecordKeys, HasBlockKeys, IsOverDigests};

use sqlite_items::Items;
use sqlite_schema::schema::{Column, Index, Kind, Schema, Table};
use sqlite_value::keys::{Collation, Order};
use sqlite_value::value::Value;

fn is_column(column: &Column, name: &[u8], kind: Kind, not_null: bool) -> bool
    ensures { IsTrue result → column.now ≡ strict_column name.now kind not_null }
{
    column.name.as_slice() == name
        && column.kind == kind
        && column.is_strict
        && column.not_null == not_null
        && matches!(column.default, Value::Null)
        && column.collation == Collation::Binary
}

fn has_no_stamps(table: &Table) -> bool
    ensures { IsTrue result → table.now.stamps ≡ record { places = []; terms = []; formats = [] } }
{
    table.stamps.places.is_empty()
        && table.stamps.terms.roots.is_empty()
        && table.stamps.formats.is_empty()
}

/// Whether the table has no checks, references, computed defaults or counter.
fn has_no_rules(table: &Table) -> bool
    ensures { IsTrue result → HasNoRules table.now }
{
    table.checks.roots.is_empty()
        && table.references.is_empty()
        && table.computed.is_empty()
        && has_no_stamps(table)
        && !table.is_counted
}

fn has_no_index(table: &Table) -> bool
    ensures uniques { IsTrue result → table.now.uniques ≡ [] }
    ensures orders { IsTrue result → table.now.orders ≡ [] }
{
    table.uniques.is_empty() && table.orders.is_empty()
}

fn is_one_place(places: &Items<usize>, place: usize) -> bool
    ensures { IsTrue result → places.now ≡ place ∷ [] }
{
    match places.as_slice() {
        [first] => *first == place,
        _ => false,
    }
}

fn is_named(table: &Table, name: &[u8], tree: u32) -> bool
    ensures name { IsTrue result → table.now.name ≡ name.now }
    ensures tree { IsTrue result → table.now.tree ≡ tree }
{
    table.name.as_slice() == name && table.tree == tree
}

fn has_record_keys(table: &Table) -> bool
    ensures { IsTrue result → HasRecordKeys table.now }
{
    is_named(table, b"record", 0)
        && table.key == Some(0)
        && is_one_place(&table.primary, 0)
        && has_no_index(table)
}

fn is_one_key(keys: &Items<Items<usize>>) -> bool
    ensures { IsTrue result → keys.now ≡ (1 ∷ []) ∷ [] }
{
    match keys.as_slice() {
        [key] => is_one_place(key, 1),
        _ => false,
    }
}

fn is_one_plain(orders: &Items<Order>) -> bool
    ensures { IsTrue result → orders.now ≡ plain ∷ [] }
{
    match orders.as_slice() {
        [order] => *order == Order::PLAIN,
        _ => false,
    }
}

fn has_block_keys(table: &Table) -> bool
    ensures { IsTrue result → HasBlockKeys table.now }
{
    is_named(table, b"block", 1)
        && table.key.is_none()
        && is_one_place(&table.primary, 1)
        && is_one_key(&table.uniques)
        && is_one_plain(&table.orders)
}

fn is_record_table(table: &Table) -> bool
    ensures { IsTrue result → table.now ≡ record_table }
{
    let [number, bytes] = table.columns.as_slice() else {
        return false;
    };
    is_column(number, b"number", Kind::Integer, false)
        && is_column(bytes, b"bytes", Kind::Blob, true)
        && has_record_keys(table)
        && has_no_rules(table)
}

fn is_block_table(table: &Table) -> bool
    ensures { IsTrue result → table.now ≡ block_table }
{
    let [digest, bytes] = table.columns.as_slice() else {
        return false;
    };
    is_column(digest, b"digest", Kind::Blob, true)
        && is_column(bytes, b"bytes", Kind::Blob, true)
        && has_block_keys(table)
        && has_no_rules(table)
}

/// Whether the index is over the first column of the second table, and refuses a second entry.
fn is_over_digests(index: &Index) -> bool
    ensures { IsTrue result → IsOverDigests index.now }
{
    index.tree == 2
        && index.table == 1
        && is_one_place(&index.columns, 1)
        && index.order == Order::PLAIN
        && index.is_unique
}

fn is_block_index(index: &Index) -> bool
    ensures { IsTrue result → index.now ≡ block_index }
{
    index.name.as_slice() == b"sqlite_autoindex_block_1".as_slice() && is_over_digests(index)
}

fn has_both_tables(schema: &Schema) -> bool
    ensures { IsTrue result → schema.now.tables ≡ record_table ∷ block_table ∷ [] }
{
    match schema.tables.as_slice() {
        [records, blocks] => is_record_table(records) && is_block_table(blocks),
        _ => false,
    }
}

fn has_block_index(schema: &Schema) -> bool
    ensures { IsTrue result → schema.now.indexes ≡ block_index ∷ [] }
{
    match schema.indexes.as_slice() {
        [index] => is_block_index(index),
        _ => false,
    }
}

/// Whether the two tables are there and nothing else.
pub(crate) fn is_store(schema: &Schema) -> bool
    ensures { IsTrue result → schema.now ≡ store_schema }
{
    has_both_tables(schema) && has_block_index(schema) && schema.views.is_empty()
}

/// Whether the table of records is there and nothing else.
pub(crate) fn is_half(schema: &Schema) -> bool
    ensures { IsTrue result → schema.now ≡ half_schema }
{
    let [records] = schema.tables.as_slice() else {
        return false;
    };
    is_record_table(records) && schema.indexes.is_empty() && schema.views.is_empty()
}

/// Whether there is no table at all.
pub(crate) fn is_new(schema: &Schema) -> bool
    ensures { IsTrue result → schema.now ≡ no_schema }
{
    schema.tables.is_empty() && schema.indexes.is_empty() && schema.views.is_empty()
}
