//! Whether a schema is the store's own.

ghost use Rattle.std.specs.Prelude.{◌≡◌, ◌∷◌, [], IsTrue, map, take, true};
ghost use Rattle.sqlite_value.specs.Keys.{plain};
ghost use Rattle.store_statements.specs.Schema.{column_of, table_of, key_index, the_schema, old_schema, the_tables};

use crate::editions::{is_edition, is_edition_index};
use crate::judgements::{is_judgements, is_judgements_index};
use crate::languages::{is_languages, is_languages_index};
use crate::members::{is_members, is_members_index};
use crate::outcomes::{is_outcomes, is_outcomes_index};
use crate::pages::{is_pages, is_pages_index};
use crate::sites::{is_sites, is_sites_index};
use sqlite_items::Items;
use sqlite_schema::code::Terms;
use sqlite_schema::schema::{Column, Index, Kind, Schema, Table};
use sqlite_value::keys::{Collation, Order};
use sqlite_value::value::Value;

fn is_column(column: &Column, name: &str, kind: Kind) -> bool
    ensures { IsTrue result → column.now ≡ column_of name.now kind }
{
    column.name.as_slice() == name.as_bytes()
        && column.kind == kind
        && column.is_strict
        && column.not_null
        && matches!(column.default, Value::Null)
        && column.collation == Collation::Binary
}

fn are_columns(columns: &[Column], wanted: &[(&str, Kind)]) -> bool
    ensures { IsTrue result → columns.now ≡ map (λ w. column_of w.0.now w.1) wanted.now }
{
    match (columns.split_first(), wanted.split_first()) {
        (None, None) => true,
        (Some((column, others)), Some((first, more))) => {
            is_column(column, first.0, first.1) && are_columns(others, more)
        }
        _ => false,
    }
}

fn has_none<T>(items: &Items<T>) -> bool
    ensures { IsTrue result → items.now ≡ [] }
{
    items.len() == 0
}

fn has_no_terms(terms: &Terms) -> bool
    ensures { IsTrue result → terms.now ≡ [] }
{
    terms.roots.len() == 0
}

fn are_places(places: &Items<usize>, key: &[usize]) -> bool
    ensures { IsTrue result → places.now ≡ key.now }
{
    places.as_slice() == key
}

fn is_one_key(keys: &[Items<usize>], key: &[usize]) -> bool
    ensures { IsTrue result → keys.now ≡ key.now ∷ [] }
{
    keys.len() == 1 && are_places(&keys[0], key)
}

fn is_plain(orders: &[Order]) -> bool
    ensures { IsTrue result → orders.now ≡ plain ∷ [] }
{
    orders.len() == 1 && orders[0] == Order::PLAIN
}

// Whether a table has nothing but these columns and this key.
pub(crate) fn is_table(
    table: &Table,
    name: &str,
    tree: u32,
    columns: &[(&str, Kind)],
    key: &[usize],
) -> bool
    ensures { IsTrue result → table.now ≡ table_of name.now tree (map (λ w. column_of w.0.now w.1) columns.now) key.now }
{
    table.name.as_slice() == name.as_bytes()
        && table.tree == tree
        && are_columns(table.columns.as_slice(), columns)
        && table.key.is_none()
        && table.primary.as_slice() == key
        && is_one_key(table.uniques.as_slice(), key)
        && is_plain(table.orders.as_slice())
        && has_no_terms(&table.checks)
        && has_none(&table.references)
        && has_none(&table.computed)
        && has_none(&table.stamps.places)
        && has_no_terms(&table.stamps.terms)
        && has_none(&table.stamps.formats)
        && !table.is_counted
}

fn has_six_tables(tables: &[Table]) -> bool
    ensures { IsTrue result → tables.now ≡ take 6 the_tables }
{
    tables.len() == 6
        && is_sites(&tables[0])
        && is_members(&tables[1])
        && is_pages(&tables[2])
        && is_judgements(&tables[3])
        && is_outcomes(&tables[4])
        && is_edition(&tables[5])
}

fn has_tables(tables: &[Table]) -> bool
    ensures { IsTrue result → tables.now ≡ the_tables }
{
    if tables.len() != 7 {
        return false;
    }
    let (six, last) = tables.split_at(6);
    has_six_tables(six) && is_languages(&last[0])
}

// Whether it is the index of a key, that SQLite makes itself.
pub(crate) fn is_index(index: &Index, name: &str, tree: u32, table: u32, key: &[usize]) -> bool
    ensures { IsTrue result → index.now ≡ record { name = name.now; tree = tree; table = table; columns = key.now; order = plain; is_unique = true } }
{
    index.name.as_slice() == name.as_bytes()
        && index.tree == tree
        && index.table == table
        && index.columns.as_slice() == key
        && index.order == Order::PLAIN
        && index.is_unique
}

fn has_six_indexes(indexes: &[Index]) -> bool
    ensures { IsTrue result → indexes.now ≡ map key_index (take 6 the_tables) }
{
    indexes.len() == 6
        && is_sites_index(&indexes[0])
        && is_members_index(&indexes[1])
        && is_pages_index(&indexes[2])
        && is_judgements_index(&indexes[3])
        && is_outcomes_index(&indexes[4])
        && is_edition_index(&indexes[5])
}

fn has_indexes(indexes: &[Index]) -> bool
    ensures { IsTrue result → indexes.now ≡ map key_index the_tables }
{
    if indexes.len() != 7 {
        return false;
    }
    let (six, last) = indexes.split_at(6);
    has_six_indexes(six) && is_languages_index(&last[0])
}

/// Whether a schema is that of a store: its seven tables with the indexes of their keys, and nothing else.
pub fn is_ours(schema: &Schema) -> bool
    ensures { IsTrue result → schema.now ≡ the_schema }
{
    has_tables(schema.tables.as_slice())
        && has_indexes(schema.indexes.as_slice())
        && schema.views.len() == 0
}

/// Whether a schema is that of a store that was made before languages were kept: the first six tables, and nothing else.
pub fn is_older(schema: &Schema) -> bool
    ensures { IsTrue result → schema.now ≡ old_schema }
{
    has_six_tables(schema.tables.as_slice())
        && has_six_indexes(schema.indexes.as_slice())
        && schema.views.len() == 0
}
