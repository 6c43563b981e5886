//! The values under the keys of a table, each of the kind that it is to have.

ghost use Rattle.std.specs.Prelude.{◌≡◌, None, Some, map, option_map, is_some};
ghost use Rattle.std.specs.List.{list_all};
ghost use Rattle.toml.specs.Data.{get_member, as_integer, as_str, as_table};
ghost use Rattle.toml.specs.View.{table_view, view};
ghost use Rattle.app_graph.specs.Words.{word};
ghost use Rattle.mode_file.specs.Tables;
ghost use Rattle.mode_file.specs.Tables.{Integer, Text, TextArray, TableArray, is_of, has, needs, may_have, text_at, text_or, integer_at, integer_or, texts_at, tables_at, array_items};
ghost use Rattle.mode_file.specs.Walks.{Walks};

use crate::faults::FileFault;
use app_graph::{Key, ListOf, Name};
use std::alloc::Global;
use toml::{Table, Value};

fn value_at<'a>(table: &'a Table, key: Key) -> Option<&'a Value>
    ensures { option_map (λ v. view v.now) result
        ≡ get_member (word key) (table_view table.now) }
{
    table.get(key.text())
}

/// The value that has to stand under the key.
fn required<'a>(table: &'a Table, key: Key) -> Result<&'a Value, FileFault>
    ensures { Walks (λ v. Some (view v.now)) result
        (has (table_view table.now) key) (get_member (word key) (table_view table.now)) }
{
    match value_at(table, key) {
        None => Err(FileFault::Missing(key)),
        Some(value) => Ok(value),
    }
}

fn text_in<'a>(value: &'a Value, key: Key) -> Result<&'a str, FileFault>
    ensures { Walks (λ s. Some s.now) result
        (is_of Text key (view value.now)) (as_str (view value.now)) }
{
    match value.as_str() {
        None => Err(FileFault::WrongKind(key)),
        Some(text) => Ok(text),
    }
}

/// The text that has to stand under the key.
pub(crate) fn text_of<'a>(table: &'a Table, key: Key) -> Result<&'a str, FileFault>
    ensures { Walks (λ s. s.now) result
        (needs (table_view table.now) key Text) (text_at (table_view table.now) key) }
{
    text_in(required(table, key)?, key)
}

/// The text that may stand under the key, or else the other one.
pub(crate) fn text_or_of<'a>(
    table: &'a Table,
    key: Key,
    other: &'static str,
) -> Result<&'a str, FileFault>
    ensures { Walks (λ s. s.now) result
        (may_have (table_view table.now) key Text) (text_or other.now (table_view table.now) key) }
{
    match value_at(table, key) {
        None => Ok(other),
        Some(value) => text_in(value, key),
    }
}

fn integer_in(value: &Value, key: Key) -> Result<i64, FileFault>
    ensures { Walks (λ z. Some z) result
        (is_of Integer key (view value.now)) (as_integer (view value.now)) }
{
    match value.as_integer() {
        None => Err(FileFault::WrongKind(key)),
        Some(z) => Ok(z),
    }
}

/// The integer that has to stand under the key.
pub(crate) fn integer_of(table: &Table, key: Key) -> Result<i64, FileFault>
    ensures { Walks (λ z. z) result
        (needs (table_view table.now) key Integer) (integer_at (table_view table.now) key) }
{
    integer_in(required(table, key)?, key)
}

/// The integer that may stand under the key, or else the other one.
pub(crate) fn integer_or_of(table: &Table, key: Key, other: i64) -> Result<i64, FileFault>
    ensures { Walks (λ z. z) result
        (may_have (table_view table.now) key Integer)
        (integer_or other (table_view table.now) key) }
{
    match value_at(table, key) {
        None => Ok(other),
        Some(value) => integer_in(value, key),
    }
}

fn are_texts(values: &[Value]) -> bool
    ensures { result ≡ list_all (λ v. is_some (as_str (view v))) values.now }
{
    values.iter().all(|v| v.is_str())
}

fn are_tables(values: &[Value]) -> bool
    ensures { result ≡ list_all (λ v. is_some (as_table (view v))) values.now }
{
    values.iter().all(|v| v.is_table())
}

/// The texts among the values.
fn texts_among(alloc: Global, values: &[Value]) -> Result<ListOf<Name>, FileFault>
    ensures { Walks (λ n. n) result None (Tables.texts_in (map view values.now)) }
{
    let mut names = Vec::new(alloc);
    for value in values {
        if let Some(text) = value.as_str() {
            names.push(Name::copied(alloc, text.as_bytes())?)?;
        }
    }
    Ok(ListOf::from_vec(names))
}

fn texts_in(alloc: Global, value: &Value, key: Key) -> Result<ListOf<Name>, FileFault>
    ensures { Walks (λ n. n) result
        (is_of TextArray key (view value.now)) (Tables.texts_in (array_items (view value.now))) }
{
    match value.as_array() {
        None => Err(FileFault::WrongKind(key)),
        Some(values) => {
            if are_texts(values) {
                texts_among(alloc, values)
            } else {
                Err(FileFault::WrongKind(key))
            }
        }
    }
}

/// The texts of the array that has to stand under the key.
pub(crate) fn texts_of(alloc: Global, table: &Table, key: Key) -> Result<ListOf<Name>, FileFault>
    ensures { Walks (λ n. n) result
        (needs (table_view table.now) key TextArray) (texts_at (table_view table.now) key) }
{
    texts_in(alloc, required(table, key)?, key)
}

fn tables_in<'a>(value: &'a Value, key: Key) -> Result<&'a [Value], FileFault>
    ensures { Walks (λ vs. Tables.tables_in (map view vs.now)) result
        (is_of TableArray key (view value.now)) (Tables.tables_in (array_items (view value.now))) }
{
    match value.as_array() {
        None => Err(FileFault::WrongKind(key)),
        Some(values) => {
            if are_tables(values) {
                Ok(values.as_slice())
            } else {
                Err(FileFault::WrongKind(key))
            }
        }
    }
}

/// The values of the array of tables that has to stand under the key.
pub(crate) fn tables_of<'a>(table: &'a Table, key: Key) -> Result<&'a [Value], FileFault>
    ensures { Walks (λ vs. Tables.tables_in (map view vs.now)) result
        (needs (table_view table.now) key TableArray) (tables_at (table_view table.now) key) }
{
    tables_in(required(table, key)?, key)
}

/// The values of the array of tables that may stand under the key, or else none.
pub(crate) fn tables_or_none_of<'a>(table: &'a Table, key: Key) -> Result<&'a [Value], FileFault>
    ensures { Walks (λ vs. Tables.tables_in (map view vs.now)) result
        (may_have (table_view table.now) key TableArray) (tables_at (table_view table.now) key) }
{
    match value_at(table, key) {
        None => Ok(&[]),
        Some(value) => tables_in(value, key),
    }
}
