//! The keys that a table may not have.

ghost use Rattle.std.specs.Prelude.{◌≡◌, option_map};
ghost use Rattle.toml.specs.View.{table_view};
ghost use Rattle.mode_file.specs.Tables;
ghost use Rattle.mode_file.specs.Walks.{Walks};

use crate::faults::{FileFault, KeyText};
use app_graph::Key;
use std::alloc::Global;
use toml::Table;

fn is_listed(listed: &[Key], key: &str) -> bool
    ensures { result ≡ Tables.is_listed listed.now key.now }
{
    listed.iter().any(|k| k.text() == key)
}

fn lesser<'a>(least: Option<&'a str>, key: &'a str) -> Option<&'a str>
    ensures { option_map (λ k. k.now) result
        ≡ Tables.lesser (option_map (λ k. k.now) least.entry) key.now }
{
    match least {
        None => Some(key),
        Some(other) => if key < other { Some(key) } else { Some(other) },
    }
}

/// The least key, by its bytes, that is not listed.
fn least_unlisted<'a>(table: &'a Table, listed: &[Key]) -> Option<&'a str>
    ensures { option_map (λ k. k.now) result
        ≡ Tables.least_unlisted listed.now (Tables.keys (table_view table.now)) }
{
    let mut least = None;
    for (key, _) in table {
        if !is_listed(listed, key.as_str()) {
            least = lesser(least, key.as_str());
        }
    }
    least
}

/// Refuses a table that has other keys than those listed.
pub(crate) fn only(alloc: Global, table: &Table, listed: &[Key]) -> Result<(), FileFault>
    ensures { Walks (λ u. tt {0}) result
        (Tables.has_only (table_view table.now) listed.now) (tt {0}) }
{
    match least_unlisted(table, listed) {
        None => Ok(()),
        Some(key) => match KeyText::of(alloc, key) {
            Ok(text) => Err(FileFault::UnknownKey(text)),
            Err(_) => Err(FileFault::Memory),
        },
    }
}
