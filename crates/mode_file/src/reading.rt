//! Reading a mode file.

ghost use Rattle.std.specs.Prelude.{◌≡◌, IfOk};
ghost use Rattle.toml.specs.View.{table_view};
ghost use Rattle.mode_file.specs.Reading.{top_table, toml_rule, entering_rules, raw_of, IsReading};
ghost use Rattle.app_graph.specs.Validation.{KeepsRules};
ghost use Rattle.mode_file.specs.Walks.{Walks};

use crate::faults::FileFault;
use crate::tables::FromTable;
use app_graph::{ModeSet, RawSet, validate};
use std::alloc::Global;
use toml::Table;

/// The most bytes that a mode file may have.
const MOST_BYTES: usize = 1_048_576;

/// The top table of the text.
fn top_table_of(alloc: Global, text: &[u8]) -> Result<Table, FileFault>
    ensures { Walks table_view result (toml_rule text.now) (top_table text.now) }
{
    match std::str::from_utf8(text) {
        Err(_) => Err(FileFault::NotToml),
        Ok(text) => match toml::table_from_str(alloc, text) {
            Ok(table) => Ok(table),
            Err(error) => {
                if error.is_memory() {
                    Err(FileFault::Memory)
                } else {
                    Err(FileFault::NotToml)
                }
            }
        },
    }
}

/// What the tables of the text say, as it is written.
fn read_raw(alloc: Global, text: &[u8]) -> Result<RawSet, FileFault>
    ensures { Walks (λ raw. raw) result (entering_rules text.now) (raw_of text.now) }
{
    if text.len() > MOST_BYTES {
        return Err(FileFault::TooLong);
    }
    let table = top_table_of(alloc, text)?;
    RawSet::from_table(alloc, &table)
}

/// Reads a mode file: the mode set that it says, or the fault of the first rule that it breaks.
///
/// The rules come in this order: the file has at most 1,048,576 bytes; it is TOML; its tables,
/// each before those below it, have the keys that they need, of the right kinds, and no others;
/// and then the rules of [`validate`] on values and graphs.
pub fn read_modes(alloc: Global, text: &[u8]) -> Result<ModeSet, FileFault>
    ensures reading { IsReading text.now result }
    ensures keeps_rules { IfOk result KeepsRules }
{
    let raw = read_raw(alloc, text)?;
    Ok(validate(alloc, &raw)?)
}
