//! The tables of a mode file: what each says, or the first broken rule of it and of the tables below.

ghost use Rattle.std.specs.Prelude.{◌≡◌, map};
ghost use Rattle.toml.specs.Data.{Members};
ghost use Rattle.toml.specs.View.{table_view, view};
ghost use Rattle.app_graph.specs.Rules.{Rule, each};
ghost use Rattle.mode_file.specs.declared.faults.FileFault.{FileFault};
ghost use Rattle.mode_file.specs.Tables.{tables_in, task_rules, raw_task, message_rules, raw_message, app_rules, raw_app, mode_rules, raw_mode, table_rules, raw_set};
ghost use Rattle.mode_file.specs.Walks.{Walks};

use crate::faults::FileFault;
use crate::unlisted::only;
use crate::values::{
    integer_of, integer_or_of, tables_of, tables_or_none_of, text_of, text_or_of, texts_of,
};
use app_graph::{Key, ListOf, Name, RawApp, RawMessage, RawMode, RawSet, RawTask};
use std::alloc::Global;
use toml::{Table, Value};

/// What a table of a mode file says.
pub(crate) trait FromTable: Drop {
    /// The rules of the table and of the tables below.
    ghost rules: { Members → Rule FileFault };

    /// What a table says that keeps them.
    ghost said: { Members → Self };

    /// What the table says, or the fault of the first broken rule.
    fn from_table(alloc: Global, table: &Table) -> Result<Self, FileFault>
        ensures { let members = table_view table.now in
            Walks (λ x. x) result (rules members) (said members) };
}

/// What each of the tables says, in their order.
fn from_tables<T: FromTable>(alloc: Global, values: &[Value]) -> Result<ListOf<T>, FileFault>
    ensures { let tables = tables_in (map view values.now) in
        Walks (λ ts. ts) result (each T.rules tables) (map T.said tables) }
{
    let mut all = Vec::new(alloc);
    for value in values {
        if let Some(table) = value.as_table() {
            all.push(T::from_table(alloc, table)?)?;
        }
    }
    Ok(ListOf::from_vec(all))
}

impl FromTable for RawTask {
    ghost rules = { task_rules };

    ghost said = { raw_task };

    fn from_table(alloc: Global, table: &Table) -> Result<Self, FileFault> {
        let name = text_of(table, Key::KName)?;
        let node = text_of(table, Key::KNode)?;
        let wcet = integer_of(table, Key::KWcet)?;
        let body = text_or_of(table, Key::KBody, "tally")?;
        only(
            alloc,
            table,
            &[Key::KName, Key::KNode, Key::KWcet, Key::KBody],
        )?;
        Ok(RawTask {
            name: Name::copied(alloc, name.as_bytes())?,
            node: Name::copied(alloc, node.as_bytes())?,
            wcet,
            body: Name::copied(alloc, body.as_bytes())?,
        })
    }
}

impl FromTable for RawMessage {
    ghost rules = { message_rules };

    ghost said = { raw_message };

    fn from_table(alloc: Global, table: &Table) -> Result<Self, FileFault> {
        let name = text_of(table, Key::KName)?;
        let from = texts_of(alloc, table, Key::KFrom)?;
        let to = texts_of(alloc, table, Key::KTo)?;
        let copies = integer_or_of(table, Key::KCopies, 1)?;
        only(
            alloc,
            table,
            &[Key::KName, Key::KFrom, Key::KTo, Key::KCopies],
        )?;
        Ok(RawMessage {
            name: Name::copied(alloc, name.as_bytes())?,
            from,
            to,
            copies,
        })
    }
}

impl FromTable for RawApp {
    ghost rules = { app_rules };

    ghost said = { raw_app };

    fn from_table(alloc: Global, table: &Table) -> Result<Self, FileFault> {
        let name = text_of(table, Key::KName)?;
        let period = integer_of(table, Key::KPeriod)?;
        let deadline = integer_of(table, Key::KDeadline)?;
        let tasks = tables_of(table, Key::KTask)?;
        let messages = tables_or_none_of(table, Key::KMessage)?;
        only(
            alloc,
            table,
            &[
                Key::KName,
                Key::KPeriod,
                Key::KDeadline,
                Key::KTask,
                Key::KMessage,
            ],
        )?;
        Ok(RawApp {
            name: Name::copied(alloc, name.as_bytes())?,
            period,
            deadline,
            tasks: from_tables(alloc, tasks)?,
            messages: from_tables(alloc, messages)?,
        })
    }
}

impl FromTable for RawMode {
    ghost rules = { mode_rules };

    ghost said = { raw_mode };

    fn from_table(alloc: Global, table: &Table) -> Result<Self, FileFault> {
        let name = text_of(table, Key::KName)?;
        let apps = tables_of(table, Key::KApp)?;
        only(alloc, table, &[Key::KName, Key::KApp])?;
        Ok(RawMode {
            name: Name::copied(alloc, name.as_bytes())?,
            apps: from_tables(alloc, apps)?,
        })
    }
}

impl FromTable for RawSet {
    ghost rules = { table_rules };

    ghost said = { raw_set };

    fn from_table(alloc: Global, table: &Table) -> Result<Self, FileFault> {
        let slots = integer_of(table, Key::KSlots)?;
        let round = integer_of(table, Key::KRound)?;
        let gap = integer_of(table, Key::KGap)?;
        let host = text_of(table, Key::KHost)?;
        let nodes = texts_of(alloc, table, Key::KNodes)?;
        let modes = tables_of(table, Key::KMode)?;
        only(
            alloc,
            table,
            &[
                Key::KSlots,
                Key::KRound,
                Key::KGap,
                Key::KHost,
                Key::KNodes,
                Key::KMode,
            ],
        )?;
        Ok(RawSet {
            slots,
            round,
            gap,
            host: Name::copied(alloc, host.as_bytes())?,
            nodes,
            modes: from_tables(alloc, modes)?,
        })
    }
}
