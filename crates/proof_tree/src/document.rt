//! The text of trees, schedules and plans.

ghost use Rattle.std.specs.Prelude.{◌≡◌, ◌∷◌, [], ◌++◌, List, ℕ, map, OnOk, OnErr, take, drop, ◌≤◌, ◌<◌, ◌+◌, length};
ghost use Rattle.std.specs.List.{flat_map, zip, enumerate_from};
ghost use Rattle.proof_tree.specs.Items.{line_of, text_of};
ghost use Rattle.proof_tree.specs.Names.{tasks_in, messages_in};
ghost use Rattle.proof_tree.specs.PlanText.{stored_item, tree_items, task_item, message_item, table_item, schedule_items, refuted_items, answer_items, part_items, plan_text};
ghost use Rattle.sched_model.specs.PlainMode.{mode_at};
ghost use Rattle.proof_tree.specs.Written.{StoppedWithin};

use crate::tree::{ModePart, Tree};
use crate::words::{Word, Words, write_line};
use app_graph::{App, ListOf, Mode, ModeSet};
use sched_model::{Schedule, TreeNode};
use std::alloc::AllocError;
use tick_num::Time;
use ttw_text::Out;

/// The part of the numbers that begins at `from` and has `len` numbers, as far as they go.
fn part_of(refs: &[u32], from: usize, len: usize) -> &[u32]
    ensures { result.now ≡ take len (drop from refs.now) }
{
    let rest = &refs[from.min(refs.len())..];
    &rest[..len.min(rest.len())]
}

/// Adds the line of a node.
fn write_node(node: &TreeNode, refs: &[u32], out: &mut Out) -> Result<(), AllocError>
    ensures ok { OnOk result (out.new ≡ out.old ++ line_of (stored_item refs.now node.now)) }
    ensures err { OnErr result
        (StoppedWithin out.old out.new (line_of (stored_item refs.now node.now))) }
{
    match node {
        TreeNode::Branch => write_line("branch", Words::Given(&[]), out),
        TreeNode::Short => write_line("short", Words::Given(&[]), out),
        TreeNode::Full(round) => write_line("full", Words::Given(&[Word::Number(*round)]), out),
        TreeNode::Cycle { from, len } => {
            write_line("cycle", Words::Numbers(part_of(refs, *from, *len)), out)
        }
    }
}

/// Adds the lines of a tree, one for each node.
pub fn write_tree(tree: &Tree, out: &mut Out) -> Result<(), AllocError>
    ensures ok { OnOk result (out.new ≡ out.old ++ text_of (tree_items tree.now)) }
    ensures err { OnErr result (StoppedWithin out.old out.new (text_of (tree_items tree.now))) }
{
    for node in tree.nodes.as_slice() {
        write_node(node, tree.refs.as_slice(), out)?;
    }
    Ok(())
}

/// Adds the lines of tasks, each with the offset of its first run.
fn write_tasks(apps: &[App], offsets: &[Time], out: &mut Out) -> Result<(), AllocError>
    ensures ok { OnOk result
        (out.new ≡ out.old ++ text_of (map task_item (zip (tasks_in apps.now) offsets.now))) }
    ensures err { OnErr result
        (StoppedWithin out.old out.new
        (text_of (map task_item (zip (tasks_in apps.now) offsets.now)))) }
{
    for (task, offset) in apps
        .iter()
        .flat_map(|app| app.tasks.as_slice())
        .zip(offsets)
    {
        let words = [
            Word::Text(task.name.as_bytes()),
            Word::Number(offset.unsigned_abs()),
        ];
        write_line("task", Words::Given(&words), out)?;
    }
    Ok(())
}

/// Adds the lines of messages, each with where its first window opens and closes.
fn write_messages(apps: &[App], windows: &[(Time, Time)], out: &mut Out) -> Result<(), AllocError>
    ensures ok { OnOk result
        (out.new ≡ out.old ++ text_of (map message_item (zip (messages_in apps.now) windows.now))) }
    ensures err { OnErr result
        (StoppedWithin out.old out.new
        (text_of (map message_item (zip (messages_in apps.now) windows.now)))) }
{
    for (message, window) in apps
        .iter()
        .flat_map(|app| app.messages.as_slice())
        .zip(windows)
    {
        let opens = Word::Number(window.0.unsigned_abs());
        let closes = Word::Number(window.1.unsigned_abs());
        let words = [Word::Text(message.name.as_bytes()), opens, closes];
        write_line("message", Words::Given(&words), out)?;
    }
    Ok(())
}

/// Adds the lines of tables, from round 1 on, each with the names of its messages.
fn write_tables(apps: &[App], tables: &[ListOf<u32>], out: &mut Out) -> Result<(), AllocError>
    ensures ok { OnOk result
        (out.new ≡ out.old
        ++ text_of (map (table_item (messages_in apps.now)) (enumerate_from 1 tables.now))) }
    ensures err { OnErr result
        (StoppedWithin out.old out.new
        (text_of (map (table_item (messages_in apps.now)) (enumerate_from 1 tables.now)))) }
{
    for (at, table) in tables.iter().enumerate() {
        let round = at as u64 + 1;
        let numbers = table.as_slice();
        write_line(
            "table",
            Words::Table {
                round,
                numbers,
                apps,
            },
            out,
        )?;
    }
    Ok(())
}

/// Adds the lines of a schedule of this mode.
fn write_schedule_of(mode: &Mode, s: &Schedule, out: &mut Out) -> Result<(), AllocError>
    ensures ok { OnOk result (out.new ≡ out.old ++ text_of (schedule_items mode.now s.now)) }
    ensures err { OnErr result
        (StoppedWithin out.old out.new (text_of (schedule_items mode.now s.now))) }
{
    let apps = mode.apps.as_slice();
    let starts = s.starts.as_slice();
    write_line(
        "schedule",
        Words::Given(&[Word::Number(starts.len() as u64)]),
        out,
    )?;
    write_line("start", Words::Times(starts), out)?;
    write_tasks(apps, s.tasks.as_slice(), out)?;
    write_messages(apps, s.messages.as_slice(), out)?;
    write_tables(apps, s.tables.as_slice(), out)
}

/// Adds the lines of a schedule of the mode of this number: its rounds and their starts, its tasks
/// and messages with their times,
/// and the names of each round's messages. After an `Err` a front of these lines was added, here
/// and in the calls below.
pub fn write_schedule(
    set: &ModeSet,
    mode: u32,
    s: &Schedule,
    out: &mut Out,
) -> Result<(), AllocError>
    requires { mode < length set.now.modes }
    ensures ok { OnOk result
        (out.new ≡ out.old ++ text_of (schedule_items (mode_at set.now mode) s.now)) }
    ensures err { OnErr result
        (StoppedWithin out.old out.new (text_of (schedule_items (mode_at set.now mode) s.now))) }
{
    write_schedule_of(&set.modes.as_slice()[mode as usize], s, out)
}

/// Adds the lines of a tree and the line before them, which has the number of rounds that it is
/// for.
fn write_refuted(rounds: u64, tree: &Tree, out: &mut Out) -> Result<(), AllocError>
    ensures ok { OnOk result (out.new ≡ out.old ++ text_of (refuted_items (rounds, tree.now))) }
    ensures err { OnErr result
        (StoppedWithin out.old out.new (text_of (refuted_items (rounds, tree.now)))) }
{
    write_line("refute", Words::Given(&[Word::Number(rounds)]), out)?;
    write_tree(tree, out)
}

/// Adds the lines of trees for 1 round, 2 rounds and so on.
fn write_trees(trees: &[Tree], out: &mut Out) -> Result<(), AllocError>
    ensures ok { OnOk result
        (out.new ≡ out.old ++ flat_map text_of (map refuted_items (enumerate_from 1 trees.now))) }
    ensures err { OnErr result
        (StoppedWithin out.old out.new
        (flat_map text_of (map refuted_items (enumerate_from 1 trees.now)))) }
{
    for (at, tree) in trees.iter().enumerate() {
        write_refuted(at as u64 + 1, tree, out)?;
    }
    Ok(())
}

/// Adds the lines of a mode's schedule, or the line that it has none.
fn write_answer(mode: &Mode, schedule: &Option<Schedule>, out: &mut Out) -> Result<(), AllocError>
    ensures ok { OnOk result (out.new ≡ out.old ++ text_of (answer_items mode.now schedule.now)) }
    ensures err { OnErr result
        (StoppedWithin out.old out.new (text_of (answer_items mode.now schedule.now))) }
{
    match schedule {
        Some(s) => write_schedule_of(mode, s, out),
        None => write_line("none", Words::Given(&[]), out),
    }
}

/// Adds the lines of a mode and its part.
fn write_part(mode: &Mode, part: &ModePart, out: &mut Out) -> Result<(), AllocError>
    ensures ok { OnOk result (out.new ≡ out.old ++ text_of (part_items (mode.now, part.now))) }
    ensures err { OnErr result
        (StoppedWithin out.old out.new (text_of (part_items (mode.now, part.now)))) }
{
    write_line(
        "mode",
        Words::Given(&[Word::Text(mode.name.as_bytes())]),
        out,
    )?;
    write_trees(part.refuted.as_slice(), out)?;
    write_answer(mode, &part.schedule, out)
}

/// Adds the lines of modes, each with its part.
fn write_parts(modes: &[Mode], parts: &[ModePart], out: &mut Out) -> Result<(), AllocError>
    ensures ok { OnOk result
        (out.new ≡ out.old ++ flat_map text_of (map part_items (zip modes.now parts.now))) }
    ensures err { OnErr result
        (StoppedWithin out.old out.new
        (flat_map text_of (map part_items (zip modes.now parts.now)))) }
{
    for (mode, part) in modes.iter().zip(parts) {
        write_part(mode, part, out)?;
    }
    Ok(())
}

/// Adds the document of the parts of the set's modes, which stand in file order.
pub fn write_plan(set: &ModeSet, parts: &[ModePart], out: &mut Out) -> Result<(), AllocError>
    requires { length parts.now ≡ length set.now.modes }
    ensures ok { OnOk result (out.new ≡ out.old ++ plan_text set.now parts.now) }
    ensures err { OnErr result (StoppedWithin out.old out.new (plan_text set.now parts.now)) }
{
    write_line("ttw", Words::Given(&[Word::Text(b"1")]), out)?;
    write_parts(set.modes.as_slice(), parts, out)?;
    write_line("end", Words::Given(&[]), out)
}
