//! The top call.

ghost use Rattle.std.specs.Prelude.{◌≡◌, ◌≤◌, ℕ, List, map, IfOk, IsErrOf};
ghost use Rattle.ttw_io.specs.Outside.{Rose, OfFile, Told};
ghost use Rattle.ttw_text.specs.Numbers.{number_of};
ghost use Rattle.file_answers.specs.Endings.{Ends};
ghost use Rattle.ttw_program.specs.Commands.{command, drill_of, guard_under, of_four, of_three, of_two, plan_within};
ghost use Rattle.ttw_program.specs.Due.{Due, OfCommand, IsUsage};
ghost use Rattle.ttw_program.specs.Replays.{IsReply};
ghost use Rattle.task_body.specs.Body.{BodySeen};

use crate::checking::answer_check;
use crate::drilling::answer_drill;
use crate::ending::finish_replay;
use crate::fault_lines::USAGE;
use crate::guarding::answer_guard;
use crate::planning::answer_plan;
use crate::replaying::{Reply, reply_replay};
use crate::tables::answer_tables;
use file_answers::{Answer, End, READ_FAULT, Status, finish};
use std::alloc::Global;
use task_body::TaskBody;
use ttw_io::{Files, Sink};
use ttw_text::{is_name, read_u64};

/// The greatest budget of a search.
const MOST_BUDGET: u64 = 100_000;

/// The greatest seed of a drill.
const MOST_SEED: u64 = 1_000_000;

/// The greatest drift of a clock, in millionths.
const MOST_PPM: u64 = 100_000;

/// The answer to words that are no command.
fn usage(alloc: Global) -> Result<Answer, End>
    ensures due { IfOk result (λ a. IsUsage a.status a.text) }
    ensures read { IsErrOf result End.Read → ⊥ }
{
    Ok(Answer::told(alloc, Status::Usage, USAGE)?)
}

/// The answer to `plan FILE BUDGET`.
fn plan_words<F: Files>(
    alloc: Global,
    file: &str,
    budget: &str,
    files: &mut F,
) -> Result<Answer, End>
    ensures due { (bodies : List BodySeen) → IfOk result (λ a.
        OfCommand (plan_within file.now (number_of budget.now)) (F.contents files.old) bodies
        a.status a.text) }
    ensures read { IsErrOf result End.Read → Rose (F.faults files.old) (F.faults files.new) }
    ensures counted { F.faults files.old ≤ F.faults files.new }
{
    match read_u64(budget.as_bytes()) {
        None => usage(alloc),
        Some(budget) => {
            if budget >= 1 && budget <= MOST_BUDGET {
                answer_plan(alloc, file, budget, files)
            } else {
                usage(alloc)
            }
        }
    }
}

/// The answer to `guard FILE PPM`.
fn guard_words<F: Files>(alloc: Global, file: &str, ppm: &str, files: &mut F) -> Result<Answer, End>
    ensures due { (bodies : List BodySeen) → IfOk result (λ a.
        OfCommand (guard_under file.now (number_of ppm.now)) (F.contents files.old) bodies
        a.status a.text) }
    ensures read { IsErrOf result End.Read → Rose (F.faults files.old) (F.faults files.new) }
    ensures counted { F.faults files.old ≤ F.faults files.new }
{
    match read_u64(ppm.as_bytes()) {
        None => usage(alloc),
        Some(ppm) => {
            if ppm >= 1 && ppm <= MOST_PPM {
                answer_guard(alloc, file, ppm as u32, files)
            } else {
                usage(alloc)
            }
        }
    }
}

/// The reply to words that are no command.
fn usage_reply(alloc: Global) -> Result<Reply, End>
    ensures due { (bodies : List BodySeen) → IfOk result (IsReply bodies IsUsage) }
    ensures read { IsErrOf result End.Read → ⊥ }
{
    Ok(Reply::Text(usage(alloc)?))
}

/// The reply to `drill SEED`, which fires the bodies.
fn drill_words(alloc: Global, seed: &str, bodies: &mut Vec<Box<dyn TaskBody>>) -> Result<Reply, End>
    ensures due { (told : List ℕ → Told) → IfOk result (IsReply (map seen bodies.new.items)
        (OfCommand (drill_of (number_of seed.now)) told (map seen bodies.old.items))) }
    ensures read { IsErrOf result End.Read → ⊥ }
{
    match read_u64(seed.as_bytes()) {
        None => usage_reply(alloc),
        Some(seed) => {
            if seed <= MOST_SEED {
                Ok(Reply::Text(answer_drill(alloc, seed, bodies)?))
            } else {
                usage_reply(alloc)
            }
        }
    }
}

/// The reply to two words.
fn two_words(
    alloc: Global,
    verb: &str,
    last: &str,
    bodies: &mut Vec<Box<dyn TaskBody>>,
) -> Result<Reply, End>
    ensures due { (told : List ℕ → Told) → IfOk result (IsReply (map seen bodies.new.items)
        (OfCommand (of_two verb.now last.now) told (map seen bodies.old.items))) }
    ensures read { IsErrOf result End.Read → ⊥ }
{
    if verb == "drill" {
        return drill_words(alloc, last, bodies);
    }
    usage_reply(alloc)
}

/// The reply to three words.
fn three_words<F: Files>(
    alloc: Global,
    verb: &str,
    file: &str,
    last: &str,
    files: &mut F,
) -> Result<Reply, End>
    ensures due { (bodies now : List BodySeen) → IfOk result (IsReply now
        (OfCommand (of_three verb.now file.now last.now) (F.contents files.old) bodies)) }
    ensures read { IsErrOf result End.Read → Rose (F.faults files.old) (F.faults files.new) }

    ensures counted { F.faults files.old ≤ F.faults files.new }
{
    if verb == "plan" {
        return Ok(Reply::Text(plan_words(alloc, file, last, files)?));
    }
    if verb == "check" {
        return Ok(Reply::Text(answer_check(alloc, file, last, files)?));
    }
    if verb == "guard" {
        return Ok(Reply::Text(guard_words(alloc, file, last, files)?));
    }
    usage_reply(alloc)
}

/// The reply to four words.
fn four_words<F: Files>(
    alloc: Global,
    verb: &str,
    file: &str,
    plan: &str,
    last: &str,
    files: &mut F,
    bodies: &Vec<Box<dyn TaskBody>>,
) -> Result<Reply, End>
    ensures due { IfOk result (IsReply (map seen bodies.now.items)
        (OfCommand (of_four verb.now file.now plan.now last.now) (F.contents files.old)
        (map seen bodies.now.items))) }
    ensures read { IsErrOf result End.Read → Rose (F.faults files.old) (F.faults files.new) }
    ensures counted { F.faults files.old ≤ F.faults files.new }
{
    if verb == "replay" {
        return reply_replay(alloc, file, plan, last, files, bodies);
    }
    if verb == "tables" && is_name(last.as_bytes()) {
        return Ok(Reply::Text(answer_tables(alloc, file, plan, last, files)?));
    }
    usage_reply(alloc)
}

/// The reply to the words.
fn reply_words<F: Files>(
    alloc: Global,
    words: &[&str],
    files: &mut F,
    bodies: &mut Vec<Box<dyn TaskBody>>,
) -> Result<Reply, End>
    ensures due { IfOk result (IsReply (map seen bodies.new.items)
        (Due (map (λ w. w.now) words.now) (F.contents files.old) (map seen bodies.old.items))) }
    ensures read { IsErrOf result End.Read → Rose (F.faults files.old) (F.faults files.new) }
    ensures counted { F.faults files.old ≤ F.faults files.new }
{
    match words {
        [] => usage_reply(alloc),
        [_] => usage_reply(alloc),
        [verb, last] => two_words(alloc, verb, last, bodies),
        [verb, file, last] => three_words(alloc, verb, file, last, files),
        [verb, file, plan, last] => four_words(alloc, verb, file, plan, last, files, bodies),
        [_, _, _, _, _, ..] => usage_reply(alloc),
    }
}

/// Does what the words say, writes its text or the line that tells why not, and gives the status.
/// `replay` and `drill` fire the bodies as they are at the call; they are dropped before it returns.
///
/// `docs/COMMANDS.md` lists the commands, their texts, the statuses and when each comes.
pub fn run<F: Files, S: Sink>(
    alloc: Global,
    words: &[&str],
    files: &mut F,
    out: &mut S,
    bodies: Vec<Box<dyn TaskBody>>,
) -> Status
    ensures end { Ends
        (Due (map (λ w. w.now) words.now) (F.contents files.old) (map seen bodies.items))
        (record { reads_before = F.faults files.old; reads_now = F.faults files.new; sink = record { faults_before = S.faults out.old; faults_now = S.faults out.new; flushes_before = S.flushes out.old; flushes_now = S.flushes out.new; unflushed = S.unflushed out.new } })
        (S.held out.old) (S.held out.new) result }
    ensures reads { F.faults files.old ≤ F.faults files.new }
    ensures writes { S.faults out.old ≤ S.faults out.new }
{
    let mut bodies = bodies;
    match reply_words(alloc, words, files, &mut bodies) {
        Ok(Reply::Text(answer)) => finish(out, answer.status, answer.text.bytes()),
        Ok(Reply::Trace(due)) => finish_replay(alloc, due, &mut bodies, out),
        Err(End::Read) => finish(out, Status::ReadFault, READ_FAULT.as_bytes()),
        Err(End::Memory) => Status::Memory,
    }
}
