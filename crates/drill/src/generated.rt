//! The generated mode set, as its file says it.

ghost use Rattle.std.specs.Prelude.{◌≡◌, ◌≤◌, ◌<◌, [], ◌∷◌, IfOk, codes};
ghost use Rattle.drill.specs.Generated.{below, drill_raw, lettered, raw_app, raw_message, raw_mode, raw_task, wcet_of};

use app_graph::{ListOf, Name, RawApp, RawMessage, RawMode, RawSet, RawTask};
use std::alloc::{AllocError, Global};
use ttw_text::Out;

/// How many nodes there are.
const NODES: u64 = 64;

/// How many modes there are.
pub(crate) const MODES: u32 = 8;

/// How many applications a mode has.
const APPS: u64 = 32;

/// The slots of a round.
const SLOTS: i64 = 4;

/// The length of a round, in ticks.
const ROUND: i64 = 10;

/// The greatest time from one round's start to the next one's, in ticks.
const GAP: i64 = 1000;

/// The period and the deadline of each application, in ticks.
const PERIOD: i64 = 1000;

/// The greatest wcet, in ticks.
const MOST_WCET: u64 = 9;

/// A name: a letter and a number.
fn lettered(alloc: Global, letter: &[u8], n: u64) -> Result<Name, AllocError>
    ensures { IfOk result (λ name. name ≡ lettered letter.now n) }
{
    let mut text = Out::make(alloc);
    text.put(letter)?;
    text.number(n)?;
    Name::copied(alloc, text.bytes())
}

/// The wcet of the task with a number.
fn wcet_of(seed: u64, number: u64) -> i64
    requires { (seed ≤ 1000000) × (number < 512) }
    ensures { result ≡ wcet_of seed number }
{
    1 + ((seed + number) % MOST_WCET) as i64
}

/// The task of application `i` with this letter, on this node, with this number.
fn task(
    alloc: Global,
    seed: u64,
    letter: &[u8],
    i: u64,
    node: u64,
    number: u64,
) -> Result<RawTask, AllocError>
    requires { (seed ≤ 1000000) × (number < 512) }
    ensures { IfOk result (λ task. task ≡ raw_task seed letter.now i node number) }
{
    Ok(RawTask {
        name: lettered(alloc, letter, i)?,
        node: lettered(alloc, b"n", node)?,
        wcet: wcet_of(seed, number),
        body: Name::copied(alloc, b"tally")?,
    })
}

/// The message of application `i`.
fn message(alloc: Global, i: u64) -> Result<RawMessage, AllocError>
    ensures { IfOk result (λ message. message ≡ raw_message i) }
{
    let sender = lettered(alloc, b"s", i)?;
    let receiver = lettered(alloc, b"c", i)?;
    Ok(RawMessage {
        name: lettered(alloc, b"x", i)?,
        from: ListOf::from_vec(vec![in alloc; sender]?),
        to: ListOf::from_vec(vec![in alloc; receiver]?),
        copies: 1,
    })
}

/// Application `i` of mode `m`.
fn app(alloc: Global, seed: u64, m: u64, i: u64) -> Result<RawApp, AllocError>
    requires { (seed ≤ 1000000) × (m < 8) × (i < 32) }
    ensures { IfOk result (λ app. app ≡ raw_app seed m i) }
{
    let number = 64 * m + 2 * i;
    let sender = task(alloc, seed, b"s", i, 2 * i, number)?;
    let receiver = task(alloc, seed, b"c", i, 2 * i + 1, number + 1)?;
    let message = message(alloc, i)?;
    Ok(RawApp {
        name: lettered(alloc, b"a", i)?,
        period: PERIOD,
        deadline: PERIOD,
        tasks: ListOf::from_vec(vec![in alloc; sender, receiver]?),
        messages: ListOf::from_vec(vec![in alloc; message]?),
    })
}

/// Mode `m`.
#[tactic(auto, using(crate::proofs::Below::below_none, crate::proofs::Below::below_more), unfolding(crate::specs::Generated::raw_mode))]
fn mode(alloc: Global, seed: u64, m: u64) -> Result<RawMode, AllocError>
    requires { (seed ≤ 1000000) × (m < 8) }
    ensures { IfOk result (λ mode. mode ≡ raw_mode seed m) }
{
    let mut apps = Vec::new(alloc);
    for i in 0..APPS {
        apps.push(app(alloc, seed, m, i)?)?;
    }
    Ok(RawMode {
        name: lettered(alloc, b"m", m)?,
        apps: ListOf::from_vec(apps),
    })
}

/// The names of the nodes.
#[tactic(auto, using(crate::proofs::Below::below_none, crate::proofs::Below::below_more))]
fn nodes(alloc: Global) -> Result<ListOf<Name>, AllocError>
    ensures { IfOk result (λ names. names ≡ below 64 (lettered (codes "n"))) }
{
    let mut names = Vec::new(alloc);
    for n in 0..NODES {
        names.push(lettered(alloc, b"n", n)?)?;
    }
    Ok(ListOf::from_vec(names))
}

/// The modes.
#[tactic(auto, using(crate::proofs::Below::below_none, crate::proofs::Below::below_more))]
fn modes(alloc: Global, seed: u64) -> Result<ListOf<RawMode>, AllocError>
    requires { seed ≤ 1000000 }
    ensures { IfOk result (λ modes. modes ≡ below 8 (raw_mode seed)) }
{
    let mut modes = Vec::new(alloc);
    for m in 0..MODES {
        modes.push(mode(alloc, seed, u64::from(m))?)?;
    }
    Ok(ListOf::from_vec(modes))
}

/// The file of the mode set that a seed gives: 8 modes of 32 applications, each with a task on one
/// node whose message goes to a task on the next node. The seed decides the wcets.
#[tactic(auto, unfolding(crate::specs::Generated::drill_raw))]
pub fn generate(alloc: Global, seed: u64) -> Result<RawSet, AllocError>
    requires { seed ≤ 1000000 }
    ensures { IfOk result (λ raw. raw ≡ drill_raw seed) }
{
    Ok(RawSet {
        slots: SLOTS,
        round: ROUND,
        gap: GAP,
        host: lettered(alloc, b"n", 0)?,
        nodes: nodes(alloc)?,
        modes: modes(alloc, seed)?,
    })
}
