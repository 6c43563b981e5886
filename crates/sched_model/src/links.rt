//! The graph of a mode as sets of tasks. No call takes memory.

ghost use Rattle.std.specs.Prelude.{◌≡◌, ℕ, ◌<◌, ◌≤◌, All, bit_and, length, map, nat_eq, not};
ghost use Rattle.std.specs.List.{list_any};
ghost use Rattle.app_graph.specs.Validation.{KeepsRules};
ghost use Rattle.sched_model.specs.PlainMode.{PlainMode, message_at, plain_at};
ghost use Rattle.sched_model.specs.Rows.{place_in, tasks_in};
ghost use Rattle.sched_model.specs.TaskGraph.{first, last, reaches};
ghost use Rattle.sched_model.specs.Links.{back_from, graph_of, in_set, link_of, set_of, sources_in, sources_of};

use crate::rows::{apps_of, find_message, message_count, place_of, task_count};
use app_graph::{App, ModeSet};
use std::marker::Model;

/// The producers and the consumers of a message, one bit for each task of the mode.
#[derive(Clone, Copy, Drop)]
pub(crate) struct Link {
    pub(crate) from: u128,
    pub(crate) to: u128,
}

/// Tasks of a mode, by their places.
#[derive(Clone, Copy, Drop)]
pub struct TaskSet {
    /// One bit for each task.
    bits: u128,
}

/// The graph of a mode's tasks: an edge leads from each producer of a message to each of its consumers.
/// Tasks go by their places in the mode, from 0 in file order.
#[derive(Drop)]
pub struct TaskGraph {
    /// How many tasks there are.
    tasks: usize,
    /// How many messages there are.
    messages: usize,
    /// The link of each message.
    links: [Link; 64],
}

impl Model for TaskGraph {
    ghost use Rattle.std.specs.Prelude.{◌≤◌, take};
    ghost use Rattle.sched_model.specs.Links.{TaskLinks};

    ghost Value = { TaskLinks };

    ghost view = { λ g. record { tasks = g.tasks; links = take g.messages g.links } };

    ghost invariant = { λ g. (g.tasks ≤ 128) × (g.messages ≤ 64) };
}

/// Whether the place is in the set.
pub(crate) fn holds(set: u128, place: usize) -> bool
    requires { place < 128 }
    ensures { result ≡ in_set set place }
{
    set & (1u128 << place) != 0
}

/// The tasks with the numbers.
fn mask(apps: &[App], numbers: &[u32]) -> u128
    requires few { length (tasks_in apps.now) ≤ 128 }
    requires known { All (λ n. place_in (tasks_in apps.now) n < length (tasks_in apps.now)) numbers.now }
    ensures { result ≡ set_of (length (tasks_in apps.now)) (map (place_in (tasks_in apps.now)) numbers.now) }
{
    let mut mask = 0;
    for number in numbers {
        mask |= 1u128 << place_of(apps, *number);
    }
    mask
}

/// The link of the message at the place.
fn link_at(set: &ModeSet, mode: u32, place: usize) -> Link
    requires rules { KeepsRules set.now }
    requires mode { mode < length set.now.modes }
    requires place { place < length (plain_at set.now mode).messages }
    ensures { result ≡ link_of (length (plain_at set.now mode).tasks) (message_at (plain_at set.now mode) place) }
{
    let apps = apps_of(set, mode);
    let (_, message) = find_message(apps, place);
    Link {
        from: mask(apps, message.from.as_slice()),
        to: mask(apps, message.to.as_slice()),
    }
}

/// The set `own` with the tasks from which an edge leads to one that is marked.
fn back(links: &[Link], marked: u128, own: u128) -> u128
    ensures { result ≡ back_from links.now marked own }
{
    let mut next = own;
    for link in links {
        if link.to & marked != 0 {
            next |= link.from;
        }
    }
    next
}

/// The tasks that reach the one at the place, among so many tasks.
fn sources(links: &[Link], count: usize, target: usize) -> u128
    requires count { count ≤ 128 }
    requires target { target < count }
    ensures { (m : PlainMode) → length m.tasks ≡ count → links.now ≡ map (link_of count) m.messages → result ≡ sources_in m target }
{
    let own = 1u128 << target;
    let mut marked = own;
    for _edge in 0..count {
        marked = back(links, marked, own);
    }
    marked
}

/// Whether the sets have a task in common.
fn meet(first: u128, second: u128) -> bool
    ensures { result ≡ not (nat_eq (bit_and first second) 0) }
{
    first & second != 0
}

/// Whether some message goes to a task of the set.
fn some_goes_to(links: &[Link], own: u128) -> bool
    ensures { result ≡ list_any (λ l. not (nat_eq (bit_and l.to own) 0)) links.now }
{
    links.iter().any(|link| meet(link.to, own))
}

/// Whether some message comes from a task of the set.
fn some_comes_from(links: &[Link], own: u128) -> bool
    ensures { result ≡ list_any (λ l. not (nat_eq (bit_and l.from own) 0)) links.now }
{
    links.iter().any(|link| meet(link.from, own))
}

impl TaskSet {
    /// Whether the set has the task at the place, which is below 128. Of the sources of a task these are the tasks that reach it.
    pub fn has(self, place: usize) -> bool
        requires { place < 128 }
        ensures bit { result ≡ in_set self.bits place }
        ensures source { (m : PlainMode) (target : ℕ) → length m.tasks ≤ 128 → place < length m.tasks → self ≡ sources_of m target → result ≡ reaches m place target }
    {
        holds(self.bits, place)
    }
}

impl TaskGraph {
    /// The graph of the mode of this number, from 0.
    pub fn of(set: &ModeSet, mode: u32) -> TaskGraph
        requires rules { KeepsRules set.now }
        requires mode { mode < length set.now.modes }
        ensures { result ≡ graph_of (plain_at set.now mode) }
    {
        let tasks = task_count(set, mode);
        let messages = message_count(set, mode);
        let mut links = [Link { from: 0, to: 0 }; 64];
        for place in 0..messages {
            links[place] = link_at(set, mode, place);
        }
        TaskGraph {
            tasks,
            messages,
            links,
        }
    }

    /// How many tasks there are.
    fn tasks(&self) -> usize
        ensures { result ≡ self.now.tasks }
    {
        self.tasks
    }

    /// The links of the messages, in file order.
    fn links(&self) -> &[Link]
        ensures value { result.now ≡ self.now.links }
        ensures few { self.now.tasks ≤ 128 }
    {
        &self.links[..self.messages]
    }

    /// The link of the message at the place.
    pub(crate) fn link(&self, message: usize) -> Link
        requires { message < length self.now.links }
        ensures { (m : PlainMode) → self.now ≡ graph_of m → result ≡ link_of (length m.tasks) (message_at m message) }
    {
        self.links()[message]
    }

    /// Whether the task at the place is a first one, which consumes no message.
    pub fn is_first(&self, place: usize) -> bool
        requires { place < self.now.tasks }
        ensures { (m : PlainMode) → self.now ≡ graph_of m → result ≡ first m place }
    {
        !some_goes_to(self.links(), 1u128 << place)
    }

    /// Whether the task at the place is a last one, which produces no message.
    pub fn is_last(&self, place: usize) -> bool
        requires { place < self.now.tasks }
        ensures { (m : PlainMode) → self.now ≡ graph_of m → result ≡ last m place }
    {
        !some_comes_from(self.links(), 1u128 << place)
    }

    /// The tasks that reach the one at the place, along edges, that one among them.
    pub fn sources(&self, target: usize) -> TaskSet
        requires { target < self.now.tasks }
        ensures { (m : PlainMode) → self.now ≡ graph_of m → result ≡ sources_of m target }
    {
        TaskSet {
            bits: sources(self.links(), self.tasks(), target),
        }
    }
}
