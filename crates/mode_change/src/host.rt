//! The host: it takes requests, decides the phase of each hyperperiod, and makes the beacon of each round.

ghost use Rattle.std.specs.Prelude.{◌≡◌, ◌<◌, ◌≤◌, All, IfOk, IsTrue, [], false, length, true};
ghost use Rattle.runtime_model.specs.HostCalls.{end_round_call, next_beacon_call, request_call};
ghost use Rattle.runtime_model.specs.Plans.{FewRounds, first_rounds, round_counts};
ghost use Rattle.mode_change.specs.HostSeen.{host_beacon, plain_beacon, with_call};
ghost use Rattle.mode_change.specs.HostStands.{GoesOn, HostStands};
ghost use Rattle.mode_change.specs.Phases.{plain_phase};

use crate::phase::{Phase, decided, is_draining, named_mode};
use app_graph::ModeSet;
use beacon_codec::Beacon;
use sched_model::Schedule;
use std::alloc::{AllocError, Global};
use std::marker::Model;

/// The timeline of the modes as it stands, and how rounds are numbered.
/// Contracts see the host's state and the numbers of rounds.
#[derive(Drop)]
pub struct Host {
    mode: u32,
    round: u64,
    phase: Phase,
    opening: bool,
    waiting: Option<u32>,
    inside: bool,
    rounds: Vec<u64>,
    firsts: Vec<u16>,
}

impl Model for Host {
    ghost use Rattle.mode_change.specs.HostSeen.{HostFits, HostSeen};
    ghost use Rattle.mode_change.specs.Phases.{plain_phase};

    ghost Value = { HostSeen };

    ghost view = { λ n. record { host = record { mode = n.mode; round = n.round; phase = plain_phase n.phase; opening = n.opening; waiting = n.waiting; inside = n.inside }; rounds = n.rounds.items; firsts = n.firsts.items } };

    ghost invariant = { λ n. HostFits n.mode n.round (plain_phase n.phase) n.opening n.waiting n.rounds.items n.firsts.items };
}

impl Host {
    /// The host before the first beacon, in mode 0 and its opening hyperperiod. `plans` has the schedule of each mode of `set`;
    /// the right schedules of a set that keeps the rules have few enough rounds, as the law `kept_sets_have_right_plans` says.
    pub fn make(alloc: Global, set: &ModeSet, plans: &[Schedule]) -> Result<Self, AllocError>
        requires { FewRounds plans.now }
        ensures stands { IfOk result (λ host. HostStands plans.now host []) }
        ensures modes { IfOk result (λ host. length host.rounds ≡ length plans.now) }
        ensures outside { IfOk result (λ host. host.host.inside ≡ false) }
    {
        let rounds = counts(alloc, plans)?;
        let firsts = first_numbers(alloc, rounds.as_slice())?;
        Ok(Host {
            mode: 0,
            round: 1,
            phase: Phase::Steady,
            opening: true,
            waiting: None,
            inside: false,
            rounds,
            firsts,
        })
    }

    /// The running mode.
    pub fn mode(&self) -> u32
        ensures { result ≡ self.now.host.mode }
    {
        self.mode
    }

    /// The mode that runs after the end of the round that the host is in, or else of the next one. It is another one only where
    /// that round is the last of a hyperperiod that drains.
    pub fn mode_after_round(&self) -> u32
        ensures { result ≡ (with_call self.now end_round_call).host.mode }
    {
        match self.phase {
            Phase::Drain(next) if self.round >= self.rounds[self.mode as usize] => next,
            _ => self.mode,
        }
    }

    /// The round of the last beacon while the host is in it, else that of the next one. Rounds of a mode count from 1.
    pub fn round(&self) -> u64
        ensures { result ≡ self.now.host.round }
    {
        self.round
    }

    /// The phase of the hyperperiod. Before its first beacon it is `Drain` or `Steady`.
    pub fn phase(&self) -> Phase
        ensures { plain_phase result ≡ self.now.host.phase }
    {
        self.phase
    }

    /// Whether the hyperperiod is the mode's opening one.
    pub fn opening(&self) -> bool
        ensures { result ≡ self.now.host.opening }
    {
        self.opening
    }

    /// Whether a round has begun and not ended.
    pub fn in_round(&self) -> bool
        ensures { result ≡ self.now.host.inside }
    {
        self.inside
    }

    /// Asks for a change to `mode`. The latest request before a beacon that takes one counts.
    pub fn request(&mut self, mode: u32)
        requires { mode < length self.old.rounds }
        ensures state { self.new ≡ with_call self.old (request_call mode) }
        ensures stands { GoesOn self.old self.new (request_call mode) }
    {
        self.keep(mode);
    }

    /// Begins the next round, and gives its beacon. The first of a hyperperiod that does not drain takes the latest request.
    pub fn next_beacon(&mut self) -> Beacon
        requires { self.old.host.inside ≡ false }
        ensures state { self.new ≡ with_call self.old next_beacon_call }
        ensures stands { GoesOn self.old self.new next_beacon_call }
        ensures beacon { plain_beacon result ≡ host_beacon self.new }
        ensures one_flag { ¬ (IsTrue result.trigger × IsTrue result.opening) }
        ensures inside { self.new.host.inside ≡ true }
    {
        self.begin_round();
        Beacon {
            round: self.firsts[self.mode as usize] + (self.round - 1) as u16,
            mode: named_mode(self.mode, self.phase) as u8,
            trigger: is_draining(self.phase),
            opening: self.opening,
        }
    }

    /// Ends the round. The last one of a hyperperiod ends it: a warning is followed by a draining, and that by the new mode's opening.
    pub fn end_round(&mut self)
        requires { self.old.host.inside ≡ true }
        ensures state { self.new ≡ with_call self.old end_round_call }
        ensures stands { GoesOn self.old self.new end_round_call }
        ensures inside { self.new.host.inside ≡ false }
    {
        self.leave_round();
    }

    /// Keeps a request until a beacon takes it.
    fn keep(&mut self, mode: u32)
        requires { mode < length self.old.rounds }
        ensures { self.new ≡ with_call self.old (request_call mode) }
    {
        self.waiting = Some(mode);
    }

    /// Goes into the round. In the first one a hyperperiod's phase is decided.
    fn begin_round(&mut self)
        requires { self.old.host.inside ≡ false }
        ensures { self.new ≡ with_call self.old next_beacon_call }
    {
        if self.round == 1 {
            let phase = decided(self.mode, self.phase, self.waiting);
            if !is_draining(self.phase) {
                self.waiting = None;
            }
            self.phase = phase;
        }
        self.inside = true;
    }

    /// Goes out of the round, and after the last one into the next hyperperiod.
    fn leave_round(&mut self)
        ensures { self.new ≡ with_call self.old end_round_call }
    {
        if self.round < self.rounds[self.mode as usize] {
            self.round += 1;
        } else {
            self.round = 1;
            self.opening = false;
            match self.phase {
                Phase::Steady => {}
                Phase::Warn(next) => {
                    self.phase = Phase::Drain(next);
                }
                Phase::Drain(next) => {
                    self.mode = next;
                    self.phase = Phase::Steady;
                    self.opening = true;
                }
            }
        }
        self.inside = false;
    }
}

/// How many rounds each schedule has.
fn counts(alloc: Global, plans: &[Schedule]) -> Result<Vec<u64>, AllocError>
    ensures { IfOk result (λ v. v.items ≡ round_counts plans.now) }
{
    plans
        .iter()
        .map(|plan| plan.starts.as_slice().len() as u64)
        .collect(alloc)
}

/// The numbers of the first rounds of modes with so many rounds, from 1 on.
fn first_numbers(alloc: Global, rounds: &[u64]) -> Result<Vec<u16>, AllocError>
    requires few { All (λ count. count ≤ 256) rounds.now }
    requires modes { length rounds.now ≤ 8 }
    ensures { IfOk result (λ v. v.items ≡ first_rounds 1 rounds.now) }
{
    let mut firsts = Vec::new(alloc);
    let mut first: u16 = 1;
    for count in rounds {
        firsts.push(first)?;
        first += *count as u16;
    }
    Ok(firsts)
}
