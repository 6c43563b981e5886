//! Beacons over a change of mode.

ghost use Rattle.std.specs.Prelude.{◌≡◌, IfOk, false, length};
ghost use Rattle.runtime_model.specs.Plans.{FewRounds};

use crate::{Host, Phase};
use app_graph::{ListOf, ModeSet};
use beacon_codec::encode;
use sched_model::Schedule;
use std::alloc::{AllocError, Global};
use tick_num::Time;

/// A schedule of rounds alone.
fn rounds_at(alloc: Global, starts: Vec<Time>) -> Schedule
    ensures { result.starts ≡ starts.items }
{
    Schedule {
        starts: ListOf::from_vec(starts),
        tasks: ListOf::from_vec(Vec::new(alloc)),
        messages: ListOf::from_vec(Vec::new(alloc)),
        tables: ListOf::from_vec(Vec::new(alloc)),
    }
}

/// A mode of two rounds and one of one round.
fn two_modes(alloc: Global) -> Result<Vec<Schedule>, AllocError>
    ensures few { IfOk result (λ v. FewRounds v.items) }
    ensures two { IfOk result (λ v. length v.items ≡ 2) }
{
    let run = rounds_at(alloc, vec![in alloc; 0, 23]?);
    let idle = rounds_at(alloc, vec![in alloc; 0]?);
    Ok(vec![in alloc; run, idle]?)
}

fn no_modes(alloc: Global) -> ModeSet {
    ModeSet {
        slots: 2,
        round: 20,
        gap: 100,
        host: 0,
        nodes: ListOf::from_vec(Vec::new(alloc)),
        modes: ListOf::from_vec(Vec::new(alloc)),
    }
}

/// The bytes of the next round's beacon.
fn pass_round(host: &mut Host) -> [u8; 4]
    requires { host.old.host.inside ≡ false }
    ensures outside { host.new.host.inside ≡ false }
    ensures same { host.new.rounds ≡ host.old.rounds }
{
    let beacon = host.next_beacon();
    host.end_round();
    encode(beacon)
}

#[test]
fn beacons_over_a_change(rt: HostRuntime) -> Result<(), AllocError> {
    let plans = two_modes(rt.alloc())?;
    let set = no_modes(rt.alloc());
    let mut host = Host::make(rt.alloc(), &set, plans.as_slice())?;
    assert_eq!(rt; pass_round(&mut host), [0, 1, 0, 2]);
    assert_eq!(rt; pass_round(&mut host), [0, 2, 0, 2]);
    host.request(1);
    assert_eq!(rt; pass_round(&mut host), [0, 1, 1, 0]);
    assert_eq!(rt; pass_round(&mut host), [0, 2, 1, 0]);
    assert_eq!(rt; pass_round(&mut host), [0, 1, 1, 1]);
    assert_eq!(rt; pass_round(&mut host), [0, 2, 1, 1]);
    assert_eq!(rt; pass_round(&mut host), [0, 3, 1, 2]);
    Ok(())
}

#[test]
fn a_host_says_where_it_is(rt: HostRuntime) -> Result<(), AllocError> {
    let plans = two_modes(rt.alloc())?;
    let set = no_modes(rt.alloc());
    let mut host = Host::make(rt.alloc(), &set, plans.as_slice())?;
    assert!(rt; host.opening() && !host.in_round());
    host.request(0);
    host.request(1);
    let _ = host.next_beacon();
    assert!(rt; host.phase() == Phase::Warn(1) && host.in_round());
    host.end_round();
    assert_eq!(rt; host.round(), 2);
    let _ = pass_round(&mut host);
    assert!(rt; host.phase() == Phase::Drain(1) && !host.opening());
    assert_eq!(rt; host.mode(), 0);
    let _ = pass_round(&mut host);
    let _ = pass_round(&mut host);
    assert!(rt; host.phase() == Phase::Steady && host.opening());
    assert_eq!(rt; host.mode(), 1);
    Ok(())
}
