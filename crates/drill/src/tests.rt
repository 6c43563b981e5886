//! The script and the line of the drill, and that the generated set is a mode set.

use crate::{Summary, generate, script};
use app_graph::{ModeSet, validate};
use replay_script::Line;
use std::test::Fail;
use ttw_text::Out;

/// The number of the last task of a mode set.
fn last_number(set: &ModeSet) -> Option<u32> {
    let mode = set.modes.as_slice().last()?;
    let app = mode.apps.as_slice().last()?;
    Some(app.tasks.as_slice().last()?.number)
}

#[test]
fn the_script_requests_each_other_mode(rt: HostRuntime) -> Result<(), Fail> {
    let lines = script(rt.alloc())?;
    assert_eq!(rt; lines.len(), 15);
    assert_eq!(rt; lines[0], Line::Go(336));
    assert_eq!(rt; lines[1], Line::Request(1));
    assert_eq!(rt; lines[2], Line::Go(504));
    assert_eq!(rt; lines[13], Line::Request(7));
    assert_eq!(rt; lines[14], Line::Go(504));
    Ok(())
}

#[test]
fn the_line_says_each_number(rt: HostRuntime) -> Result<(), Fail> {
    let summary = Summary {
        seed: 0,
        modes: 8,
        tasks: 512,
        messages: 256,
        rounds: 64,
        visited: 1472,
        offsets: 43996,
        sent: 508,
        started: 1020,
        values: 796,
    };
    let mut out = Out::make(rt.alloc());
    summary.write(&mut out)?;
    let line =
        b"drill 0 modes 8 tasks 512 messages 256 rounds 64 visited 1472 offsets 43996 sent 508 started 1020 values 796\n";
    assert!(rt; out.bytes() == line.as_slice());
    Ok(())
}

#[test]
fn the_generated_set_is_a_mode_set(rt: HostRuntime) -> Result<(), Fail> {
    let raw = generate(rt.alloc(), 0)?;
    match validate(rt.alloc(), &raw) {
        Ok(set) => assert_eq!(rt; last_number(&set), Some(511)),
        Err(_) => assert!(rt; false),
    }
    Ok(())
}
