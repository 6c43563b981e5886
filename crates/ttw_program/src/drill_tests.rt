//! The lines of two drills, and of one whose bodies are not the set's.

use crate::drilling::answer_drill;
use file_answers::Status;
use std::test::Fail;
use task_body::{Hold, Tally, TaskBody};

#[test]
fn drill_lines(rt: HostRuntime) -> Result<(), Fail> {
    let lines: [(u64, &[u8]); 2] = [
        (
            0,
            b"drill 0 modes 8 tasks 512 messages 256 rounds 64 visited 1472 offsets 43996 sent 508 started 1020 values 796\n",
        ),
        (
            1,
            b"drill 1 modes 8 tasks 512 messages 256 rounds 64 visited 1472 offsets 44001 sent 508 started 1020 values 796\n",
        ),
    ];
    for (seed, line) in lines {
        let mut bodies: Vec<Box<dyn TaskBody>> = Vec::new(rt.alloc());
        bodies.push(Box::new(rt.alloc(), Tally::make(rt.alloc())?)?)?;
        let answer = answer_drill(rt.alloc(), seed, &mut bodies)?;
        assert!(rt; answer.status == Status::Done);
        assert!(rt; answer.text.bytes() == line);
    }
    Ok(())
}

#[test]
fn a_drill_without_its_body(rt: HostRuntime) -> Result<(), Fail> {
    let mut bodies: Vec<Box<dyn TaskBody>> = Vec::new(rt.alloc());
    bodies.push(Box::new(rt.alloc(), Hold::make(rt.alloc())?)?)?;
    let answer = answer_drill(rt.alloc(), 0, &mut bodies)?;
    assert!(rt; answer.status == Status::ModeFile);
    assert!(rt; answer.text.bytes() == b"modes: no body tally\n".as_slice());
    Ok(())
}
