//! A run drops each body that it is handed once, whatever its status.

use super::*;
use crate::tests::{LOOP, LOOP_PLAN, SHARE};
use std::alloc::Global;
use std::cell::Cell;
use std::rc::Rc;
use std::test::Fail;
use ttw_io::{MemFiles, MemSink};

/// A body named `tally` that always answers 0, and counts how often it is dropped.
struct Counted {
    drops: Rc<Cell<u32>>,
}

impl Drop for Counted {
    fn drop(self) {
        let Counted { drops } = self;
        drops.set(drops.get().saturating_add(1));
    }
}

impl TaskBody for Counted {
    ghost use Rattle.std.specs.Prelude.{[], codes, pos};

    ghost seen = { λ body. record {
      name = codes "tally";
      numbers = [];
      answer = λ numbers task inputs. pos 0;
      after_fire = λ numbers task inputs. numbers;
    } };

    fn name_is(&self, text: &str) -> bool {
        text == "tally"
    }

    fn fire(&mut self, _task: u32, _inputs: &[Option<i64>]) -> i64 {
        0
    }

    fn reset(&mut self, _task: u32) {}
}

/// The files of the tests, whose numbered reads fail.
fn files_of(alloc: Global, fail: &[u64]) -> Result<MemFiles, Fail> {
    let mut files = Vec::new(alloc);
    for (name, text) in [
        ("loop", LOOP),
        ("plan", LOOP_PLAN),
        ("share", SHARE),
        ("go", "go 9\n"),
        ("bad", "going\n"),
    ] {
        files.push((name.to_string(alloc)?, text.as_bytes().to_vec(alloc)?))?;
    }
    Ok(MemFiles::make(files, fail.to_vec(alloc)?))
}

/// Whether these words end with the status, and two bodies were each dropped once.
fn drops_once(
    alloc: Global,
    words: &[&str],
    reads: &[u64],
    writes: &[u64],
    wanted: Status,
) -> Result<bool, Fail> {
    let first = Rc::new(alloc, Cell::new(0))?;
    let second = Rc::new(alloc, Cell::new(0))?;
    let mut bodies: Vec<Box<dyn TaskBody>> = Vec::new(alloc);
    for drops in [&first, &second] {
        let drops = Rc::clone(drops)?;
        bodies.push(Box::new(alloc, Counted { drops })?)?;
    }
    let mut files = files_of(alloc, reads)?;
    let mut out = MemSink::make(alloc, 4096, 8, writes.to_vec(alloc)?)?;
    let status = run(alloc, words, &mut files, &mut out, bodies);
    Ok(status == wanted && first.get() == 1 && second.get() == 1)
}

#[test]
fn bodies_are_dropped_once(rt: HostRuntime) -> Result<(), Fail> {
    let alloc = rt.alloc();
    let plan = ["plan", "loop", "100"];
    let replay = ["replay", "loop", "plan", "go"];
    for (words, status) in [
        (replay.as_slice(), Status::Done),
        (&["plan", "share", "100"], Status::NoSchedule),
        (&["play"], Status::Usage),
        (&["plan", "go", "100"], Status::ModeFile),
        (&["check", "loop", "go"], Status::Plan),
        (&["replay", "loop", "plan", "bad"], Status::Script),
        (&["plan", "loop", "1"], Status::Budget),
        (&["plan", "nothing", "1"], Status::ReadFault),
    ] {
        assert!(rt; drops_once(alloc, words, &[], &[], status)?);
    }
    assert!(rt; drops_once(alloc, &replay, &[2], &[], Status::ReadFault)?);
    assert!(rt; drops_once(alloc, &plan, &[], &[1], Status::WriteFault)?);
    assert!(rt; drops_once(alloc, &replay, &[], &[1], Status::WriteFault)?);
    Ok(())
}
