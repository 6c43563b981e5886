//! Documents of small modes, and lines on both sides of the grammar.

ghost use Rattle.std.specs.Prelude.{◌≡◌, IfOk, length};

use crate::{
    ModePart, PlanLine, Tree, TreeNode, item, value, write_plan, write_schedule, write_tree,
};
use app_graph::{App, ListOf, Mode, ModeSet, Name, Task};
use sched_model::Schedule;
use std::alloc::{AllocError, Global};
use std::test::Fail;
use ttw_text::Out;

/// A set of one mode `run`, whose task `blink` sends nothing.
fn blink_set(alloc: Global) -> Result<ModeSet, AllocError>
    ensures { IfOk result (λ set. length set.modes ≡ 1) }
{
    let task = Task {
        name: Name::copied(alloc, b"blink")?,
        node: 1,
        wcet: 3,
        body: Name::copied(alloc, b"tally")?,
        number: 0,
    };
    let app = App {
        name: Name::copied(alloc, b"lamp")?,
        period: 100,
        deadline: 100,
        tasks: ListOf::from_vec(vec![in alloc; task]?),
        messages: ListOf::from_vec(Vec::new(alloc)),
    };
    let mode = Mode {
        name: Name::copied(alloc, b"run")?,
        apps: ListOf::from_vec(vec![in alloc; app]?),
    };
    Ok(ModeSet {
        slots: 2,
        round: 10,
        gap: 40,
        host: 0,
        nodes: ListOf::from_vec(Vec::new(alloc)),
        modes: ListOf::from_vec(vec![in alloc; mode]?),
    })
}

/// A schedule of three rounds that carry nothing.
fn blink_schedule(alloc: Global) -> Result<Schedule, AllocError> {
    let mut tables = Vec::new(alloc);
    for _ in 0..3 {
        tables.push(ListOf::from_vec(Vec::new(alloc)))?;
    }
    Ok(Schedule {
        starts: ListOf::from_vec(vec![in alloc; 0, 20, 60]?),
        tasks: ListOf::from_vec(vec![in alloc; 0]?),
        messages: ListOf::from_vec(Vec::new(alloc)),
        tables: ListOf::from_vec(tables),
    })
}

/// A tree with each kind of node.
fn small_tree(alloc: Global) -> Result<Tree, AllocError> {
    let nodes = vec![in alloc;
        TreeNode::Branch,
        TreeNode::Cycle { from: 1, len: 2 },
        TreeNode::Full(3),
        TreeNode::Short,
    ]?;
    Ok(Tree {
        nodes: ListOf::from_vec(nodes),
        refs: ListOf::from_vec(vec![in alloc; 7, 8, 9]?),
    })
}

#[test]
fn one_task_plan(rt: HostRuntime) -> Result<(), Fail> {
    let alloc = rt.alloc();
    let set = blink_set(alloc)?;
    let parts = [ModePart {
        refuted: ListOf::from_vec(Vec::new(alloc)),
        schedule: Some(blink_schedule(alloc)?),
    }];
    let mut out = Out::make(alloc);
    write_plan(&set, &parts, &mut out)?;
    let due =
        "ttw 1\nmode run\nschedule 3\nstart 0 20 60\ntask blink 0\ntable 1\ntable 2\ntable 3\nend\n";
    assert_eq!(rt; out.bytes(), due.as_bytes());
    Ok(())
}

#[test]
fn no_round_fits(rt: HostRuntime) -> Result<(), Fail> {
    let alloc = rt.alloc();
    let set = blink_set(alloc)?;
    let parts = [ModePart {
        refuted: ListOf::from_vec(Vec::new(alloc)),
        schedule: None,
    }];
    let mut out = Out::make(alloc);
    write_plan(&set, &parts, &mut out)?;
    assert_eq!(rt; out.bytes(), b"ttw 1\nmode run\nnone\nend\n".as_slice());
    Ok(())
}

#[test]
fn writes_trees_and_schedules(rt: HostRuntime) -> Result<(), Fail> {
    let alloc = rt.alloc();
    let set = blink_set(alloc)?;
    let mut out = Out::make(alloc);
    write_tree(&small_tree(alloc)?, &mut out)?;
    write_schedule(&set, 0, &blink_schedule(alloc)?, &mut out)?;
    let due =
        "branch\ncycle 8 9\nfull 3\nshort\nschedule 3\nstart 0 20 60\ntask blink 0\ntable 1\ntable 2\ntable 3\n";
    assert_eq!(rt; out.bytes(), due.as_bytes());
    Ok(())
}

#[test]
fn lines_have_one_form(rt: HostRuntime) {
    for text in [
        "ttw 1",
        "mode run",
        "refute 0",
        "full 2000000000000",
        "start 0",
        "table 1",
        "task a 1",
        "end",
    ] {
        assert!(rt; item(text.as_bytes()).is_ok(), "{text}");
    }
    for text in [
        "",
        "ttw 2",
        "mode Run",
        "refute 01",
        "full 2000000000001",
        "start",
        "table a",
        "task a",
        "end ",
    ] {
        assert!(rt; item(text.as_bytes()).is_err(), "{text}");
    }
    assert_eq!(rt; value(b"2000000000000"), 2_000_000_000_000);
    assert_eq!(rt; value(b"2000000000001"), 0);
    assert!(rt;
        matches!(
            item(b"message m1 23 43"),
            Ok(PlanLine::Message(b"m1", 23, 43))
        )
    );
}
