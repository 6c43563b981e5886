//! Mode files that break a rule, and both sides of each limit.

use crate::{
    GraphFault, ListOf, ModeSet, Name, RawApp, RawMessage, RawMode, RawSet, RawTask,
    greatest_offset, is_first, is_last, reaches, validate,
};
use std::alloc::{AllocError, Global};
use std::test::Fail;

/// A mode file with one mode, one application and one message.
#[derive(Clone, Copy, Drop)]
struct Sample<'a> {
    slots: i64,
    round: i64,
    gap: i64,
    host: &'a str,
    nodes: &'a [&'a str],
    mode: &'a str,
    app: &'a str,
    period: i64,
    deadline: i64,
    tasks: &'a [(&'a str, &'a str, i64, &'a str)],
    message: &'a str,
    from: &'a [&'a str],
    to: &'a [&'a str],
    copies: i64,
}

fn name(alloc: Global, text: &str) -> Result<Name, AllocError> {
    Name::copied(alloc, text.as_bytes())
}

fn names(alloc: Global, texts: &[&str]) -> Result<ListOf<Name>, AllocError> {
    let mut list = Vec::new(alloc);
    for text in texts {
        list.push(name(alloc, text)?)?;
    }
    Ok(ListOf::from_vec(list))
}

fn tasks(alloc: Global, rows: &[(&str, &str, i64, &str)]) -> Result<ListOf<RawTask>, AllocError> {
    let mut list = Vec::new(alloc);
    for (task, node, wcet, body) in rows {
        list.push(RawTask {
            name: name(alloc, task)?,
            node: name(alloc, node)?,
            wcet: *wcet,
            body: name(alloc, body)?,
        })?;
    }
    Ok(ListOf::from_vec(list))
}

fn one<T: Drop>(alloc: Global, item: T) -> Result<ListOf<T>, AllocError> {
    let mut list = Vec::new(alloc);
    list.push(item)?;
    Ok(ListOf::from_vec(list))
}

fn build(alloc: Global, sample: &Sample) -> Result<RawSet, AllocError> {
    let message = RawMessage {
        name: name(alloc, sample.message)?,
        from: names(alloc, sample.from)?,
        to: names(alloc, sample.to)?,
        copies: sample.copies,
    };
    let app = RawApp {
        name: name(alloc, sample.app)?,
        period: sample.period,
        deadline: sample.deadline,
        tasks: tasks(alloc, sample.tasks)?,
        messages: one(alloc, message)?,
    };
    let mode = RawMode {
        name: name(alloc, sample.mode)?,
        apps: one(alloc, app)?,
    };
    Ok(RawSet {
        slots: sample.slots,
        round: sample.round,
        gap: sample.gap,
        host: name(alloc, sample.host)?,
        nodes: names(alloc, sample.nodes)?,
        modes: one(alloc, mode)?,
    })
}

fn kind_of(answer: &Result<ModeSet, GraphFault>) -> &'static str {
    match answer {
        Ok(_) => "ok",
        Err(GraphFault::OutOfRange(_)) => "out of range",
        Err(GraphFault::Repeated(_)) => "repeated",
        Err(GraphFault::Unknown(_)) => "unknown",
        Err(GraphFault::TwoSenders(_)) => "two senders",
        Err(GraphFault::Cycle(_)) => "cycle",
        Err(GraphFault::DeadlineLong(_)) => "deadline",
        Err(GraphFault::TooMany(_)) => "too many",
        Err(GraphFault::Memory) => "memory",
    }
}

fn word_of(answer: &Result<ModeSet, GraphFault>) -> &[u8] {
    match answer {
        Ok(_) => b"",
        Err(GraphFault::OutOfRange(key)) => key.text().as_bytes(),
        Err(GraphFault::TooMany(key)) => key.text().as_bytes(),
        Err(GraphFault::Repeated(name)) => name.as_bytes(),
        Err(GraphFault::Unknown(name)) => name.as_bytes(),
        Err(GraphFault::TwoSenders(name)) => name.as_bytes(),
        Err(GraphFault::Cycle(name)) => name.as_bytes(),
        Err(GraphFault::DeadlineLong(name)) => name.as_bytes(),
        Err(GraphFault::Memory) => b"",
    }
}

/// Whether the file of the sample gives this kind and this word.
fn gives(alloc: Global, sample: &Sample, kind: &str, word: &str) -> Result<bool, AllocError> {
    let raw = build(alloc, sample)?;
    let answer = validate(alloc, &raw);
    Ok(kind_of(&answer) == kind && word_of(&answer) == word.as_bytes())
}

const TASKS: [(&str, &str, i64, &str); 3] = [
    ("a", "n0", 2, "tally"),
    ("b", "n1", 5, "tally"),
    ("c", "n0", 1, "tally"),
];

fn base<'a>() -> Sample<'a> {
    Sample {
        slots: 2,
        round: 20,
        gap: 100,
        host: "n0",
        nodes: &["n0", "n1"],
        mode: "run",
        app: "loop",
        period: 100,
        deadline: 100,
        tasks: &TASKS,
        message: "m",
        from: &["a"],
        to: &["b"],
        copies: 1,
    }
}

#[test]
fn rounds_and_nodes(rt: HostRuntime) -> Result<(), Fail> {
    let b = base();
    assert!(rt; gives(rt.alloc(), &b, "ok", "")?);
    assert!(rt;
        gives(
            rt.alloc(),
            &Sample {
                slots: 0,
                round: 0,
                ..b
            },
            "out of range",
            "slots"
        )?
    );
    assert!(rt; gives(rt.alloc(), &Sample { slots: 32, ..b }, "ok", "")?);
    assert!(rt;
        gives(
            rt.alloc(),
            &Sample { slots: 33, ..b },
            "out of range",
            "slots"
        )?
    );
    assert!(rt;
        gives(
            rt.alloc(),
            &Sample {
                round: 0,
                gap: -1,
                ..b
            },
            "out of range",
            "round"
        )?
    );
    assert!(rt;
        gives(
            rt.alloc(),
            &Sample {
                round: 1_000_000_001,
                ..b
            },
            "out of range",
            "round"
        )?
    );
    assert!(rt;
        gives(
            rt.alloc(),
            &Sample {
                gap: 19,
                nodes: &[],
                ..b
            },
            "out of range",
            "gap"
        )?
    );
    assert!(rt; gives(rt.alloc(), &Sample { gap: 20, ..b }, "ok", "")?);
    assert!(rt;
        gives(
            rt.alloc(),
            &Sample {
                gap: 1_000_000_001,
                ..b
            },
            "out of range",
            "gap"
        )?
    );
    assert!(rt;
        gives(
            rt.alloc(),
            &Sample {
                nodes: &[],
                host: "N",
                ..b
            },
            "out of range",
            "nodes"
        )?
    );
    assert!(rt;
        gives(
            rt.alloc(),
            &Sample {
                nodes: &["n0", "N1", "n0"],
                ..b
            },
            "out of range",
            "nodes"
        )?
    );
    assert!(rt;
        gives(
            rt.alloc(),
            &Sample {
                nodes: &["n0", "n1", "n0"],
                host: "",
                ..b
            },
            "repeated",
            "n0"
        )?
    );
    assert!(rt;
        gives(
            rt.alloc(),
            &Sample { host: "", ..b },
            "out of range",
            "host"
        )?
    );
    assert!(rt;
        gives(
            rt.alloc(),
            &Sample {
                host: "n2",
                mode: "R",
                ..b
            },
            "unknown",
            "n2"
        )?
    );
    Ok(())
}

#[test]
fn modes_applications_and_tasks(rt: HostRuntime) -> Result<(), Fail> {
    let b = base();
    assert!(rt;
        gives(
            rt.alloc(),
            &Sample {
                mode: "r-n",
                app: "",
                ..b
            },
            "out of range",
            "name"
        )?
    );
    assert!(rt;
        gives(
            rt.alloc(),
            &Sample {
                app: "abcdefghijklmnopqrstuvwxyz012345",
                ..b
            },
            "ok",
            ""
        )?
    );
    assert!(rt;
        gives(
            rt.alloc(),
            &Sample {
                app: "abcdefghijklmnopqrstuvwxyz0123456",
                ..b
            },
            "out of range",
            "name"
        )?
    );
    assert!(rt;
        gives(
            rt.alloc(),
            &Sample {
                period: 0,
                deadline: 0,
                ..b
            },
            "out of range",
            "period"
        )?
    );
    assert!(rt;
        gives(
            rt.alloc(),
            &Sample {
                period: 1_000_000_001,
                ..b
            },
            "out of range",
            "period"
        )?
    );
    assert!(rt;
        gives(
            rt.alloc(),
            &Sample {
                deadline: 0,
                tasks: &[],
                ..b
            },
            "out of range",
            "deadline"
        )?
    );
    assert!(rt;
        gives(
            rt.alloc(),
            &Sample {
                deadline: 1_000_000_000_001,
                ..b
            },
            "out of range",
            "deadline"
        )?
    );
    assert!(rt;
        gives(
            rt.alloc(),
            &Sample { tasks: &[], ..b },
            "out of range",
            "task"
        )?
    );
    assert!(rt;
        gives(
            rt.alloc(),
            &Sample {
                tasks: &[("a", "n0", 1, "x"), ("a", "n9", 1, "x")],
                ..b
            },
            "repeated",
            "a"
        )?
    );
    assert!(rt;
        gives(
            rt.alloc(),
            &Sample {
                tasks: &[("a", "N", 0, "x")],
                ..b
            },
            "out of range",
            "node"
        )?
    );
    assert!(rt;
        gives(
            rt.alloc(),
            &Sample {
                tasks: &[("a", "n9", 0, "x")],
                ..b
            },
            "unknown",
            "n9"
        )?
    );
    assert!(rt;
        gives(
            rt.alloc(),
            &Sample {
                tasks: &[("a", "n0", 0, "X")],
                ..b
            },
            "out of range",
            "wcet"
        )?
    );
    assert!(rt;
        gives(
            rt.alloc(),
            &Sample {
                tasks: &[("a", "n0", 101, "x")],
                ..b
            },
            "out of range",
            "wcet"
        )?
    );
    assert!(rt;
        gives(
            rt.alloc(),
            &Sample {
                tasks: &[("a", "n0", 100, "")],
                ..b
            },
            "out of range",
            "body"
        )?
    );
    Ok(())
}

#[test]
fn messages_and_graphs(rt: HostRuntime) -> Result<(), Fail> {
    let b = base();
    assert!(rt;
        gives(
            rt.alloc(),
            &Sample {
                message: "M",
                from: &[],
                ..b
            },
            "out of range",
            "name"
        )?
    );
    assert!(rt;
        gives(
            rt.alloc(),
            &Sample {
                from: &[],
                to: &[],
                ..b
            },
            "out of range",
            "from"
        )?
    );
    assert!(rt;
        gives(
            rt.alloc(),
            &Sample {
                from: &["z", "A"],
                ..b
            },
            "unknown",
            "z"
        )?
    );
    assert!(rt;
        gives(
            rt.alloc(),
            &Sample {
                from: &["a", "a", "z"],
                ..b
            },
            "repeated",
            "a"
        )?
    );
    assert!(rt;
        gives(
            rt.alloc(),
            &Sample {
                from: &["a", "b", "c", "a", "z"],
                ..b
            },
            "too many",
            "from"
        )?
    );
    assert!(rt;
        gives(
            rt.alloc(),
            &Sample {
                from: &["a", "b"],
                to: &[],
                ..b
            },
            "out of range",
            "to"
        )?
    );
    assert!(rt;
        gives(
            rt.alloc(),
            &Sample {
                from: &["a", "b"],
                to: &["a"],
                ..b
            },
            "two senders",
            "m"
        )?
    );
    assert!(rt;
        gives(
            rt.alloc(),
            &Sample {
                from: &["a", "c"],
                ..b
            },
            "ok",
            ""
        )?
    );
    assert!(rt;
        gives(
            rt.alloc(),
            &Sample {
                from: &["a"],
                to: &["b", "a"],
                deadline: 101,
                ..b
            },
            "cycle",
            "loop"
        )?
    );
    assert!(rt;
        gives(
            rt.alloc(),
            &Sample { deadline: 101, ..b },
            "deadline",
            "loop"
        )?
    );
    assert!(rt;
        gives(
            rt.alloc(),
            &Sample {
                round: 1,
                gap: 100,
                period: 256,
                ..b
            },
            "ok",
            ""
        )?
    );
    assert!(rt;
        gives(
            rt.alloc(),
            &Sample {
                round: 1,
                gap: 100,
                period: 257,
                ..b
            },
            "too many",
            "rounds"
        )?
    );
    Ok(())
}

#[test]
fn copies_out_of_range(rt: HostRuntime) -> Result<(), Fail> {
    let b = base();
    for copies in [-1, 0, 5] {
        assert!(rt;
            gives(
                rt.alloc(),
                &Sample { copies, ..b },
                "out of range",
                "copies"
            )?
        );
    }
    for copies in [1, 4] {
        assert!(rt; gives(rt.alloc(), &Sample { copies, ..b }, "ok", "")?);
    }
    assert!(rt;
        gives(
            rt.alloc(),
            &Sample {
                to: &["x"],
                copies: 0,
                ..b
            },
            "unknown",
            "x"
        )?
    );
    Ok(())
}

#[test]
fn queries(rt: HostRuntime) -> Result<(), Fail> {
    let raw = build(rt.alloc(), &base())?;
    let Ok(set) = validate(rt.alloc(), &raw) else {
        return Err("refused".into());
    };
    assert!(rt; is_first(&set, 0));
    assert!(rt; !is_last(&set, 0));
    assert!(rt; !is_first(&set, 1));
    assert!(rt; is_last(&set, 1));
    assert_eq!(rt; greatest_offset(&set, 0), 197);
    assert_eq!(rt; greatest_offset(&set, 1), 194);
    Ok(())
}

/// A mode file with one application, whose messages each have the first tasks as producers and the last ones as consumers.
#[derive(Clone, Copy, Drop)]
struct Crowd {
    nodes: u32,
    tasks: u32,
    messages: u32,
    from: u32,
    to: u32,
}

fn numbered(alloc: Global, letter: &str, start: u32, end: u32) -> Result<ListOf<Name>, AllocError> {
    let mut list = Vec::new(alloc);
    for i in start..end {
        list.push(name(alloc, format!(in alloc; "{letter}{i}")?.as_str())?)?;
    }
    Ok(ListOf::from_vec(list))
}

/// The first tasks are on the node `n0`, the others on the other nodes in turn.
fn crowd_tasks(alloc: Global, crowd: Crowd) -> Result<ListOf<RawTask>, AllocError> {
    let mut list = Vec::new(alloc);
    for i in 0..crowd.tasks {
        let node = if i < 5 || crowd.nodes < 2 {
            0
        } else {
            1 + i % (crowd.nodes - 1)
        };
        list.push(RawTask {
            name: name(alloc, format!(in alloc; "t{i}")?.as_str())?,
            node: name(alloc, format!(in alloc; "n{node}")?.as_str())?,
            wcet: 1,
            body: name(alloc, "tally")?,
        })?;
    }
    Ok(ListOf::from_vec(list))
}

fn crowd_messages(alloc: Global, crowd: Crowd) -> Result<ListOf<RawMessage>, AllocError> {
    let mut list = Vec::new(alloc);
    for i in 0..crowd.messages {
        list.push(RawMessage {
            name: name(alloc, format!(in alloc; "m{i}")?.as_str())?,
            from: numbered(alloc, "t", 0, crowd.from)?,
            to: numbered(
                alloc,
                "t",
                crowd.tasks.saturating_sub(crowd.to),
                crowd.tasks,
            )?,
            copies: 1,
        })?;
    }
    Ok(ListOf::from_vec(list))
}

fn build_crowd(alloc: Global, crowd: Crowd) -> Result<RawSet, AllocError> {
    let app = RawApp {
        name: name(alloc, "a")?,
        period: 100,
        deadline: 100,
        tasks: crowd_tasks(alloc, crowd)?,
        messages: crowd_messages(alloc, crowd)?,
    };
    let mode = RawMode {
        name: name(alloc, "m")?,
        apps: one(alloc, app)?,
    };
    Ok(RawSet {
        slots: 1,
        round: 10,
        gap: 100,
        host: name(alloc, "n0")?,
        nodes: numbered(alloc, "n", 0, crowd.nodes)?,
        modes: one(alloc, mode)?,
    })
}

#[test]
fn limits(rt: HostRuntime) -> Result<(), Fail> {
    let small = Crowd {
        nodes: 2,
        tasks: 30,
        messages: 1,
        from: 1,
        to: 1,
    };
    let rows = [
        (Crowd { nodes: 64, ..small }, "ok", ""),
        (Crowd { nodes: 65, ..small }, "too many", "nodes"),
        (
            Crowd {
                nodes: 64,
                tasks: 128,
                ..small
            },
            "ok",
            "",
        ),
        (
            Crowd {
                nodes: 64,
                tasks: 129,
                ..small
            },
            "too many",
            "task",
        ),
        (
            Crowd {
                from: 4,
                to: 16,
                ..small
            },
            "ok",
            "",
        ),
        (
            Crowd {
                from: 5,
                to: 17,
                ..small
            },
            "too many",
            "from",
        ),
        (Crowd { to: 17, ..small }, "too many", "to"),
        (
            Crowd {
                messages: 64,
                ..small
            },
            "ok",
            "",
        ),
        (
            Crowd {
                messages: 65,
                ..small
            },
            "too many",
            "message",
        ),
        (
            Crowd {
                messages: 16,
                from: 4,
                ..small
            },
            "ok",
            "",
        ),
        (
            Crowd {
                messages: 17,
                from: 4,
                ..small
            },
            "too many",
            "inputs",
        ),
        (
            Crowd {
                nodes: 1,
                tasks: 91,
                messages: 1,
                ..small
            },
            "ok",
            "",
        ),
        (
            Crowd {
                nodes: 1,
                tasks: 91,
                messages: 2,
                ..small
            },
            "too many",
            "decisions",
        ),
    ];
    for (crowd, kind, word) in &rows {
        let raw = build_crowd(rt.alloc(), *crowd)?;
        let answer = validate(rt.alloc(), &raw);
        assert!(rt;
            kind_of(&answer) == *kind && word_of(&answer) == word.as_bytes(),
            "{kind} {word}"
        );
    }
    Ok(())
}

/// A mode with `count` tasks and a chain of messages along the listed ones, the last message first.
fn chain_mode(
    alloc: Global,
    mode: &str,
    count: u32,
    chain: &[(&str, &str)],
) -> Result<RawMode, AllocError> {
    let crowd = Crowd {
        nodes: 64,
        tasks: count,
        messages: 0,
        from: 0,
        to: 0,
    };
    let mut messages = Vec::new(alloc);
    for (i, (from, to)) in chain.iter().enumerate() {
        messages.push(RawMessage {
            name: name(alloc, format!(in alloc; "m{i}")?.as_str())?,
            from: names(alloc, &[from])?,
            to: names(alloc, &[to])?,
            copies: 1,
        })?;
    }
    let app = RawApp {
        name: name(alloc, "a")?,
        period: 1000,
        deadline: 1000,
        tasks: crowd_tasks(alloc, crowd)?,
        messages: ListOf::from_vec(messages),
    };
    Ok(RawMode {
        name: name(alloc, mode)?,
        apps: one(alloc, app)?,
    })
}

/// The modes have the tasks 0 to 29, 30 to 59 and 60 to 187.
#[test]
fn walks(rt: HostRuntime) -> Result<(), Fail> {
    let mut modes = Vec::new(rt.alloc());
    let back = [("t28", "t29"), ("t2", "t28"), ("t1", "t2"), ("t0", "t1")];
    modes.push(chain_mode(rt.alloc(), "one", 30, &back)?)?;
    modes.push(chain_mode(rt.alloc(), "two", 30, &[("t29", "t3"), ("t3", "t4")])?)?;
    modes.push(chain_mode(
        rt.alloc(),
        "three",
        128,
        &[("t126", "t127"), ("t0", "t126")],
    )?)?;
    let raw = RawSet {
        slots: 1,
        round: 10,
        gap: 100,
        host: name(rt.alloc(), "n0")?,
        nodes: numbered(rt.alloc(), "n", 0, 64)?,
        modes: ListOf::from_vec(modes),
    };
    let Ok(set) = validate(rt.alloc(), &raw) else {
        return Err("refused".into());
    };
    let rows = [
        (0, 0, true),
        (0, 1, true),
        (0, 29, true),
        (1, 28, true),
        (28, 29, true),
        (29, 28, false),
        (2, 1, false),
        (0, 3, false),
        (0, 31, false),
        (30, 34, false),
        (59, 33, true),
        (59, 34, true),
        (34, 59, false),
        (59, 59, true),
        (29, 33, false),
        (60, 187, true),
        (187, 186, false),
        (60, 188, false),
        (188, 0, false),
        (188, 188, true),
    ];
    for (from, to, reached) in rows {
        assert!(rt; reaches(&set, from, to) == reached, "{from} to {to}");
    }
    Ok(())
}
