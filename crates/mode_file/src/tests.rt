//! Mode files with their faults. In each row of two broken rules the first one counts.

use crate::faults::{FileFault, KeyText};
use crate::reading::read_modes;
use app_graph::{App, Name};
use std::alloc::Global;
use std::str::from_utf8;
use std::test::Fail;

fn with_name(alloc: Global, fault: &str, name: &Name) -> Result<String, Fail> {
    let name = from_utf8(name.as_bytes())?;
    Ok(format!(in alloc; "{fault} {name}")?)
}

/// The fault in words.
fn words_of(alloc: Global, fault: &FileFault) -> Result<String, Fail> {
    match fault {
        FileFault::TooLong => Ok(String::from_str(alloc, "too long")?),
        FileFault::NotToml => Ok(String::from_str(alloc, "not TOML")?),
        FileFault::Missing(key) => Ok(format!(in alloc; "missing {}", key.text())?),
        FileFault::WrongKind(key) => Ok(format!(in alloc; "wrong kind {}", key.text())?),
        FileFault::UnknownKey(key) => Ok(format!(in alloc;
            "unknown key {}",
            from_utf8(key.as_bytes())?
        )?),
        FileFault::OutOfRange(key) => Ok(format!(in alloc; "out of range {}", key.text())?),
        FileFault::Repeated(name) => with_name(alloc, "repeated", name),
        FileFault::Unknown(name) => with_name(alloc, "unknown", name),
        FileFault::TwoSenders(name) => with_name(alloc, "two senders", name),
        FileFault::Cycle(name) => with_name(alloc, "cycle", name),
        FileFault::DeadlineLong(name) => with_name(alloc, "deadline", name),
        FileFault::TooMany(key) => Ok(format!(in alloc; "too many {}", key.text())?),
        FileFault::Memory => Ok(String::from_str(alloc, "memory")?),
    }
}

/// The fault of the file in words, or `read`.
fn fault_of(alloc: Global, text: &[u8]) -> Result<String, Fail> {
    match read_modes(alloc, text) {
        Ok(_) => Ok(String::from_str(alloc, "read")?),
        Err(fault) => words_of(alloc, &fault),
    }
}

/// A loop of three tasks on three nodes, whose first message has two copies.
const LOOP: &str = "
slots = 2
round = 20
gap = 100
host = 'n0'
nodes = ['n0', 'n1', 'n2']
[[mode]]
name = 'run'
[[mode.app]]
name = 'loop'
period = 100
deadline = 90
task = [
    { name = 'sense', node = 'n1', wcet = 2 },
    { name = 'ctrl', node = 'n0', wcet = 5, body = 'hold' },
    { name = 'act', node = 'n2', wcet = 1 },
]
message = [
    { name = 'm1', from = ['sense'], to = ['ctrl'], copies = 2 },
    { name = 'm2', from = ['ctrl'], to = ['act'] },
]
";

/// One task.
const BLINK: &str = "
slots = 2
round = 10
gap = 40
host = 'n0'
nodes = ['n0', 'n1']
[[mode]]
name = 'run'
[[mode.app]]
name = 'lamp'
period = 100
deadline = 100
[[mode.app.task]]
name = 'blink'
node = 'n1'
wcet = 3
";

/// The fault of the file with a part of it replaced.
fn fault_with(alloc: Global, file: &str, part: &str, other: &str) -> Result<String, Fail> {
    fault_of(alloc, file.replace(alloc, part, other)?.as_bytes())
}

/// The application, its tasks and its messages, a line for each.
fn app_lines(alloc: Global, app: &App) -> Result<String, Fail> {
    let mut lines = format!(in alloc;
        "{} {} {}\n",
        from_utf8(app.name.as_bytes())?,
        app.period,
        app.deadline
    )?;
    for task in app.tasks.as_slice() {
        let name = from_utf8(task.name.as_bytes())?;
        let body = from_utf8(task.body.as_bytes())?;
        lines.push_str(format!(in alloc;
            "{name} {} {} {body} {}\n",
            task.node, task.wcet, task.number
        )?
        .as_str())?;
    }
    for message in app.messages.as_slice() {
        let name = from_utf8(message.name.as_bytes())?;
        let from = message.from.as_slice();
        let to = message.to.as_slice();
        lines.push_str(format!(in alloc;
            "{name} {from:?} {to:?} {} {}\n",
            message.number, message.copies
        )?
        .as_str())?;
    }
    Ok(lines)
}

#[test]
fn loop_modes(rt: HostRuntime) -> Result<(), Fail> {
    let set = match read_modes(rt.alloc(), LOOP.as_bytes()) {
        Ok(set) => set,
        Err(fault) => return Err(Fail::from(words_of(rt.alloc(), &fault)?)),
    };
    assert_eq!(rt; (set.slots, set.round, set.gap, set.host), (2, 20, 100, 0));
    assert_eq!(rt; set.nodes.as_slice().len(), 3);
    for mode in set.modes.as_slice() {
        for app in mode.apps.as_slice() {
            let want =
                "loop 100 90\nsense 1 2 tally 0\nctrl 0 5 hold 1\nact 2 1 tally 2\nm1 [0] [1] 0 2\nm2 [1] [2] 1 1\n";
            assert_eq!(rt; app_lines(rt.alloc(), app)?.as_str(), want);
        }
        assert_eq!(rt; mode.apps.as_slice().len(), 1);
    }
    assert_eq!(rt; set.modes.as_slice().len(), 1);
    Ok(())
}

#[test]
fn gap_below_round(rt: HostRuntime) -> Result<(), Fail> {
    let blink = BLINK.replace(rt.alloc(), "round = 10", "round = 30")?;
    assert_eq!(rt;
        fault_with(rt.alloc(), &blink, "gap = 40", "gap = 20")?.as_str(),
        "out of range gap"
    );
    assert_eq!(rt;
        fault_with(rt.alloc(), &blink, "gap = 40", "gap = 30")?.as_str(),
        "read"
    );
    Ok(())
}

#[test]
fn deadline_of_hyperperiod(rt: HostRuntime) -> Result<(), Fail> {
    assert_eq!(rt; fault_of(rt.alloc(), BLINK.as_bytes())?.as_str(), "read");
    assert_eq!(rt;
        fault_with(rt.alloc(), BLINK, "deadline = 100", "deadline = 101")?.as_str(),
        "deadline lamp"
    );
    Ok(())
}

#[test]
fn cycle_and_two_senders(rt: HostRuntime) -> Result<(), Fail> {
    let back = "message = [{ name = 'm3', from = ['act'], to = ['sense'] },";
    assert_eq!(rt;
        fault_with(rt.alloc(), LOOP, "message = [", back)?.as_str(),
        "cycle loop"
    );
    assert_eq!(rt;
        fault_with(
            rt.alloc(),
            LOOP,
            "from = ['sense']",
            "from = ['sense', 'ctrl']"
        )?
        .as_str(),
        "two senders m1"
    );
    Ok(())
}

#[test]
fn unknown_key(rt: HostRuntime) -> Result<(), Fail> {
    assert_eq!(rt;
        fault_with(rt.alloc(), BLINK, "wcet = 3", "wcet = 3\ncopies = 1")?.as_str(),
        "unknown key copies"
    );
    Ok(())
}

/// A top table that lacks its modes.
const TOP: &str = "slots = 1\nround = 2\ngap = 3\nhost = 'n'\nnodes = ['n']\n";

/// An application that lacks its tasks.
const APP: &str = "name = 'a', period = 4, deadline = 5";

#[test]
fn top_tables(rt: HostRuntime) -> Result<(), Fail> {
    for (text, want) in [
        ("", "missing slots"),
        ("round = true\ngap = 3\nhost = 4", "missing slots"),
        ("slots = 1.0\nround = ''", "wrong kind slots"),
        ("round = ''\nslots = 1", "wrong kind round"),
        ("slots = 1\nround = 2\nhost = 3", "missing gap"),
        (
            "slots = 1\nround = 2\ngap = 3\nhost = ['n']",
            "wrong kind host",
        ),
        (
            "slots = 1\nround = 2\ngap = 3\nhost = 'n'\nmode = 1",
            "missing nodes",
        ),
        (
            "slots = 1\nround = 2\ngap = 3\nhost = 'n'\nnodes = 'n'",
            "wrong kind nodes",
        ),
        (
            "slots = 1\nround = 2\ngap = 3\nhost = 'n'\nnodes = ['n', 1]",
            "wrong kind nodes",
        ),
        (
            "slots = 1\nround = 2\ngap = 3\nhost = 'n'\nnodes = []\nzone = 1",
            "missing mode",
        ),
    ] {
        assert_eq!(rt;
            fault_of(rt.alloc(), text.as_bytes())?.as_str(),
            want,
            "of {text}"
        );
    }
    Ok(())
}

#[test]
fn modes(rt: HostRuntime) -> Result<(), Fail> {
    for (modes, want) in [
        ("[mode]\nname = 'm'", "wrong kind mode"),
        ("mode = [{}, 1]", "wrong kind mode"),
        ("mode = []\nzone = 1\narea = 2", "unknown key area"),
        ("mode = []\narea = 1\nZone = 2", "unknown key ?"),
        ("mode = [{}]\nzone = 1", "unknown key zone"),
        ("mode = [{}]", "missing name"),
        ("mode = [{ app = 1, name = 1 }]", "wrong kind name"),
        ("mode = [{ name = 'm', period = 1 }]", "missing app"),
        ("mode = [{ name = 'm', app = {} }]", "wrong kind app"),
        (
            "mode = [{ name = 'm', app = [{}], period = 1 }]",
            "unknown key period",
        ),
        ("mode = [{ name = 'm', app = [{}] }, {}]", "missing name"),
        (
            "mode = [{ name = 'm', app = [{ name = 'a' }] }, {}]",
            "missing period",
        ),
    ] {
        let text = format!(in rt.alloc(); "{TOP}{modes}")?;
        assert_eq!(rt;
            fault_of(rt.alloc(), text.as_bytes())?.as_str(),
            want,
            "of {modes}"
        );
    }
    Ok(())
}

#[test]
fn applications(rt: HostRuntime) -> Result<(), Fail> {
    for (apps, want) in [
        ("{ name = 'a', deadline = '', task = 1 }", "missing period"),
        (
            "{ name = 'a', period = 1, deadline = '', task = 1 }",
            "wrong kind deadline",
        ),
        ("{ APP, message = 1 }", "missing task"),
        ("{ APP, message = 1, task = ['t'] }", "wrong kind task"),
        (
            "{ APP, task = [{}], message = [1], kind = 1 }",
            "wrong kind message",
        ),
        (
            "{ APP, task = [{}], message = [], kind = 1 }",
            "unknown key kind",
        ),
        (
            "{ APP, message = [{ name = 'x' }], task = [{ name = 't' }] }",
            "missing node",
        ),
        (
            "{ APP, task = [], message = [{ name = 'x' }] }, { name = 'b' }",
            "missing from",
        ),
        ("{ APP, task = [] }, { name = 'b' }", "missing period"),
    ] {
        let apps = apps.replace(rt.alloc(), "APP", APP)?;
        let text = format!(in rt.alloc(); "{TOP}mode = [{{ name = 'm', app = [{apps}] }}]")?;
        assert_eq!(rt;
            fault_of(rt.alloc(), text.as_bytes())?.as_str(),
            want,
            "of {apps}"
        );
    }
    Ok(())
}

#[test]
fn tasks_and_messages(rt: HostRuntime) -> Result<(), Fail> {
    for (tasks, messages, want) in [
        ("{ name = 't', wcet = '' }", "", "missing node"),
        ("{ name = 't', node = 1, wcet = '' }", "", "wrong kind node"),
        ("{ name = 't', node = 'n', body = 1 }", "", "missing wcet"),
        (
            "{ name = 't', node = 'n', wcet = 1.5 }",
            "",
            "wrong kind wcet",
        ),
        (
            "{ name = 't', node = 'n', wcet = 1, body = 1, copies = 1 }",
            "",
            "wrong kind body",
        ),
        (
            "{ name = 't', node = 'n', wcet = 1, copies = 1 }",
            "{}",
            "unknown key copies",
        ),
        (
            "{ name = 't', node = 'n', wcet = 1 }, { name = 'u' }",
            "{}",
            "missing node",
        ),
        ("", "{ name = 'x', from = 't', to = 1 }", "wrong kind from"),
        ("", "{ name = 'x', from = [], period = 1 }", "missing to"),
        (
            "",
            "{ name = 'x', from = [], to = ['t', 1], period = 1 }",
            "wrong kind to",
        ),
        (
            "",
            "{ name = 'x', from = [], to = [], copies = 1, area = 1 }",
            "unknown key area",
        ),
        (
            "",
            "{ name = 'x', from = [], to = [], copies = '2', area = 1 }",
            "wrong kind copies",
        ),
        (
            "",
            "{ name = 'x', from = [], to = 1, copies = '2' }",
            "wrong kind to",
        ),
    ] {
        let text = format!(in rt.alloc();
            "{TOP}mode = [{{ name = 'm', app = [{{ {APP}, task = [{tasks}], message = [{messages}] }}] }}]"
        )?;
        assert_eq!(rt;
            fault_of(rt.alloc(), text.as_bytes())?.as_str(),
            want,
            "of {tasks} and {messages}"
        );
    }
    Ok(())
}

#[test]
fn texts_that_are_no_toml(rt: HostRuntime) -> Result<(), Fail> {
    for text in [
        b"x = ".as_slice(),
        b"slots = 1\nslots = 2".as_slice(),
        b"slots = 9223372036854775808".as_slice(),
        b"host = '\xff'".as_slice(),
    ] {
        assert_eq!(rt; fault_of(rt.alloc(), text)?.as_str(), "not TOML");
    }
    Ok(())
}

#[test]
fn nested_arrays(rt: HostRuntime) -> Result<(), Fail> {
    for (depth, want) in [(40, "missing slots"), (1000, "not TOML")] {
        let text = format!(in rt.alloc();
            "x = {}{}",
            "[".repeat(rt.alloc(), depth)?,
            "]".repeat(rt.alloc(), depth)?
        )?;
        assert_eq!(rt;
            fault_of(rt.alloc(), text.as_bytes())?.as_str(),
            want,
            "at {depth}"
        );
    }
    Ok(())
}

#[test]
fn empty_and_long_inputs(rt: HostRuntime) -> Result<(), Fail> {
    assert_eq!(rt; fault_of(rt.alloc(), b"")?.as_str(), "missing slots");
    let spaces = vec![in rt.alloc(); b' '; 1_048_577]?;
    assert_eq!(rt;
        fault_of(rt.alloc(), spaces.as_slice())?.as_str(),
        "too long"
    );
    assert_eq!(rt;
        fault_of(rt.alloc(), &spaces[1..])?.as_str(),
        "missing slots"
    );
    Ok(())
}

#[test]
fn shown_keys(rt: HostRuntime) -> Result<(), Fail> {
    for (key, want) in [
        ("copies", "copies"),
        ("a_0", "a_0"),
        (
            "abcdefghijklmnopqrstuvwxyz012345",
            "abcdefghijklmnopqrstuvwxyz012345",
        ),
        ("abcdefghijklmnopqrstuvwxyz0123456", "?"),
        ("", "?"),
        ("a-b", "?"),
        ("\u{e9}", "?"),
    ] {
        assert_eq!(rt;
            KeyText::of(rt.alloc(), key)?.as_bytes(),
            want.as_bytes(),
            "of {key}"
        );
    }
    Ok(())
}
