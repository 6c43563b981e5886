//! Scripts with their lines or their fault: each form, each fault, and both sides of each limit.

ghost use Rattle.std.specs.Prelude.{IfOk};
ghost use Rattle.app_graph.specs.Validation.{KeepsRules};

use crate::{Line, ScriptFault, cut_law, read_script, script_rows};
use app_graph::{GraphFault, ListOf, ModeSet, Name, RawApp, RawMode, RawSet, RawTask, validate};
use std::alloc::{AllocError, Global};
use std::test::Fail;
use ttw_text::Out;

fn names(alloc: Global, texts: &[&str]) -> Result<ListOf<Name>, AllocError> {
    let mut list = Vec::new(alloc);
    for text in texts {
        list.push(Name::copied(alloc, text.as_bytes())?)?;
    }
    Ok(ListOf::from_vec(list))
}

/// A mode with one task on the node `n1`.
fn mode(alloc: Global, name: &[u8]) -> Result<RawMode, AllocError> {
    let task = RawTask {
        name: Name::copied(alloc, b"blink")?,
        node: Name::copied(alloc, b"n1")?,
        wcet: 1,
        body: Name::copied(alloc, b"tally")?,
    };
    let app = RawApp {
        name: Name::copied(alloc, b"lamp")?,
        period: 100,
        deadline: 100,
        tasks: ListOf::from_vec(vec![in alloc; task]?),
        messages: ListOf::from_vec(Vec::new(alloc)),
    };
    Ok(RawMode {
        name: Name::copied(alloc, name)?,
        apps: ListOf::from_vec(vec![in alloc; app]?),
    })
}

fn raw_with(alloc: Global, nodes: &[&str]) -> Result<RawSet, AllocError> {
    let run = mode(alloc, b"run")?;
    let idle = mode(alloc, b"idle")?;
    Ok(RawSet {
        slots: 2,
        round: 20,
        gap: 100,
        host: Name::copied(alloc, b"n0")?,
        nodes: names(alloc, nodes)?,
        modes: ListOf::from_vec(vec![in alloc; run, idle]?),
    })
}

/// A set with the modes `run` and `idle`, and with the host `n0`.
fn set_with(alloc: Global, nodes: &[&str]) -> Result<ModeSet, GraphFault>
    ensures { IfOk result KeepsRules }
{
    let raw = raw_with(alloc, nodes)?;
    validate(alloc, &raw)
}

/// Whether the script gives these lines, or this fault.
fn gives(alloc: Global, set: &ModeSet, text: &[u8], wanted: &Result<&[Line], ScriptFault>) -> bool
    requires { KeepsRules set.now }
{
    match (read_script(alloc, set, text), wanted) {
        (Ok(script), Ok(lines)) => script.as_slice() == *lines,
        (Err(fault), Err(wanted)) => fault == *wanted,
        _ => false,
    }
}

const NODES: [&str; 3] = ["n0", "n1", "n2"];

/// The nodes of a full set.
const ALL_NODES: [&str; 64] = [
    "n0", "n1", "n2", "n3", "n4", "n5", "n6", "n7", "n8", "n9", "n10", "n11", "n12", "n13", "n14",
    "n15", "n16", "n17", "n18", "n19", "n20", "n21", "n22", "n23", "n24", "n25", "n26", "n27",
    "n28", "n29", "n30", "n31", "n32", "n33", "n34", "n35", "n36", "n37", "n38", "n39", "n40",
    "n41", "n42", "n43", "n44", "n45", "n46", "n47", "n48", "n49", "n50", "n51", "n52", "n53",
    "n54", "n55", "n56", "n57", "n58", "n59", "n60", "n61", "n62", "n63",
];

/// One script in each row, in which `|` stands for a line feed; behind the `=` stands what it gives, each line and each fault behind a space: a request as its mode, a restart as its node.
const SCRIPTS: &str = "=
|=
|||=
#=
# go 1|=
#||# restart n0=
# é\r|=
#go 1|go 2= go 2
go 5= go 5
go 0|= go 0
go 1000000= go 1000000
go 1000001= bad line 1
go 01= bad line 1
go 00= bad line 1
go  1= bad line 1
 go 1= bad line 1
go 1 = bad line 1
go= bad line 1
go = bad line 1
go 1 2= bad line 1
go -1= bad line 1
go 18446744073709551616= bad line 1
go x= bad line 1
Go 1= bad line 1
go 1\r|= bad line 1
\r|= bad line 1
 = bad line 1
 # x= bad line 1
go\t1= bad line 1
leave= bad line 1
until beacon|= until beacon
until  beacon= bad line 1
until= bad line 1
until beacons= bad line 1
until beacon x= bad line 1
until 1= bad line 1
lose n1= lose 2
lose n0= lose 1
lose n1 n1= lose 2
lose n2 n0 n2= lose 5
lose n0 n1 n2= lose 7
lose= bad line 1
lose = bad line 1
lose n1  n2= bad line 1
lose n1 = bad line 1
lose N1= bad line 1
lose n1,n2= bad line 1
lose n9 N1= bad line 1
lose abcdefghijklmnopqrstuvwxyz_012345= bad line 1
lose n9= unknown line 1
lose n1 n9= unknown line 1
lose run= unknown line 1
lose n= unknown line 1
lose n11= unknown line 1
lose abcdefghijklmnopqrstuvwxyz_01234= unknown line 1
request run= mode 0
request idle|= mode 1
request= bad line 1
request run idle= bad line 1
request Run= bad line 1
request n1= unknown line 1
request ru= unknown line 1
restart n1= node 1
restart n2|restart n2|= node 2 node 2
restart n1 n2= bad line 1
restart n0 n9= bad line 1
restart n9= unknown line 1
restart n0= host line 1
|#|restart n0|xx= host line 3
restart n9|restart n0= unknown line 1
go 1|xx|lose n9= bad line 2
go 1000000|go 1000000= too many line 2
go 1000000|#|go 0|= go 1000000 go 0
go 1000000|go 1= too many line 2
go 1000000|xx= bad line 2
go 1000001|go 1000000= bad line 1
go 1000000|go 1000001= bad line 2
go 600000|until beacon|go 400001= too many line 3
go 600000|go 400000|lose n1= go 600000 go 400000 lose 2
go 6|lose n1|go 9|= go 6 lose 2 go 9";

/// A word and its number, behind a space.
fn tell(word: &str, number: u64, out: &mut Out) -> Result<(), AllocError> {
    out.put(b" ")?;
    out.put(word.as_bytes())?;
    out.put(b" ")?;
    out.number(number)
}

fn tell_line(line: Line, out: &mut Out) -> Result<(), AllocError> {
    match line {
        Line::Go(steps) => tell("go", steps, out),
        Line::UntilBeacon => out.put(b" until beacon"),
        Line::Lose(nodes) => tell("lose", nodes, out),
        Line::Request(mode) => tell("mode", u64::from(mode), out),
        Line::Restart(node) => tell("node", u64::from(node), out),
    }
}

fn tell_fault(fault: ScriptFault, out: &mut Out) -> Result<(), AllocError> {
    match fault {
        ScriptFault::BadLine(line) => tell("bad line", line, out),
        ScriptFault::Unknown(line) => tell("unknown line", line, out),
        ScriptFault::HostNamed(line) => tell("host line", line, out),
        ScriptFault::TooMany(line) => tell("too many line", line, out),
        ScriptFault::Memory => out.put(b" memory"),
    }
}

/// The script of a row.
fn script_of(alloc: Global, row: &[u8]) -> Result<Vec<u8>, AllocError> {
    let mut text = Vec::new(alloc);
    for byte in row {
        text.push(if *byte == b'|' { b'\n' } else { *byte })?;
    }
    Ok(text)
}

/// What a script gives, as a row has it.
fn told(alloc: Global, answer: &Result<ListOf<Line>, ScriptFault>) -> Result<Out, AllocError> {
    let mut out = Out::make(alloc);
    match answer {
        Err(fault) => tell_fault(*fault, &mut out)?,
        Ok(script) => {
            for line in script.as_slice() {
                tell_line(*line, &mut out)?;
            }
        }
    }
    Ok(out)
}

/// Whether the script before the `=` of a row gives what stands behind it.
fn is_right(alloc: Global, set: &ModeSet, row: &[u8]) -> Result<bool, AllocError>
    requires { KeepsRules set.now }
{
    let Some(at) = row.iter().position(|byte| *byte == b'=') else {
        return Ok(false);
    };
    let text = script_of(alloc, &row[..at])?;
    let out = told(alloc, &read_script(alloc, set, text.as_slice()))?;
    Ok(out.bytes() == &row[at + 1..])
}

#[test]
fn script_faults(rt: HostRuntime) -> Result<(), Fail> {
    let Ok(set) = set_with(rt.alloc(), &NODES) else {
        panic!(rt; "the set breaks a rule");
    };
    for row in SCRIPTS.as_bytes().split(|byte| *byte == b'\n') {
        let right = is_right(rt.alloc(), &set, row)?;
        assert!(rt; right, "{row:?}");
    }
    script_rows();
    cut_law();
    Ok(())
}

/// A text that has the piece so many times, and then the rest.
fn repeated(alloc: Global, piece: &[u8], times: usize, rest: &[u8]) -> Result<Vec<u8>, AllocError> {
    let mut text = Vec::new(alloc);
    for _ in 0..times {
        text.extend_from_slice(piece)?;
    }
    text.extend_from_slice(rest)?;
    Ok(text)
}

/// Whether the text that has the piece so many times, and then the rest, gives these lines or this fault.
fn repeated_gives(
    alloc: Global,
    piece: &[u8],
    times: usize,
    rest: &[u8],
    wanted: &Result<&[Line], ScriptFault>,
) -> Result<bool, GraphFault> {
    let set = set_with(alloc, &NODES)?;
    let text = repeated(alloc, piece, times, rest)?;
    Ok(gives(alloc, &set, text.as_slice(), wanted))
}

/// What stands behind 9,999 and 10,000 empty lines, with the lines or the fault of the whole.
const BEHIND_LINES: [(usize, &str, Result<&[Line], ScriptFault>); 9] = [
    (9_999, "go 1", Ok(&[Line::Go(1)])),
    (9_999, "go 1\n", Ok(&[Line::Go(1)])),
    (9_999, "lose n9", Err(ScriptFault::Unknown(10_000))),
    (10_000, "", Ok(&[])),
    (10_000, "\n", Err(ScriptFault::TooMany(10_001))),
    (10_000, "#", Err(ScriptFault::TooMany(10_001))),
    (10_000, "go 1", Err(ScriptFault::TooMany(10_001))),
    (10_000, "xx", Err(ScriptFault::TooMany(10_001))),
    (10_000, "restart n0\nxx", Err(ScriptFault::TooMany(10_001))),
];

#[test]
fn ten_thousand_lines(rt: HostRuntime) {
    for (times, rest, wanted) in &BEHIND_LINES {
        let answer = repeated_gives(rt.alloc(), b"\n", *times, rest.as_bytes(), wanted);
        assert!(rt; matches!(answer, Ok(true)), "{times} lines and {rest}");
    }
}

/// How many `#` stand before this end, with the lines or the fault of that script.
const LONG_LINES: [(usize, &str, Result<&[Line], ScriptFault>); 6] = [
    (4_096, "", Ok(&[])),
    (4_096, "\n", Ok(&[])),
    (4_096, "\ngo 1", Ok(&[Line::Go(1)])),
    (4_097, "", Err(ScriptFault::BadLine(1))),
    (4_097, "\n", Err(ScriptFault::BadLine(1))),
    (4_095, "#\n#\nxx", Err(ScriptFault::BadLine(3))),
];

/// How many `n1 ` stand behind `lose ` and before this end. `lose ` and 1,363 of these have 4,094 bytes.
const LONG_LOSSES: [(usize, &str, Result<&[Line], ScriptFault>); 3] = [
    (1_363, "n2", Ok(&[Line::Lose(6)])),
    (1_363, "n2\n", Ok(&[Line::Lose(6)])),
    (1_363, "n22", Err(ScriptFault::BadLine(1))),
];

#[test]
fn line_of_4096_bytes(rt: HostRuntime) -> Result<(), Fail> {
    for (times, rest, wanted) in &LONG_LINES {
        let answer = repeated_gives(rt.alloc(), b"#", *times, rest.as_bytes(), wanted);
        assert!(rt; matches!(answer, Ok(true)), "{times} bytes and {rest}");
    }
    let Ok(set) = set_with(rt.alloc(), &NODES) else {
        panic!(rt; "the set breaks a rule");
    };
    for (times, rest, wanted) in &LONG_LOSSES {
        let words = repeated(rt.alloc(), b"n1 ", *times, rest.as_bytes())?;
        let text = repeated(rt.alloc(), b"lose ", 1, words.as_slice())?;
        assert!(rt;
            gives(rt.alloc(), &set, text.as_slice(), wanted),
            "{times} words and {rest}"
        );
    }
    Ok(())
}

/// How many lines of 4,096 bytes, their line feed included, stand before how many `#` and this end; with the lines or the fault of the
/// whole. 256 of those lines have 1,048,576 bytes.
const LONG_SCRIPTS: [(usize, usize, &str, Result<&[Line], ScriptFault>); 9] = [
    (256, 0, "", Ok(&[])),
    (256, 0, "\n", Err(ScriptFault::TooMany(257))),
    (256, 0, "#", Err(ScriptFault::TooMany(257))),
    (256, 0, "restart n0", Err(ScriptFault::TooMany(257))),
    (255, 4_096, "", Ok(&[])),
    (255, 4_096, "\n", Err(ScriptFault::TooMany(256))),
    (255, 4_097, "", Err(ScriptFault::TooMany(256))),
    (255, 4_091, "\ngo 7", Ok(&[Line::Go(7)])),
    (255, 4_091, "\ngo 7\n", Err(ScriptFault::TooMany(257))),
];

#[test]
fn script_of_1048576_bytes(rt: HostRuntime) -> Result<(), Fail> {
    let Ok(set) = set_with(rt.alloc(), &NODES) else {
        panic!(rt; "the set breaks a rule");
    };
    let line = repeated(rt.alloc(), b"#", 4_095, b"\n")?;
    for (lines, times, end, wanted) in &LONG_SCRIPTS {
        let rest = repeated(rt.alloc(), b"#", *times, end.as_bytes())?;
        let text = repeated(rt.alloc(), line.as_slice(), *lines, rest.as_slice())?;
        assert!(rt;
            gives(rt.alloc(), &set, text.as_slice(), wanted),
            "{lines} lines, {times} and {end}"
        );
    }
    Ok(())
}

/// Scripts for a set of 64 nodes.
const FULL_SCRIPTS: [(&str, Result<&[Line], ScriptFault>); 4] = [
    ("lose n63", Ok(&[Line::Lose(9_223_372_036_854_775_808)])),
    (
        "lose n63 n0 n32",
        Ok(&[Line::Lose(9_223_372_041_149_743_105)]),
    ),
    ("restart n63", Ok(&[Line::Restart(63)])),
    ("lose n64", Err(ScriptFault::Unknown(1))),
];

#[test]
fn sixty_four_nodes(rt: HostRuntime) -> Result<(), Fail> {
    let Ok(set) = set_with(rt.alloc(), &ALL_NODES) else {
        panic!(rt; "the set breaks a rule");
    };
    for (text, wanted) in &FULL_SCRIPTS {
        assert!(rt; gives(rt.alloc(), &set, text.as_bytes(), wanted), "{text}");
    }
    let mut whole = Vec::from_slice(rt.alloc(), b"lose")?;
    for node in &ALL_NODES {
        whole.extend_from_slice(b" ")?;
        whole.extend_from_slice(node.as_bytes())?;
    }
    let all = Ok([Line::Lose(u64::MAX)].as_slice());
    assert!(rt;
        gives(rt.alloc(), &set, whole.as_slice(), &all),
        "all nodes"
    );
    Ok(())
}
