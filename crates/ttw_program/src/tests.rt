use super::*;
use std::alloc::Global;
use std::str::from_utf8;
use std::test::Fail;
use ttw_io::{MemFiles, MemSink};

/// The status of these words, with the bodies of the program.
fn status_of(
    alloc: Global,
    words: &[&str],
    files: &mut MemFiles,
    out: &mut MemSink,
) -> Result<Status, Fail> {
    let mut bodies: Vec<Box<dyn TaskBody>> = Vec::new(alloc);
    bodies.push(Box::new(alloc, Tally::make(alloc)?)?)?;
    bodies.push(Box::new(alloc, Hold::make(alloc)?)?)?;
    Ok(run(alloc, words, files, out, bodies))
}

/// One task with a period of 100 ticks, in rounds of 10 with gaps of 40.
pub(crate) const BLINK: &str =
    "slots = 2\nround = 10\ngap = 40\nhost = \"n0\"\nnodes = [\"n0\", \"n1\"]\n[[mode]]\nname = \"run\"\n[[mode.app]]\nname = \"lamp\"\nperiod = 100\ndeadline = 100\n[[mode.app.task]]\nname = \"blink\"\nnode = \"n1\"\nwcet = 3\n";

/// The files with this one, whose numbered reads fail.
fn files_with(alloc: Global, text: &str, fail: &[u64]) -> Result<MemFiles, Fail> {
    let mut files = Vec::new(alloc);
    files.push((
        "blink.toml".to_string(alloc)?,
        text.as_bytes().to_vec(alloc)?,
    ))?;
    Ok(MemFiles::make(files, fail.to_vec(alloc)?))
}

/// The status and the text of these words over a file, where the numbered reads and writes fail.
fn answer(
    alloc: Global,
    words: &[&str],
    text: &str,
    reads: &[u64],
    writes: &[u64],
) -> Result<(Status, Vec<u8>), Fail> {
    let mut files = files_with(alloc, text, reads)?;
    let mut out = MemSink::make(alloc, 4096, 8, writes.to_vec(alloc)?)?;
    let status = status_of(alloc, words, &mut files, &mut out)?;
    Ok((status, out.bytes().to_vec(alloc)?))
}

/// The text, in which the numbers of each cycle are left out: any negative cycle of the same prefix may stand there.
fn without_cycles(alloc: Global, text: &[u8]) -> Result<Vec<u8>, Fail> {
    let mut kept = Vec::new(alloc);
    for line in text.split(|byte| *byte == b'\n') {
        if line.starts_with(b"cycle ") {
            kept.extend_from_slice(b"cycle")?;
        } else {
            kept.extend_from_slice(line)?;
        }
        kept.push(b'\n')?;
    }
    let _feed_after_the_last = kept.pop();
    Ok(kept)
}

/// Whether `plan` over the mode file within the budget ends with this status and this text, up to the numbers of cycles.
fn plans(alloc: Global, file: &str, budget: &str, wanted: (Status, &str)) -> Result<bool, Fail> {
    let (status, text) = answer(alloc, &["plan", "blink.toml", budget], file, &[], &[])?;
    let text = without_cycles(alloc, text.as_slice())?;
    Ok(status == wanted.0 && text.as_slice() == wanted.1.as_bytes())
}

#[test]
fn blink_plan(rt: HostRuntime) -> Result<(), Fail> {
    let plan =
        "ttw 1\nmode run\nrefute 1\ncycle\nrefute 2\ncycle\nschedule 3\nstart 0 20 60\ntask blink 0\ntable 1\ntable 2\ntable 3\nend\n";
    assert!(rt; plans(rt.alloc(), BLINK, "10", (Status::Done, plan))?);
    assert!(rt; plans(rt.alloc(), BLINK, "3", (Status::Done, plan))?);
    let exceeded = "budget: mode run at 3 rounds\n";
    assert!(rt; plans(rt.alloc(), BLINK, "2", (Status::Budget, exceeded))?);
    Ok(())
}

#[test]
fn wcet_above_deadline(rt: HostRuntime) -> Result<(), Fail> {
    let text = BLINK.replace(rt.alloc(), "deadline = 100", "deadline = 2")?;
    let mut plan = "ttw 1\nmode run\n".to_string(rt.alloc())?;
    for rounds in ["1", "2", "3", "4", "5", "6", "7", "8", "9", "10"] {
        plan.push_str("refute ")?;
        plan.push_str(rounds)?;
        plan.push_str("\ncycle\n")?;
    }
    plan.push_str("none\nend\n")?;
    assert!(rt;
        plans(
            rt.alloc(),
            text.as_str(),
            "10",
            (Status::NoSchedule, plan.as_str())
        )?
    );
    Ok(())
}

#[test]
fn usage_lines(rt: HostRuntime) -> Result<(), Fail> {
    let words: [&[&str]; 4] = [
        &["plan", "blink.toml", "0"],
        &["plan", "blink.toml"],
        &[],
        &["plan", "blink.toml", "100001"],
    ];
    for each in words {
        let (status, text) = answer(rt.alloc(), each, BLINK, &[], &[])?;
        assert!(rt; status == Status::Usage);
        assert_eq!(rt;
            text.as_slice(),
            b"usage: plan FILE BUDGET, check FILE PLAN, tables FILE PLAN NODE, replay FILE PLAN SCRIPT, drill SEED, latency FILE BUDGET, guard FILE PPM\n".as_slice()
        );
    }
    Ok(())
}

#[test]
fn failing_sink_and_files(rt: HostRuntime) -> Result<(), Fail> {
    let (status, text) = answer(rt.alloc(), &["plan", "blink.toml", "10"], BLINK, &[1], &[])?;
    assert!(rt; status == Status::ReadFault);
    assert_eq!(rt; text.as_slice(), b"read fault\n".as_slice());
    let (status, text) = answer(rt.alloc(), &["plan", "blink.toml", "10"], BLINK, &[], &[3])?;
    assert!(rt; status == Status::WriteFault);
    assert_eq!(rt; text.as_slice(), b"ttw 1\nmode run\nr".as_slice());
    Ok(())
}

/// The plan has 117 bytes, which are written in fifteen calls. The flush is the sixteenth.
#[test]
fn failing_flush(rt: HostRuntime) -> Result<(), Fail> {
    let words = ["plan", "blink.toml", "10"];
    let (status, text) = answer(rt.alloc(), &words, BLINK, &[], &[15])?;
    assert!(rt; status == Status::WriteFault);
    assert_eq!(rt; text.len(), 112);
    let (status, text) = answer(rt.alloc(), &words, BLINK, &[], &[16])?;
    assert!(rt; status == Status::WriteFault);
    assert_eq!(rt; text.len(), 117);
    let (status, text) = answer(rt.alloc(), &words, BLINK, &[], &[17])?;
    assert!(rt; status == Status::Done);
    assert_eq!(rt; text.len(), 117);
    Ok(())
}

#[test]
fn no_round_fits(rt: HostRuntime) -> Result<(), Fail> {
    let text = BLINK.replace(rt.alloc(), "round = 10", "round = 20")?;
    let text = text
        .as_str()
        .replace(rt.alloc(), "period = 100", "period = 10")?;
    let text = text
        .as_str()
        .replace(rt.alloc(), "deadline = 100", "deadline = 10")?;
    let (status, text) = answer(
        rt.alloc(),
        &["plan", "blink.toml", "10"],
        text.as_str(),
        &[],
        &[],
    )?;
    assert!(rt; status == Status::NoSchedule);
    assert_eq!(rt; text.as_slice(), b"ttw 1\nmode run\nnone\nend\n".as_slice());
    Ok(())
}

/// A sensor, a controller and an actuator on three nodes, with a message between each two.
pub(crate) const LOOP: &str =
    "slots = 2\nround = 20\ngap = 100\nhost = \"n0\"\nnodes = [\"n0\", \"n1\", \"n2\"]\n[[mode]]\nname = \"run\"\n[[mode.app]]\nname = \"loop\"\nperiod = 100\ndeadline = 100\n[[mode.app.task]]\nname = \"sense\"\nnode = \"n1\"\nwcet = 2\n[[mode.app.task]]\nname = \"ctrl\"\nnode = \"n0\"\nwcet = 5\n[[mode.app.task]]\nname = \"act\"\nnode = \"n2\"\nwcet = 1\n[[mode.app.message]]\nname = \"m1\"\nfrom = [\"sense\"]\nto = [\"ctrl\"]\n[[mode.app.message]]\nname = \"m2\"\nfrom = [\"ctrl\"]\nto = [\"act\"]\n";

#[test]
fn loop_plan(rt: HostRuntime) -> Result<(), Fail> {
    let plan =
        "ttw 1\nmode run\nrefute 1\nbranch\ncycle\nbranch\ncycle\ncycle\ncycle\ncycle\nschedule 2\nstart 0 23\ntask sense 21\ntask ctrl 43\ntask act 120\nmessage m1 23 43\nmessage m2 48 120\ntable 1 m2\ntable 2 m1\nend\n";
    assert!(rt; plans(rt.alloc(), LOOP, "13", (Status::Done, plan))?);
    Ok(())
}

#[test]
fn loop_budget(rt: HostRuntime) -> Result<(), Fail> {
    let second = "budget: mode run at 2 rounds\n";
    assert!(rt; plans(rt.alloc(), LOOP, "12", (Status::Budget, second))?);
    assert!(rt; plans(rt.alloc(), LOOP, "7", (Status::Budget, second))?);
    let first = "budget: mode run at 1 rounds\n";
    assert!(rt; plans(rt.alloc(), LOOP, "6", (Status::Budget, first))?);
    Ok(())
}

/// Two tasks on one node that leave no room for each other.
pub(crate) const SHARE: &str =
    "slots = 1\nround = 3\ngap = 12\nhost = \"n0\"\nnodes = [\"n0\"]\n[[mode]]\nname = \"run\"\n[[mode.app]]\nname = \"a\"\nperiod = 4\ndeadline = 4\n[[mode.app.task]]\nname = \"x\"\nnode = \"n0\"\nwcet = 1\n[[mode.app]]\nname = \"b\"\nperiod = 6\ndeadline = 6\n[[mode.app.task]]\nname = \"y\"\nnode = \"n0\"\nwcet = 2\n";

#[test]
fn shared_node_refuted(rt: HostRuntime) -> Result<(), Fail> {
    let plan =
        "ttw 1\nmode run\nrefute 1\nbranch\nrefute 2\nbranch\nrefute 3\nbranch\nrefute 4\nbranch\nnone\nend\n";
    assert!(rt; plans(rt.alloc(), SHARE, "4", (Status::NoSchedule, plan))?);
    Ok(())
}

#[test]
fn shared_node_budget(rt: HostRuntime) -> Result<(), Fail> {
    let exceeded = "budget: mode run at 4 rounds\n";
    assert!(rt; plans(rt.alloc(), SHARE, "3", (Status::Budget, exceeded))?);
    Ok(())
}

#[test]
fn shared_node_plan(rt: HostRuntime) -> Result<(), Fail> {
    let file = SHARE.replace(rt.alloc(), "wcet = 2", "wcet = 1")?;
    let plan = "ttw 1\nmode run\nschedule 1\nstart 0\ntask x 3\ntask y 0\ntable 1\nend\n";
    assert!(rt; plans(rt.alloc(), file.as_str(), "3", (Status::Done, plan))?);
    let exceeded = "budget: mode run at 1 rounds\n";
    assert!(rt; plans(rt.alloc(), file.as_str(), "2", (Status::Budget, exceeded))?);
    Ok(())
}

/// Three applications, each of two tasks on nodes of their own with one message between them, for rounds of one slot.
pub(crate) fn three_messages(alloc: Global) -> Result<String, Fail> {
    let mut file =
        "slots = 1\nround = 50\ngap = 100\nhost = \"n0\"\nnodes = [\"n0\", \"n1\", \"n2\", \"n3\", \"n4\", \"n5\"]\n[[mode]]\nname = \"run\"\n".to_string(
            alloc,
        )?;
    let app =
        "[[mode.app]]\nname = \"aX\"\nperiod = 100\ndeadline = 100\n[[mode.app.task]]\nname = \"sX\"\nnode = \"nX\"\nwcet = 1\n[[mode.app.task]]\nname = \"cX\"\nnode = \"nY\"\nwcet = 1\n[[mode.app.message]]\nname = \"mX\"\nfrom = [\"sX\"]\nto = [\"cX\"]\n";
    for (first, second) in [("0", "1"), ("2", "3"), ("4", "5")] {
        let named = app.replace(alloc, "X", first)?;
        let placed = named.as_str().replace(alloc, "Y", second)?;
        file.push_str(placed.as_str())?;
    }
    Ok(file)
}

#[test]
fn slots_short(rt: HostRuntime) -> Result<(), Fail> {
    let file = three_messages(rt.alloc())?;
    let plan = "ttw 1\nmode run\nrefute 1\nshort\nrefute 2\nshort\nnone\nend\n";
    assert!(rt; plans(rt.alloc(), file.as_str(), "10", (Status::NoSchedule, plan))?);
    Ok(())
}

#[test]
fn second_mode_exceeds_the_budget(rt: HostRuntime) -> Result<(), Fail> {
    let mut file = LOOP.to_string(rt.alloc())?;
    file.push_str(
        "[[mode]]\nname = \"idle\"\n[[mode.app]]\nname = \"lamp\"\nperiod = 1300\ndeadline = 99\n[[mode.app.task]]\nname = \"blink\"\nnode = \"n2\"\nwcet = 100\n",
    )?;
    let exceeded = "budget: mode idle at 14 rounds\n";
    assert!(rt; plans(rt.alloc(), file.as_str(), "13", (Status::Budget, exceeded))?);
    Ok(())
}

/// The status and the text of the words over the mode file `loop.toml` and the plan `loop.ttw`, where the numbered reads fail.
fn answer_of_two(
    alloc: Global,
    words: &[&str],
    file: &str,
    plan: &[u8],
    reads: &[u64],
) -> Result<(Status, Vec<u8>), Fail> {
    let mut list = Vec::new(alloc);
    list.push((
        "loop.toml".to_string(alloc)?,
        file.as_bytes().to_vec(alloc)?,
    ))?;
    list.push(("loop.ttw".to_string(alloc)?, plan.to_vec(alloc)?))?;
    let mut files = MemFiles::make(list, reads.to_vec(alloc)?);
    let mut out = MemSink::make(alloc, 4096, 4096, Vec::new(alloc))?;
    let status = status_of(alloc, words, &mut files, &mut out)?;
    Ok((status, out.bytes().to_vec(alloc)?))
}

/// The status and the text of `check` over a mode file and a plan, where the numbered reads fail.
fn checked(
    alloc: Global,
    file: &str,
    plan: &[u8],
    reads: &[u64],
) -> Result<(Status, Vec<u8>), Fail> {
    answer_of_two(
        alloc,
        &["check", "loop.toml", "loop.ttw"],
        file,
        plan,
        reads,
    )
}

/// Whether `check` of the plan ends with this status and this text.
fn checks(alloc: Global, file: &str, plan: &str, wanted: (Status, &str)) -> Result<bool, Fail> {
    let (status, text) = checked(alloc, file, plan.as_bytes(), &[])?;
    Ok(status == wanted.0 && text.as_slice() == wanted.1.as_bytes())
}

/// A plan of the control loop with 20 lines.
pub(crate) const LOOP_PLAN: &str =
    "ttw 1\nmode run\nrefute 1\nbranch\ncycle 17 2 6\nbranch\ncycle 19 4 11\ncycle 19 18 9 11\ncycle 20 14 16 3\ncycle 18 7 3\nschedule 2\nstart 0 23\ntask sense 21\ntask ctrl 43\ntask act 120\nmessage m1 23 43\nmessage m2 48 120\ntable 1 m2\ntable 2 m1\nend\n";

#[test]
fn check_accepts_and_bad_leaf(rt: HostRuntime) -> Result<(), Fail> {
    let accepted = (Status::Done, "accepted\nmode run rounds 2\n");
    assert!(rt; checks(rt.alloc(), LOOP, LOOP_PLAN, accepted)?);
    let plan = LOOP_PLAN.replace(rt.alloc(), "cycle 17 2 6", "cycle 17 2 7")?;
    let refused = (Status::Plan, "plan: bad leaf line 5\n");
    assert!(rt; checks(rt.alloc(), LOOP, plan.as_str(), refused)?);
    Ok(())
}

/// The control loop, where its first message has this many copies.
pub(crate) fn loop_with_copies(alloc: Global, copies: &str) -> Result<String, Fail> {
    let line = format!(in alloc; "to = [\"ctrl\"]\ncopies = {copies}")?;
    Ok(LOOP.replace(alloc, "to = [\"ctrl\"]", line.as_str())?)
}

/// A plan of the control loop with two copies of its first message.
pub(crate) const DOUBLE_PLAN: &str =
    "ttw 1\nmode run\nrefute 1\nshort\nrefute 2\nbranch\ncycle 19 4 8\nbranch\nbranch\ncycle 23 6 13\ncycle 23 2 22 11 13\ncycle 23 22 11 13\ncycle 24 16 18 8 19\ncycle 24 16 18 5\ncycle 24 14 12 19\nbranch\nbranch\ncycle 23 6 13\ncycle 23 22 11 13\ncycle 23 0 22 11 13\ncycle 23 22 11 13\ncycle 24 16 18 5\ncycle 24 16 18 5 0\nbranch\ncycle 22 9 5\ncycle 20 9 5\ncycle 20 9 5 0\nschedule 3\nstart 0 23 43\ntask sense 21\ntask ctrl 63\ntask act 120\nmessage m1 23 63\nmessage m2 68 120\ntable 1 m2\ntable 2 m1\ntable 3 m1\nend\n";

#[test]
fn double_plan(rt: HostRuntime) -> Result<(), Fail> {
    let alloc = rt.alloc();
    let file = loop_with_copies(alloc, "2")?;
    let text = without_cycles(alloc, DOUBLE_PLAN.as_bytes())?;
    let plan = from_utf8(text.as_slice())?;
    assert!(rt; plans(alloc, file.as_str(), "31", (Status::Done, plan))?);
    let exceeded = (Status::Budget, "budget: mode run at 3 rounds\n");
    assert!(rt; plans(alloc, file.as_str(), "30", exceeded)?);
    let accepted = (Status::Done, "accepted\nmode run rounds 3\n");
    assert!(rt; checks(alloc, file.as_str(), DOUBLE_PLAN, accepted)?);
    Ok(())
}

#[test]
fn copies_out_of_range(rt: HostRuntime) -> Result<(), Fail> {
    let alloc = rt.alloc();
    for (copies, line) in [
        ("0", "modes: out of range copies\n"),
        ("5", "modes: out of range copies\n"),
        ("\"2\"", "modes: wrong kind copies\n"),
    ] {
        let file = loop_with_copies(alloc, copies)?;
        assert!(rt; plans(alloc, file.as_str(), "31", (Status::ModeFile, line))?);
    }
    Ok(())
}

#[test]
fn missing_copy(rt: HostRuntime) -> Result<(), Fail> {
    let alloc = rt.alloc();
    let file = loop_with_copies(alloc, "2")?;
    let plan = DOUBLE_PLAN.replace(alloc, "table 3 m1", "table 3")?;
    let broken = (Status::Plan, "plan: schedule run S7\n");
    assert!(rt; checks(alloc, file.as_str(), plan.as_str(), broken)?);
    Ok(())
}

#[test]
fn cut_plans(rt: HostRuntime) -> Result<(), Fail> {
    let alloc = rt.alloc();
    let behind =
        "cycle 18 7 3\nschedule 2\nstart 0 23\ntask sense 21\ntask ctrl 43\ntask act 120\nmessage m1 23 43\nmessage m2 48 120\ntable 1 m2\ntable 2 m1\nend\n";
    let cut = LOOP_PLAN.replace(alloc, behind, "")?;
    let due = (Status::Plan, "plan: grammar line 10\n");
    assert!(rt; checks(alloc, LOOP, cut.as_str(), due)?);
    let gap = LOOP_PLAN.replace(alloc, "cycle 18 7 3\n", "")?;
    let unfinished = (Status::Plan, "plan: unfinished run\n");
    assert!(rt; checks(alloc, LOOP, gap.as_str(), unfinished)?);
    let early = LOOP_PLAN.replace(alloc, "start 0 23", "start 0 22")?;
    let broken = (Status::Plan, "plan: schedule run S7\n");
    assert!(rt; checks(alloc, LOOP, early.as_str(), broken)?);
    Ok(())
}

#[test]
fn refused_plans_name_lines_and_modes(rt: HostRuntime) -> Result<(), Fail> {
    let alloc = rt.alloc();
    let names = LOOP_PLAN.replace(alloc, "task sense", "task act")?;
    let refused = (Status::Plan, "plan: names line 13\n");
    assert!(rt; checks(alloc, LOOP, names.as_str(), refused)?);
    let extra = LOOP_PLAN.replace(alloc, "cycle 18 7 3\n", "cycle 18 7 3\nbranch\n")?;
    let refused = (Status::Plan, "plan: extra line 11\n");
    assert!(rt; checks(alloc, LOOP, extra.as_str(), refused)?);
    let missing = LOOP_PLAN.replace(alloc, "schedule 2", "schedule 3")?;
    let refused = (Status::Plan, "plan: missing run 2\n");
    assert!(rt; checks(alloc, LOOP, missing.as_str(), refused)?);
    Ok(())
}

#[test]
fn checks_of_modes_without_a_schedule(rt: HostRuntime) -> Result<(), Fail> {
    let file = three_messages(rt.alloc())?;
    let plan = "ttw 1\nmode run\nrefute 1\nshort\nrefute 2\nshort\nnone\nend\n";
    let accepted = (Status::Done, "accepted\nmode run none\n");
    assert!(rt; checks(rt.alloc(), file.as_str(), plan, accepted)?);
    Ok(())
}

#[test]
fn deadline_of_hyperperiod(rt: HostRuntime) -> Result<(), Fail> {
    let plan =
        "ttw 1\nmode run\nrefute 1\ncycle 1\nrefute 2\ncycle 1 3\nschedule 3\nstart 0 20 60\ntask blink 0\ntable 1\ntable 2\ntable 3\nend\n";
    let accepted = (Status::Done, "accepted\nmode run rounds 3\n");
    assert!(rt; checks(rt.alloc(), BLINK, plan, accepted)?);
    let later = BLINK.replace(rt.alloc(), "deadline = 100", "deadline = 101")?;
    let refused = (Status::ModeFile, "modes: deadline lamp\n");
    assert!(rt; checks(rt.alloc(), later.as_str(), plan, refused)?);
    Ok(())
}

/// The mode file is read in two calls, and so is the plan.
#[test]
fn failing_reads_of_a_check(rt: HostRuntime) -> Result<(), Fail> {
    for fail in 1..5 {
        let (status, text) = checked(rt.alloc(), LOOP, LOOP_PLAN.as_bytes(), &[fail])?;
        assert!(rt; status == Status::ReadFault);
        assert_eq!(rt; text.as_slice(), b"read fault\n".as_slice());
    }
    let (status, _text) = checked(rt.alloc(), LOOP, LOOP_PLAN.as_bytes(), &[5])?;
    assert!(rt; status == Status::Done);
    Ok(())
}

/// A plan of more than 16,777,216 bytes, of which the first line is longer than a line may be.
#[test]
fn longer_plan(rt: HostRuntime) -> Result<(), Fail> {
    let mut plan = Vec::new(rt.alloc());
    plan.resize(16_777_217, b' ')?;
    let (status, text) = checked(rt.alloc(), LOOP, plan.as_slice(), &[])?;
    assert!(rt; status == Status::Plan);
    assert_eq!(rt; text.as_slice(), b"plan: grammar line 1\n".as_slice());
    Ok(())
}

/// Whether `tables` of the node over the mode file and the plan ends with this status and this text.
fn tables(
    alloc: Global,
    file: &str,
    plan: &str,
    node: &str,
    wanted: (Status, &str),
) -> Result<bool, Fail> {
    let words = ["tables", "loop.toml", "loop.ttw", node];
    let (status, text) = answer_of_two(alloc, &words, file, plan.as_bytes(), &[])?;
    Ok(status == wanted.0 && text.as_slice() == wanted.1.as_bytes())
}

/// The image of the node that sends `m1`, 82 bytes in lines of 32.
const SENSOR_IMAGE: &str =
    "0201010000000000000064000100020001000000000000000000640000000000\n0000150000000000000002000100000101000000000000000000000000000000\n000000001701010000000000000000000001\n";

#[test]
fn node_image(rt: HostRuntime) -> Result<(), Fail> {
    let alloc = rt.alloc();
    assert!(rt; tables(alloc, LOOP, LOOP_PLAN, "n1", (Status::Done, SENSOR_IMAGE))?);
    let unknown = (Status::ModeFile, "modes: unknown n9\n");
    assert!(rt; tables(alloc, LOOP, LOOP_PLAN, "n9", unknown)?);
    assert!(rt; tables(alloc, LOOP, "", "n9", unknown)?);
    let refused = (Status::Plan, "plan: grammar line 1\n");
    assert!(rt; tables(alloc, LOOP, "", "n1", refused)?);
    let words = ["tables", "loop.toml", "loop.ttw", "N1"];
    let (status, _text) = answer_of_two(alloc, &words, LOOP, LOOP_PLAN.as_bytes(), &[])?;
    assert!(rt; status == Status::Usage);
    Ok(())
}

#[test]
fn tables_want_a_schedule(rt: HostRuntime) -> Result<(), Fail> {
    let file = three_messages(rt.alloc())?;
    let plan = "ttw 1\nmode run\nrefute 1\nshort\nrefute 2\nshort\nnone\nend\n";
    let none = (Status::Plan, "plan: none run\n");
    assert!(rt; tables(rt.alloc(), file.as_str(), plan, "n0", none)?);
    Ok(())
}

/// The mode file is read in two calls, and so is the plan.
#[test]
fn failing_reads_of_tables(rt: HostRuntime) -> Result<(), Fail> {
    let words = ["tables", "loop.toml", "loop.ttw", "n1"];
    for fail in 1..5 {
        let (status, text) = answer_of_two(
            rt.alloc(),
            &words,
            LOOP,
            LOOP_PLAN.as_bytes(),
            &[fail],
        )?;
        assert!(rt; status == Status::ReadFault);
        assert_eq!(rt; text.as_slice(), b"read fault\n".as_slice());
    }
    let (status, _text) = answer_of_two(rt.alloc(), &words, LOOP, LOOP_PLAN.as_bytes(), &[5])?;
    assert!(rt; status == Status::Done);
    Ok(())
}

/// Two modes, each with one task on a node of its own.
pub(crate) const PAIR: &str =
    "slots = 1\nround = 20\ngap = 100\nhost = \"n0\"\nnodes = [\"n0\", \"n2\"]\n[[mode]]\nname = \"a\"\n[[mode.app]]\nname = \"first\"\nperiod = 100\ndeadline = 100\n[[mode.app.task]]\nname = \"x\"\nnode = \"n2\"\nwcet = 1\n[[mode]]\nname = \"b\"\n[[mode.app]]\nname = \"second\"\nperiod = 100\ndeadline = 100\n[[mode.app.task]]\nname = \"y\"\nnode = \"n2\"\nwcet = 1\n";

#[test]
fn two_modes_plan(rt: HostRuntime) -> Result<(), Fail> {
    let plan =
        "ttw 1\nmode a\nschedule 1\nstart 0\ntask x 0\ntable 1\nmode b\nschedule 1\nstart 0\ntask y 0\ntable 1\nend\n";
    assert!(rt; plans(rt.alloc(), PAIR, "2", (Status::Done, plan))?);
    Ok(())
}

#[test]
fn refused_mode_files(rt: HostRuntime) -> Result<(), Fail> {
    let alloc = rt.alloc();
    let copies = PAIR.replace(alloc, "wcet = 1", "wcet = 1\ncopies = 1")?;
    let line = "modes: unknown key copies\n";
    assert!(rt; plans(alloc, copies.as_str(), "2", (Status::ModeFile, line))?);
    let wide = BLINK.replace(alloc, "round = 10\ngap = 40", "round = 30\ngap = 20")?;
    let line = "modes: out of range gap\n";
    assert!(rt; plans(alloc, wide.as_str(), "2", (Status::ModeFile, line))?);
    let mut round = LOOP.to_string(alloc)?;
    round.push_str("[[mode.app.message]]\nname = \"m3\"\nfrom = [\"act\"]\nto = [\"sense\"]\n")?;
    let line = "modes: cycle loop\n";
    assert!(rt; plans(alloc, round.as_str(), "2", (Status::ModeFile, line))?);
    let senders = LOOP.replace(alloc, "from = [\"sense\"]", "from = [\"sense\", \"ctrl\"]")?;
    let line = "modes: two senders m1\n";
    assert!(rt; plans(alloc, senders.as_str(), "2", (Status::ModeFile, line))?);
    assert!(rt; plans(alloc, "", "2", (Status::ModeFile, "modes: missing slots\n"))?);
    assert!(rt; plans(alloc, "x = ", "2", (Status::ModeFile, "modes: not TOML\n"))?);
    Ok(())
}

/// Whether `guard` of the mode file under a drift of so many millionths ends with this status and this text.
fn guards(alloc: Global, file: &str, ppm: &str, wanted: (Status, &str)) -> Result<bool, Fail> {
    let (status, text) = answer(alloc, &["guard", "blink.toml", ppm], file, &[], &[])?;
    Ok(status == wanted.0 && text.as_slice() == wanted.1.as_bytes())
}

#[test]
fn guard_rows(rt: HostRuntime) -> Result<(), Fail> {
    let alloc = rt.alloc();
    let slow = "part 6\nguard 1\nbreak 0 1\nwake 1\n";
    assert!(rt; guards(alloc, LOOP, "100", (Status::Done, slow))?);
    assert!(rt; guards(alloc, LOOP, "1", (Status::Done, slow))?);
    let fast = "part 6\nguard 2\nbreak 1 2\nwake 37\n";
    assert!(rt; guards(alloc, LOOP, "100000", (Status::Done, fast))?);
    let long = BLINK.replace(alloc, "slots = 2", "slots = 4")?;
    let long = long.as_str().replace(alloc, "round = 10", "round = 1000")?;
    let long = long.as_str().replace(alloc, "gap = 40", "gap = 100000")?;
    let long = long.as_str().replace(alloc, " = 100\n", " = 100000\n")?;
    let next = "part 200\nguard 2\nbreak 4 0\nwake 400\n";
    assert!(rt; guards(alloc, long.as_str(), "1000", (Status::Done, next))?);
    let short = LOOP.replace(alloc, "round = 20", "round = 3")?;
    let none = "part 1\nguard none\nwake 1\n";
    assert!(rt; guards(alloc, short.as_str(), "100", (Status::Done, none))?);
    Ok(())
}

#[test]
fn guard_refusals(rt: HostRuntime) -> Result<(), Fail> {
    let alloc = rt.alloc();
    for ppm in ["0", "100001", "01", "", "1e3"] {
        let (status, _text) = answer(alloc, &["guard", "blink.toml", ppm], LOOP, &[], &[])?;
        assert!(rt; status == Status::Usage);
    }
    let broken = LOOP.replace(alloc, "gap = 100", "gap = 19")?;
    let refused = (Status::ModeFile, "modes: out of range gap\n");
    assert!(rt; guards(alloc, broken.as_str(), "100", refused)?);
    let words = ["guard", "blink.toml", "100"];
    let (status, text) = answer(alloc, &words, LOOP, &[1], &[])?;
    assert!(rt; status == Status::ReadFault);
    assert_eq!(rt; text.as_slice(), b"read fault\n".as_slice());
    let (status, text) = answer(alloc, &words, LOOP, &[], &[2])?;
    assert!(rt; status == Status::WriteFault);
    assert_eq!(rt; text.as_slice(), b"part 6\ng".as_slice());
    Ok(())
}
