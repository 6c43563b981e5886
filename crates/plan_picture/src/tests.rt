//! Answers of the top call. The picture of an accepted plan is what the program's run writes (`stdout`).

use super::*;
use std::alloc::Global;
use std::test::Fail;
use ttw_io::{MemFiles, MemSink};

/// Two tasks of one node whose runs always meet, so that no number of rounds has a schedule.
const SHARE: &str =
    "slots = 1\nround = 3\ngap = 12\nhost = \"n0\"\nnodes = [\"n0\"]\n[[mode]]\nname = \"run\"\n[[mode.app]]\nname = \"a\"\nperiod = 4\ndeadline = 4\n[[mode.app.task]]\nname = \"x\"\nnode = \"n0\"\nwcet = 1\n[[mode.app]]\nname = \"b\"\nperiod = 6\ndeadline = 6\n[[mode.app.task]]\nname = \"y\"\nnode = \"n0\"\nwcet = 2\n";

/// Its plan.
const SHARE_PLAN: &str =
    "ttw 1\nmode run\nrefute 1\nbranch\nrefute 2\nbranch\nrefute 3\nbranch\nrefute 4\nbranch\nnone\nend\n";

/// The status of these words over a mode file and a plan, and how the text ends or begins.
fn answer(
    alloc: Global,
    words: &[&str],
    modes: &str,
    plan: &str,
) -> Result<(Status, Vec<u8>), Fail> {
    let mut list = Vec::new(alloc);
    for (name, text) in [("modes", modes), ("plan", plan)] {
        list.push((name.to_string(alloc)?, text.as_bytes().to_vec(alloc)?))?;
    }
    let mut files = MemFiles::make(list, Vec::new(alloc));
    let mut out = MemSink::make(alloc, 8192, 64, Vec::new(alloc))?;
    let status = draw(alloc, words, &mut files, &mut out);
    Ok((status, out.bytes().to_vec(alloc)?))
}

#[test]
fn refusals_and_a_mode_without_a_schedule(rt: HostRuntime) -> Result<(), Fail> {
    let alloc = rt.alloc();
    let usage = "usage: ttw-picture FILE PLAN\n";
    let both = ["modes", "plan"].as_slice();
    for (words, modes, plan, status, end) in [
        (
            both,
            SHARE,
            SHARE_PLAN,
            Status::Done,
            "\n<text class=\"heading\" x=\"8\" y=\"64\">mode run: hyperperiod 12 ticks, no schedule</text>\n</svg>\n",
        ),
        (
            both,
            SHARE,
            "ttw 2\n",
            Status::Plan,
            "plan: grammar line 1\n",
        ),
        (
            both,
            "slots = 1\n",
            SHARE_PLAN,
            Status::ModeFile,
            "modes: missing round\n",
        ),
        (
            &["modes", "other"],
            SHARE,
            SHARE_PLAN,
            Status::ReadFault,
            "read fault\n",
        ),
        (&["modes"], SHARE, SHARE_PLAN, Status::Usage, usage),
        (
            &["modes", "plan", "plan"],
            SHARE,
            SHARE_PLAN,
            Status::Usage,
            usage,
        ),
    ] {
        let (now, text) = answer(alloc, words, modes, plan)?;
        assert!(rt; now == status, "{end}");
        assert!(rt; text.as_slice().ends_with(end.as_bytes()), "{end}");
        assert!(rt; status == Status::Done || text.len() == end.len(), "{end}");
    }
    Ok(())
}
