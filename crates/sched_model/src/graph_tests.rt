//! The graph of a small mode, its name and its applications.

ghost use Rattle.std.specs.Prelude.{◌≡◌, IfOk};

use crate::verdict_tests::wide_loop;
use crate::{TaskGraph, apps_of, deadline_of, mode_name, period_of};
use std::alloc::{AllocError, Global};
use std::test::Fail;

/// The graph of a control loop: `sense` leads to `ctrl`, and `ctrl` to `act`.
fn loop_graph(alloc: Global) -> Result<TaskGraph, AllocError>
    ensures { IfOk result (λ graph. graph.tasks ≡ 3) }
{
    let set = wide_loop(alloc)?;
    Ok(TaskGraph::of(&set, 0))
}

#[test]
fn graph_of_a_loop(rt: HostRuntime) -> Result<(), Fail> {
    let graph = loop_graph(rt.alloc())?;
    assert_eq!(rt; (graph.is_first(0), graph.is_last(0)), (true, false));
    assert_eq!(rt; (graph.is_first(1), graph.is_last(1)), (false, false));
    assert_eq!(rt; (graph.is_first(2), graph.is_last(2)), (false, true));
    let of_sense = graph.sources(0);
    let of_act = graph.sources(2);
    assert_eq!(rt;
        (of_sense.has(0), of_sense.has(1), of_sense.has(2)),
        (true, false, false)
    );
    assert_eq!(rt;
        (of_act.has(0), of_act.has(1), of_act.has(2)),
        (true, true, true)
    );
    Ok(())
}

#[test]
fn name_and_applications(rt: HostRuntime) -> Result<(), Fail> {
    let set = wide_loop(rt.alloc())?;
    assert_eq!(rt; mode_name(&set, 0), b"run".as_slice());
    assert_eq!(rt; mode_name(&set, 1), b"".as_slice());
    let apps = apps_of(&set, 0);
    assert_eq!(rt; apps.len(), 1);
    for app in apps {
        assert_eq!(rt; (period_of(app), deadline_of(app)), (100, 100));
    }
    Ok(())
}
