//! Cycles among the causes of values.

ghost use Rattle.std.specs.Prelude.{◌≡◌, ◌<◌, length, drop};
ghost use Rattle.tick_num.specs.Differences.{InRange, NegativeCycle};
ghost use Rattle.diff_solver.specs.Causes.{LeadsBack, ComesRound, back};

use tick_num::Diff;

/// Writes the cycle to which the causes lead back from a variable into the end of `cycle`, and
/// answers where it starts.
pub(crate) fn close(list: &[Diff], from: u32, causes: &[u32], cycle: &mut [u32]) -> usize
    requires range { InRange (length causes.now) list.now }
    requires from { from < length causes.now }
    requires size { length cycle.old ≡ length causes.now }
    requires back { LeadsBack list.now causes.now (length causes.now) from }
    ensures start { result < length cycle.new }
    ensures cycle { NegativeCycle list.now (drop result cycle.new) }
{
    let end = walk_back(list, from, causes);
    write_back(list, end, causes, cycle)
}

/// The variable to which as many causes lead back as there are variables.
fn walk_back(list: &[Diff], from: u32, causes: &[u32]) -> u32
    requires range { InRange (length causes.now) list.now }
    requires from { from < length causes.now }
    requires back { LeadsBack list.now causes.now (length causes.now) from }
    ensures reached { result ≡ back list.now causes.now from (length causes.now) }
    ensures range { result < length causes.now }
{
    let mut variable = from;
    for _step in 0..causes.len() {
        variable = list[causes[variable as usize] as usize].x;
    }
    variable
}

/// Writes the causes from a variable back to itself, the last first.
fn write_back(list: &[Diff], end: u32, causes: &[u32], cycle: &mut [u32]) -> usize
    requires range { InRange (length causes.now) list.now }
    requires end { end < length causes.now }
    requires size { length cycle.old ≡ length causes.now }
    requires round { ComesRound list.now causes.now (length causes.now) end }
    ensures start { result < length cycle.new }
    ensures cycle { NegativeCycle list.now (drop result cycle.new) }
{
    let mut variable = end;
    for start in (0..causes.len()).rev() {
        let position = causes[variable as usize];
        cycle[start] = position;
        variable = list[position as usize].x;
        if variable == end {
            return start;
        }
    }
    unreachable!()
}
