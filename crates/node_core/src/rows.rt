//! Worked rows: what nodes of a loop of three tasks do, computed from the rules alone.

ghost use Rattle.node_core.specs.Rows.{ActRuns, AllConsumersCount, ControlSends, DrainEmpties, DrainPlaces, FourProducers, Misses, OneCopyIsTaken, OtherModeEmpties, SenseRuns, TablesAreParts, TakesAPacket};

/// The tables of the rows are what their nodes keep of right plans.
pub fn tables_are_parts()
    ensures { TablesAreParts }
{}

/// A node coasts past one beacon, unless the last one that it heard announced a change.
pub fn misses()
    ensures { Misses }
{}

/// Around a beacon that is lost to node 1: what each node starts, ends, sends and takes.
pub fn lost_beacon()
    ensures sense { SenseRuns }
    ensures control { ControlSends }
    ensures act { ActRuns }
{}

/// A packet that is taken is the input of the next run.
pub fn packet_taken()
    ensures { TakesAPacket }
{}

/// A beacon of another mode's round, and the end of a draining hyperperiod, empty the registers.
pub fn emptied_registers()
    ensures other_mode { OtherModeEmpties }
    ensures drain { DrainEmpties }
{}

/// A draining hyperperiod places the entries of earlier releases alone.
pub fn draining_placed()
    ensures { DrainPlaces }
{}

/// A packet has the values of all four producers of a message, or is not sent.
pub fn four_producers()
    ensures { FourProducers }
{}

/// Of two copies of a window one is taken, and all consumers on the node count.
pub fn copies_taken()
    ensures one { OneCopyIsTaken }
    ensures consumers { AllConsumersCount }
{}
