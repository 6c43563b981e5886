//! Laws of the runtime. Each holds for every list of events, or of calls.

ghost use Rattle.std.specs.Prelude.{List, ℤ};
ghost use Rattle.runtime_model.specs.Laws.{BeaconGap, BeaconsInOrder, CopiesAreNear, CopiesAreNumbered, EndsFollowRuns, EntriesAreCycles, FirstCopiesAreFirst, HostsFollowEvents, HostsKeepTime, InputsHold, InputsHoldAtSlots, KeptSetsHaveRightPlans, KindsFollow, NothingIsMissing, OneRelease, OneRunAtATime, RecallLooksBack, RegistersHold, ReleasesFit, RoundsAreBegun, RunsEndBeforeSwitch, SendersAreSynced, SettledNodesKnow, SlotsFollowBeacons, StartsArePlaced, StaysAreApart, TicksRise, ValuesAreProduced};

/// A set that keeps the rules has right plans with each right schedule of its modes.
pub fn kept_sets_have_right_plans()
    ensures { KeptSetsHaveRightPlans }
{}

/// A host that stands for a list of its calls stands for the list with one more, whose condition holds.
pub fn hosts_keep_time()
    ensures { HostsKeepTime }
{}

/// The calls that events make of a host meet their conditions, and its timeline is that of the events.
pub fn hosts_follow_events()
    ensures { HostsFollowEvents }
{}

/// A node is in the state that the last two beacons and its restarts say.
pub fn kinds_follow()
    ensures { KindsFollow }
{}

/// A look back finds what some step gave, where no later one gave anything and the node is unbroken since.
pub fn recall_looks_back()
    ensures values { RecallLooksBack ℤ }
    ensures packets { RecallLooksBack (List ℤ) }
{}

/// At a placed slot the out registers of the producers have the runs of its window, or are not all full.
pub fn registers_hold()
    ensures { RegistersHold }
{}

/// At a placed start of a run the in registers have what was taken in the window of the same number.
pub fn inputs_hold()
    ensures { InputsHold }
{}

/// Consecutive beacons are at most the greatest gap apart.
pub fn beacon_gap()
    ensures { BeaconGap }
{}

/// Every run that starts in a stay ends one tick before the stay does, or earlier, and none is released in its draining hyperperiod.
pub fn runs_end_before_switch()
    ensures { RunsEndBeforeSwitch }
{}

/// The release of a slot shifts the window of its message round its round.
pub fn releases_fit()
    ensures { ReleasesFit }
{}

/// A node that missed the last beacon, or has restarted since, does not send.
pub fn senders_are_synced()
    ensures { SendersAreSynced }
{}

/// No node has two runs in progress at once, across a switch too.
pub fn one_run_at_a_time()
    ensures { OneRunAtATime }
{}

/// A node that heard the last beacon, with no change announced, knows that its hyperperiod is steady, and where the next one is.
pub fn settled_nodes_know()
    ensures { SettledNodesKnow }
{}

/// Where nothing is lost and nobody restarts, every run that is started has all its inputs.
pub fn nothing_is_missing()
    ensures { NothingIsMissing }
{}

/// The host is in a round exactly where the first beacon of the hyperperiod was sent.
pub fn rounds_are_begun()
    ensures { RoundsAreBegun }
{}

/// Ticks never fall, and no step moves on by more than a hyperperiod.
pub fn ticks_rise()
    ensures { TicksRise }
{}

/// The beacons come in the order of the rounds, hyperperiod by hyperperiod.
pub fn beacons_in_order()
    ensures { BeaconsInOrder }
{}

/// A slot follows the beacon of its round at the same tick.
pub fn slots_follow_beacons()
    ensures { SlotsFollowBeacons }
{}

/// An end is performed exactly where the run in progress is of its task, and with that run's number and value.
pub fn ends_follow_runs()
    ensures { EndsFollowRuns }
{}

/// Nothing of an earlier stay is found by looking back in another.
pub fn stays_are_apart()
    ensures values { StaysAreApart ℤ }
    ensures packets { StaysAreApart (List ℤ) }
{}

/// The entries that were done are the cycles of the timeline, one after the other.
pub fn entries_are_cycles()
    ensures { EntriesAreCycles }
{}

/// A slot has one release.
pub fn releases_are_one()
    ensures { OneRelease }
{}

/// A start that is performed is placed, and of the run of its tick.
pub fn starts_are_placed()
    ensures { StartsArePlaced }
{}

/// What was taken in a window are the values of the producers' runs of the same number.
pub fn values_are_produced()
    ensures { ValuesAreProduced }
{}

/// A slot carries one of the copies of its message, counted from 1.
pub fn copies_are_numbered()
    ensures { CopiesAreNumbered }
{}

/// The rounds that start in a window up to one of its slots are of the slot's hyperperiod or of the one before.
pub fn copies_are_near()
    ensures { CopiesAreNear }
{}

/// At a placed slot the in registers have what was taken in the slot's window: no other one filled them.
pub fn inputs_hold_at_slots()
    ensures { InputsHoldAtSlots }
{}

/// Before the slot with the first copy of a window, no node has taken anything of that window.
pub fn first_copies_are_first()
    ensures { FirstCopiesAreFirst }
{}
