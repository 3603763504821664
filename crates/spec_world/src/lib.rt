//! The model of one node over all its runs (its world), and what the node never takes back. Each law is the contract of an empty function.
#![tactic(auto)]

ghost use Rattle.spec_world.specs.Lasting.{SettledGrows, GivenStays, EventsCameIn, GivenVotesAreSettled, GivenOrdersAreSettled};
ghost use Rattle.spec_world.specs.Promise.{NothingTakenBack, WhatGoesOutAgrees};
ghost use Rattle.spec_world.specs.Runs.{RunsBegin, RunsBeginOnTwo, StopsArePossible, RunsGoOn, RunsBeginWithWhatStands, RunsBeginAtStates, HistoriesBegin, HistoriesBeginOnTwo, GroupsSettle, TwoGroupsSettle, AppendsMakeCalls, CheckpointsSettle, SnapshotsAreCheckpoints, RewritingsMakeCalls};
ghost use Rattle.spec_world.specs.Scripts.{ScriptsAreRuns, ScriptsBegin};

/// For every list of runs of a node, with accepts, takes, writes, syncs, settlements and releases in any order, and each run stopped at any
/// moment, also inside a write: recovery finds the state of a prefix of the accepted events. That prefix has every event whose output was
/// given out. No two votes given out differ for the same author and round, and each order given out is a prefix of every later one.
pub fn never_takes_back()
    ensures { NothingTakenBack }
{}

/// Runs exist: if the node's keys have 32 bytes each, a run can begin on what an opening makes of one empty disk, whatever the stakes are.
pub fn runs_begin()
    ensures { RunsBegin }
{}

/// Runs exist on two disks too: one can begin on what an opening makes of two empty disks.
pub fn runs_begin_on_two()
    ensures { RunsBeginOnTwo }
{}

/// At each moment of a run a stop may lose nothing: what it leaves may be what a read of each disk gives.
pub fn stops_are_possible()
    ensures { StopsArePossible }
{}

/// Whatever a stop leaves at any moment of a run, a new run can begin on it, with as many disks as before.
pub fn runs_go_on()
    ensures { RunsGoOn }
{}

/// A new run can begin with each history that recovery may find, if what the stop left is read as the state of that history; what was given
/// out stays on record.
pub fn runs_begin_with_what_stands()
    ensures { RunsBeginWithWhatStands }
{}

/// After a stop a new run can begin at each state that is read from what the stop left.
pub fn runs_begin_at_states()
    ensures { RunsBeginAtStates }
{}

/// With each legal history some run of a node can begin, if its keys have 32 bytes each, on any disks that an opening may leave at that
/// history's state. So a law about every run that has just begun on disks which are read as its state speaks of some run.
pub fn histories_begin()
    ensures { HistoriesBegin }
{}

/// With each legal history some run can begin on two disks, whichever of them is read, and with each generation of 64 bits.
pub fn histories_begin_on_two()
    ensures { HistoriesBeginOnTwo }
{
    spec_checkpoint::blank_is_fresh();
}

/// If no group is in flight, accepted events that fit a group can be settled: they are taken, written and synced, their gate is opened and
/// synced, and they are settled. The disk is then read as what is settled, and nothing else has changed.
pub fn groups_settle()
    ensures { GroupsSettle }
{}

/// Several groups can be in flight: a second one can be taken and written before the first is settled; then both are settled.
pub fn two_groups_settle()
    ensures { TwoGroupsSettle }
{}

/// The four device calls of an append in the model are those that `Journal::append` makes on its disk. The spare disk stays as it is.
pub fn appends_make_calls()
    ensures { AppendsMakeCalls }
{}

/// On two disks, if no group is in flight, a checkpoint of all accepted events can be settled: all events are taken, and the spare disk is
/// rewritten by eight device calls, with the last of which the disks change places.
pub fn checkpoints_settle()
    ensures { CheckpointsSettle }
{}

/// What `Journal::rewrite` writes of a snapshot is a checkpoint of the state whose records follow the configuration in it.
pub fn snapshots_are_checkpoints()
    ensures { SnapshotsAreCheckpoints }
{}

/// The eight device calls of a rewriting in the model are those that `Journal::rewrite` makes on the spare disk, which is read afterwards.
pub fn rewritings_make_calls()
    ensures { RewritingsMakeCalls }
{}

/// The settled history only grows, over each move and each stop. For a stop that follows because a restart begins with a history that
/// recovery may find; that each stop leaves the state of one is part of `never_takes_back`.
pub fn settled_grows()
    ensures { SettledGrows }
{}

/// Whatever was given out is still on record as given out after each move and each stop.
pub fn given_stays()
    ensures { GivenStays }
{}

/// Each event in a node's history was accepted by a move of this run or of an earlier one. For a stop that follows because a restart begins
/// with a history that recovery may find; that each stop leaves the state of one is part of `never_takes_back`.
pub fn events_came_in()
    ensures { EventsCameIn }
{}

/// For each vote that was given out, the durable history has the same vote for its author and round.
pub fn given_votes_are_settled()
    ensures { GivenVotesAreSettled }
{}

/// Each order that was given out is a prefix of the order that the durable history leads to.
pub fn given_orders_are_settled()
    ensures { GivenOrdersAreSettled }
{}

/// What goes out within one legal history never contradicts itself: no two votes differ for the same author and round, and each order is a
/// prefix of every later one. This covers all that several threads collect, if it goes out within what a stop leaves.
pub fn what_goes_out_agrees()
    ensures { WhatGoesOutAgrees }
{}

/// What a script writes is what some run gives out: a run that is at the script's desk can go on by moves at which it gives out exactly the
/// frames that the commands write, and is then at the desk after them. The command `checkpoint` writes what settling everything writes;
/// that a rewriting settles it is `checkpoints_settle`.
pub fn scripts_are_runs()
    ensures { ScriptsAreRuns }
{}

/// A run that has just begun is at the desk of a script whose base is the state kept of the run's history.
pub fn scripts_begin()
    ensures { ScriptsBegin }
{}
