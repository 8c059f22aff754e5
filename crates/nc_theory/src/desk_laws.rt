//! The theorems on working ahead: which outcomes stand later, and desks.

ghost use Rattle.nc_theory.specs.DeskLaws.{AnswersAreDetermined, DeskCounts, DesksAreKept, DrivesAreKept, FinishedLaw, OwnWorkStands, PlaysAreDetermined, PlaysExist, SnapshotLaw, StaleLaw, TracesDoNotMatterToDesks, UntracedStaleLaw, WindowsAreKept};

/// When an outcome stands over a later state.
pub fn stale_law()
    ensures { StaleLaw }
{}

/// The same without traces.
pub fn untraced_stale_law()
    ensures { UntracedStaleLaw }
{}

/// Every play of events leaves the desk at a state of the run, within the steps.
pub fn snapshot_law()
    ensures { SnapshotLaw }
{}

/// A desk is finished exactly where its run has an end.
pub fn finished_law()
    ensures { FinishedLaw }
{}

/// The counts of a desk add up.
pub fn desk_counts()
    ensures { DeskCounts }
{}

/// A work over the desk's own state is never dropped.
pub fn own_work_stands()
    ensures { OwnWorkStands }
{}

/// A desk's window ascends, waits, uses each index once, and holds the next signature where it is full.
pub fn window_law()
    ensures { WindowsAreKept }
{}

/// An open desk is as it should be, and each event leaves a desk so.
pub fn desks_are_kept()
    ensures { DesksAreKept }
{}

/// A desk whose window is freed, and that then handles signatures alone, stays as it should be.
pub fn drives_are_kept()
    ensures { DrivesAreKept }
{}

/// Each list of events has a play.
pub fn plays_exist()
    ensures { PlaysExist }
{}

/// A list of events leaves one desk.
pub fn plays_are_determined()
    ensures { PlaysAreDetermined }
{}

/// A claim, a work that comes in, and a ticket that is given back have one answer each.
pub fn answers_are_determined()
    ensures { AnswersAreDetermined }
{}

/// What is done to a desk without traces is done to the desk with them.
pub fn traces_do_not_matter_to_desks()
    ensures { TracesDoNotMatterToDesks }
{}
