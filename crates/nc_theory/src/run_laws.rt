//! The theorems on runs, bases and labels.

ghost use Rattle.nc_theory.specs.Laws.{AscentLaw, ClosureTheorem, CompletenessTheorem, CountLaw, DegreeLimit, FrontLaw, ItemsAreReached, LabelLaw, LettersLaw, MembershipTheorem, OneEnd, OutcomesExist, RebuildingLaw, ReductionLaw, RepresentationLaw, RunsAreClosed, RunsAreDetermined, RunsAreSound, RunsAscend, RunsGoOn, StepLimit, TrivialSyzygyLaw, UniquenessTheorem, WaitingLaw};

/// A run has one state at each number of steps, and each signature one outcome over it.
pub fn runs_are_determined()
    ensures { RunsAreDetermined }
{}

/// Each problem has an end, and one alone.
pub fn one_end()
    ensures { OneEnd }
{}

/// Entries and syzygies ascend, and leading words are pairwise different.
pub fn runs_ascend()
    ensures { RunsAscend }
{}

/// Each entry and each syzygy lies within the bound, and below what comes after the last signature handled.
pub fn items_are_reached()
    ensures { ItemsAreReached }
{}

/// Either a candidate is left, and one is the next, or none is left.
pub fn runs_go_on()
    ensures { RunsGoOn }
{}

/// Each handled signature is counted once.
pub fn count_law()
    ensures { CountLaw }
{}

/// Each entry and each syzygy of a run has a label.
pub fn runs_are_sound()
    ensures { RunsAreSound }
{}

/// The label of an entry or a syzygy is the one that its trace gives.
pub fn label_law()
    ensures { LabelLaw }
{}

/// What is reached at a signature weighs at most its degree.
pub fn degree_limit()
    ensures { DegreeLimit }
{}

/// Ambiguities with a new entry have greater signatures.
pub fn ascent_law()
    ensures { AscentLaw }
{}

/// Which signatures wait after a step.
pub fn waiting_law()
    ensures { WaitingLaw }
{}

/// A closed state has enough entries and syzygies, for each bound.
pub fn closure_theorem()
    ensures { ClosureTheorem }
{}

/// A run is closed below its next signature.
pub fn runs_are_closed()
    ensures { RunsAreClosed }
{}

/// A complete end has enough for the whole bound, and another end below the next signature.
pub fn completeness_theorem()
    ensures { CompletenessTheorem }
{}

/// An entry's polynomial is the one canonical polynomial at its signature.
pub fn uniqueness_theorem()
    ensures { UniquenessTheorem }
{}

/// What is left of a claim is zero exactly where it has a representation.
pub fn membership_theorem()
    ensures { MembershipTheorem }
{}

/// Entries with a signature of at least τ do not matter at τ.
pub fn front_law()
    ensures { FrontLaw }
{}

/// Each listed item is rebuilt from the entries with lesser signatures.
pub fn rebuilding_law()
    ensures { RebuildingLaw }
{}

/// A run over finitely many letters is no longer than its bound's list of monomials.
pub fn step_limit()
    ensures { StepLimit }
{}

/// What is left of a claim, and the module element that was taken off.
pub fn representation_law()
    ensures { RepresentationLaw }
{}

/// Each candidate has an outcome.
pub fn outcomes_exist()
    ensures { OutcomesExist }
{}

/// A run's words are over the letters of its generators.
pub fn letters_law()
    ensures { LettersLaw }
{}

/// Where a trivial syzygy signature divides a signature.
pub fn trivial_syzygy_law()
    ensures { TrivialSyzygyLaw }
{}

/// Each polynomial has one reduction at a signature, and one within the bound.
pub fn reduction_law()
    ensures { ReductionLaw }
{}
