//! The theorems on runs without traces, as programs keep them.

ghost use Rattle.nc_theory.specs.UntracedLaws.{AlphabetLaw, CandidateFactsLaw, CanonicalLaw, EndFactsLaw, EnoughSteps, NextFactsLaw, OneUntracedEnd, RepresentationsInAlphabet, SnapshotFactsLaw, TracesDoNotMatter, UntracedRunsLaw, UntracedStepsLaw};

/// A state says the same with and without its traces.
pub fn traces_do_not_matter()
    ensures { TracesDoNotMatter }
{}

/// The sequential run without traces: it opens, goes on with each outcome, and is one.
pub fn untraced_runs()
    ensures { UntracedRunsLaw }
{}

/// What a program may count on that goes on with a state of the run, without traces.
pub fn snapshot_facts()
    ensures { SnapshotFactsLaw }
{}

/// The same of each candidate.
pub fn candidate_facts()
    ensures { CandidateFactsLaw }
{}

/// The same of the next signature.
pub fn next_facts()
    ensures { NextFactsLaw }
{}

/// How a run without traces goes on, step by step, and which signatures wait then.
pub fn untraced_steps()
    ensures { UntracedStepsLaw }
{}

/// What a state at an end has enough of: all within the bound where the run is complete, and else below the next signature.
pub fn end_facts()
    ensures { EndFactsLaw }
{}

/// A problem has one end, also without traces: one number of steps, one state, one way to end.
pub fn one_end()
    ensures { OneUntracedEnd }
{}

/// Each entry of a run has the one canonical polynomial at its signature.
pub fn canonical_law()
    ensures { CanonicalLaw }
{}

/// All words of a run, and those of its candidates, are over the problem's alphabet.
pub fn alphabet_law()
    ensures { AlphabetLaw }
{}

/// A representation needs no letters but those of the alphabet.
pub fn representations_in_alphabet()
    ensures { RepresentationsInAlphabet }
{}

/// With as many steps as the bound has monomials over the alphabet, each end is complete.
pub fn enough_steps()
    ensures { EnoughSteps }
{}
