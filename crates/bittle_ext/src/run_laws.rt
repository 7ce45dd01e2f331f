//! A law of runs that holds for every set. The function makes no calls; its contract is the law.

ghost use Rattle.bittle_ext.specs.Runs.{RunsAreMaximal};

/// States that the runs of a set are its maximal runs of set bits, in increasing order, and that
/// each set bit lies in one of them.
pub fn runs_are_maximal()
    ensures { RunsAreMaximal }
{}
