//! A law of ranks that holds for every set. The function makes no calls; its contract is the law.

ghost use Rattle.bittle_ext.specs.Ranks.{RanksUndoSelection};

/// States that `rank` and `select` undo each other. If the bit at index `i` is set,
/// `select(rank(i))` returns `Some(i)`. If `select(r)` returns `Some(i)`, `rank(i)` returns `r`.
pub fn rank_and_select_undo_one_another()
    ensures { RanksUndoSelection }
{}
