//! Laws of every history of calls. Each function does nothing: its contract is the law. The clause
//! `stages` of each call states how the call changes the stages of keys. In a history
//! (`IsHistory`), each call changes them so.

ghost use Rattle.bit_slots.specs.KeyLaws.{KeysGoOn, RemovedKeysFindNothing, KeysAreGivenOnce};
ghost use Rattle.bit_slots.specs.KeyLaws.{KeysNotGivenFindNothing, KeysGivenBeforeAreNotGiven};
ghost use Rattle.bit_slots.specs.KeyLaws.{GivenThenRemovedKeysFindNothing, KeysAreKept};
ghost use Rattle.bit_slots.specs.KeyLaws.{KeysFindTheirValues};

/// States that no key goes back to an earlier stage. A key first stands for nothing yet, then for a
/// value, and then for nothing any more.
pub fn keys_go_on<V>()
    ensures { KeysGoOn V }
{}

/// States that a key that was given before a history of calls finds nothing after it, if one of the
/// calls is `remove` with the key.
pub fn removed_keys_find_nothing<V>()
    ensures { RemovedKeysFindNothing V }
{}

/// States that a key that a call of a history gives finds nothing after it, if a later call is
/// `remove` with the key.
pub fn given_then_removed_keys_find_nothing<V>()
    ensures { GivenThenRemovedKeysFindNothing V }
{}

/// States that a key that finds a value before a history of calls finds it after the history,
/// unless one of the calls removes the key or gives it another value.
pub fn keys_are_kept<V>()
    ensures { KeysAreKept V }
{}

/// States that a key that a call of a history gave, or whose value a call replaced, finds the value
/// of that call after the history, unless a later call removes the key or gives it another value.
/// A call of `update` that returns `true` replaces the key's value.
pub fn keys_find_their_values<V>()
    ensures { KeysFindTheirValues V }
{}

/// States that no call of a history gives a key that was given before it.
pub fn keys_given_before_are_not_given<V>()
    ensures { KeysGivenBeforeAreNotGiven V }
{}

/// States that no two calls of a history give the same key.
pub fn keys_are_given_once<V>()
    ensures { KeysAreGivenOnce V }
{}

/// States that a key that finds nothing before a history of calls finds nothing after it, unless
/// one of the calls gives this key. So a key of another table finds nothing, as long as this table
/// has not given the same key.
pub fn keys_not_given_find_nothing<V>()
    ensures { KeysNotGivenFindNothing V }
{}
