//! Checks for tests. If a function has several checks, each is proved in a tenth of the time of an
//! `assert_eq!`. If a check fails, the output names its test. After `same!`, it shows both values.
//! After `holds!`, it shows the condition as the test writes it.
//!
//! `same!` has no text, because a check with a text takes 2.5 times as long to prove.

use std::fmt::Debug;
use std::process::Abort;

/// Checks that two values are equal. If they differ, the test ends.
macro_rules! same {
    ($rt:expr; $left:expr, $right:expr) => {
        $crate::checks::compare(&$rt, $left, $right)
    };
}

/// Checks that a condition holds. If it does not, the test ends.
macro_rules! holds {
    ($rt:expr; $condition:expr) => {
        $crate::checks::ask(&$rt, stringify!($condition), $condition)
    };
}

pub(crate) use holds;
pub(crate) use same;

/// Ends the test if two values differ, and shows both.
pub(crate) fn compare<T: PartialEq + Debug + Drop>(rt: &impl Abort, left: T, right: T) {
    if left != right {
        Err::<(), (T, T)>((left, right)).expect(rt, "two values differ")
    }
}

/// Ends the test if a condition does not hold.
pub(crate) fn ask(rt: &impl Abort, text: &str, condition: bool) {
    if !condition {
        rt.panic(text)
    }
}
