//! Checks for tests. If a function has several checks, each is proved in a tenth of the time of an
//! `assert_eq!`. If a check fails, the output names its test. After `same!`, it shows both values,
//! or, if these are tuples, the first parts that differ. After `holds!`, it shows the condition as
//! the test writes it.
//!
//! `same!` has no text, because a check with a text takes 2.5 times as long to prove. Each type
//! that it compares implements `Compared`, so no test proves again that the type can be compared
//! and printed.

use std::cmp::Ordering;
use std::fmt::Debug;
use std::process::Abort;

/// Checks that two values are equal. If they differ, the test ends.
macro_rules! same {
    ($rt:expr; $left:expr, $right:expr) => {
        $crate::checks::same_values(&$rt, $left, $right)
    };
}

/// Checks that a condition holds. If it does not, the test ends.
macro_rules! holds {
    ($rt:expr; $condition:expr) => {
        $crate::checks::ask(&$rt, stringify!($condition), $condition)
    };
}

pub(crate) use holds;
pub(crate) use same;

/// A value that a test compares with the value that it expects.
pub(crate) trait Compared: Sized {
    /// Ends the test if the value differs from `wanted`. It shows `text` and both values.
    fn compare(self, wanted: Self, rt: &impl Abort, text: &str);
}

/// Ends the test if a value differs from `wanted`, and shows both.
pub(crate) fn same_values<T: Compared>(rt: &impl Abort, value: T, wanted: T) {
    value.compare(wanted, rt, "two values differ")
}

impl Compared for u32 {
    fn compare(self, wanted: u32, rt: &impl Abort, text: &str) {
        end_unless_equal(rt, text, self, wanted)
    }
}

impl Compared for usize {
    fn compare(self, wanted: usize, rt: &impl Abort, text: &str) {
        end_unless_equal(rt, text, self, wanted)
    }
}

impl Compared for bool {
    fn compare(self, wanted: bool, rt: &impl Abort, text: &str) {
        end_unless_equal(rt, text, self, wanted)
    }
}

impl Compared for Option<u32> {
    fn compare(self, wanted: Option<u32>, rt: &impl Abort, text: &str) {
        end_unless_equal(rt, text, self, wanted)
    }
}

impl Compared for Option<u64> {
    fn compare(self, wanted: Option<u64>, rt: &impl Abort, text: &str) {
        end_unless_equal(rt, text, self, wanted)
    }
}

impl Compared for Option<bool> {
    fn compare(self, wanted: Option<bool>, rt: &impl Abort, text: &str) {
        end_unless_equal(rt, text, self, wanted)
    }
}

impl Compared for [u8; 4] {
    fn compare(self, wanted: [u8; 4], rt: &impl Abort, text: &str) {
        end_unless_equal(rt, text, self, wanted)
    }
}

impl Compared for Ordering {
    fn compare(self, wanted: Ordering, rt: &impl Abort, text: &str) {
        end_unless_equal(rt, text, self, wanted)
    }
}

// A call that returns nothing returns `()`, so there is nothing to compare.
impl Compared for () {
    fn compare(self, _wanted: (), _rt: &impl Abort, _text: &str) {}
}

// The values of a pair or of a triple are compared one by one.
impl<A: Compared, B: Compared> Compared for (A, B) {
    fn compare(self, wanted: (A, B), rt: &impl Abort, text: &str) {
        let ((a, b), (first, second)) = (self, wanted);
        a.compare(first, rt, text);
        b.compare(second, rt, text);
    }
}

impl<A: Compared, B: Compared, C: Compared> Compared for (A, B, C) {
    fn compare(self, wanted: (A, B, C), rt: &impl Abort, text: &str) {
        let ((a, b, c), (first, second, third)) = (self, wanted);
        a.compare(first, rt, text);
        b.compare(second, rt, text);
        c.compare(third, rt, text);
    }
}

/// Ends the test if two values of any type differ. It shows `text` and both values.
pub(crate) fn end_unless_equal<T: PartialEq + Debug + Drop>(
    rt: &impl Abort,
    text: &str,
    left: T,
    right: T,
) {
    if left != right {
        Err::<(), (T, T)>((left, right)).expect(rt, text)
    }
}

/// Ends the test if a condition does not hold. It shows `text`.
pub(crate) fn ask(rt: &impl Abort, text: &str, condition: bool) {
    if !condition {
        rt.panic(text)
    }
}
