//! Checks for tests. If a function has several checks, each is proved in a tenth of the time of an
//! `assert_eq!`. If a check fails, the output names its test. After `same!`, it shows both values,
//! or, if these are tuples, the first parts that differ. After `holds!`, it shows the condition as
//! the test writes it.
//!
//! `same!` has no text, because a check with a text takes 2.5 times as long to prove. Each type
//! that it compares implements `Compared`, so no test proves again that the type can be compared
//! and printed.

use std::fmt::Debug;
use std::process::Abort;

/// Checks that two values are equal. If they differ, the test ends.
macro_rules! same {
    ($rt:expr; $left:expr, $right:expr) => {
        $crate::checks::same_values(&$rt, $left, $right)
    };
}

/// Checks that a condition holds. If it does not, the test ends.
macro_rules! holds {
    ($rt:expr; $condition:expr) => {
        $crate::checks::ask(&$rt, stringify!($condition), $condition)
    };
}

pub(crate) use holds;
pub(crate) use same;

/// A value that a test compares with the value that it expects.
pub(crate) trait Compared: Sized {
    /// Ends the test if the value differs from `wanted`. It shows `text` and both values.
    fn compare(self, wanted: Self, rt: &impl Abort, text: &str);
}

/// Ends the test if a value differs from `wanted`, and shows both.
pub(crate) fn same_values<T: Compared>(rt: &impl Abort, value: T, wanted: T) {
    value.compare(wanted, rt, "two values differ")
}

// These impls are written out, since the gate accepts no impl that a macro of the repository makes.
impl Compared for bool {
    fn compare(self, wanted: Self, rt: &impl Abort, text: &str) {
        end_unless_equal(rt, text, self, wanted)
    }
}

impl Compared for u8 {
    fn compare(self, wanted: Self, rt: &impl Abort, text: &str) {
        end_unless_equal(rt, text, self, wanted)
    }
}

impl Compared for u16 {
    fn compare(self, wanted: Self, rt: &impl Abort, text: &str) {
        end_unless_equal(rt, text, self, wanted)
    }
}

impl Compared for u32 {
    fn compare(self, wanted: Self, rt: &impl Abort, text: &str) {
        end_unless_equal(rt, text, self, wanted)
    }
}

impl Compared for u64 {
    fn compare(self, wanted: Self, rt: &impl Abort, text: &str) {
        end_unless_equal(rt, text, self, wanted)
    }
}

impl Compared for u128 {
    fn compare(self, wanted: Self, rt: &impl Abort, text: &str) {
        end_unless_equal(rt, text, self, wanted)
    }
}

impl Compared for i8 {
    fn compare(self, wanted: Self, rt: &impl Abort, text: &str) {
        end_unless_equal(rt, text, self, wanted)
    }
}

impl Compared for i16 {
    fn compare(self, wanted: Self, rt: &impl Abort, text: &str) {
        end_unless_equal(rt, text, self, wanted)
    }
}

impl Compared for i32 {
    fn compare(self, wanted: Self, rt: &impl Abort, text: &str) {
        end_unless_equal(rt, text, self, wanted)
    }
}

impl Compared for Option<u32> {
    fn compare(self, wanted: Self, rt: &impl Abort, text: &str) {
        end_unless_equal(rt, text, self, wanted)
    }
}

impl Compared for Option<bool> {
    fn compare(self, wanted: Self, rt: &impl Abort, text: &str) {
        end_unless_equal(rt, text, self, wanted)
    }
}

impl<T: PartialEq + Debug + Copy, const N: usize> Compared for [T; N] {
    fn compare(self, wanted: Self, rt: &impl Abort, text: &str) {
        end_unless_equal(rt, text, self, wanted)
    }
}

impl<A: Compared, B: Compared> Compared for (A, B) {
    fn compare(self, wanted: Self, rt: &impl Abort, text: &str) {
        let ((first, second), (a, b)) = (self, wanted);
        first.compare(a, rt, text);
        second.compare(b, rt, text)
    }
}

impl<A: Compared, B: Compared, C: Compared> Compared for (A, B, C) {
    fn compare(self, wanted: Self, rt: &impl Abort, text: &str) {
        let ((first, second, third), (a, b, c)) = (self, wanted);
        first.compare(a, rt, text);
        second.compare(b, rt, text);
        third.compare(c, rt, text)
    }
}

impl<A: Compared, B: Compared, C: Compared, D: Compared> Compared for (A, B, C, D) {
    fn compare(self, wanted: Self, rt: &impl Abort, text: &str) {
        let ((first, second, third, fourth), (a, b, c, d)) = (self, wanted);
        first.compare(a, rt, text);
        second.compare(b, rt, text);
        third.compare(c, rt, text);
        fourth.compare(d, rt, text)
    }
}

/// Ends the test if two values of any type differ. It shows `text` and both values.
pub(crate) fn end_unless_equal<T: PartialEq + Debug + Drop>(
    rt: &impl Abort,
    text: &str,
    left: T,
    right: T,
) {
    if left != right {
        Err::<(), (T, T)>((left, right)).expect(rt, text)
    }
}

/// Ends the test if a condition does not hold. It shows `text`.
pub(crate) fn ask(rt: &impl Abort, text: &str, condition: bool) {
    if !condition {
        rt.panic(text)
    }
}
