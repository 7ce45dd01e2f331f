//! The debug texts of the types of `replay`: calls, replies, orders and steps.

use crate::checks::same;
use bittle::replay::{Call, Reply, Side, Step};
use std::alloc::{AllocError, Global};
use std::fmt::Debug;
use std::process::Abort;
use std::test::Fail;

// Checks the debug text of a value.
fn reads<T: Debug>(
    rt: &impl Abort,
    alloc: Global,
    value: &T,
    text: &str,
) -> Result<(), AllocError> {
    same!(*rt; format!(in alloc; "{value:?}")?.as_str(), text);
    Ok(())
}

#[test]
fn calls_are_named_with_their_index(rt: HostRuntime) -> Result<(), Fail> {
    reads(&rt, rt.alloc(), &Call::Test(0), "Test(0)")?;
    reads(&rt, rt.alloc(), &Call::Put(9), "Put(9)")?;
    reads(
        &rt,
        rt.alloc(),
        &Call::Clear(4_294_967_295),
        "Clear(4294967295)",
    )?;
    Ok(())
}

#[test]
fn calls_on_all_bits_are_named(rt: HostRuntime) -> Result<(), Fail> {
    reads(&rt, rt.alloc(), &Call::ClearAll, "ClearAll")?;
    reads(&rt, rt.alloc(), &Call::CountOnes, "CountOnes")?;
    reads(&rt, rt.alloc(), &Call::CountZeros, "CountZeros")?;
    reads(&rt, rt.alloc(), &Call::AllZeros, "AllZeros")?;
    reads(&rt, rt.alloc(), &Call::AllOnes, "AllOnes")?;
    reads(&rt, rt.alloc(), &Call::Capacity, "Capacity")?;
    Ok(())
}

#[test]
fn replies_are_named_with_what_they_hold(rt: HostRuntime) -> Result<(), Fail> {
    reads(&rt, rt.alloc(), &Reply::Done, "Done")?;
    reads(&rt, rt.alloc(), &Reply::Bit(true), "Bit(true)")?;
    reads(&rt, rt.alloc(), &Reply::Bit(false), "Bit(false)")?;
    reads(&rt, rt.alloc(), &Reply::Number(100_000), "Number(100000)")?;
    Ok(())
}

#[test]
fn orders_and_steps_are_named(rt: HostRuntime) -> Result<(), Fail> {
    reads(&rt, rt.alloc(), &Side::Big, "Big")?;
    reads(&rt, rt.alloc(), &Side::Little, "Little")?;
    reads(&rt, rt.alloc(), &Step::Front, "Front")?;
    reads(&rt, rt.alloc(), &Step::Back, "Back")?;
    Ok(())
}
