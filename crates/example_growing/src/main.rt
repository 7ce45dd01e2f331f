//! A set of numbers that grows. Its words are in a `Vec` of the program, which allocates memory.
//!
//! What is proved: no call reads past the words, none panics, and each ends. A number past the
//! words is no member. No contract says which of the other numbers are members.
#![tactic(auto)]

mod growing;

use crate::growing::Growing;
use bittle::Bits;
use std::io;

/// Adds numbers, and prints of each whether it was no member before.
fn add(rt: &HostRuntime, numbers: &mut Growing) -> io::Result<()> {
    for number in [3, 200, 3, 64] {
        let added = numbers.insert(number)?;
        let words = numbers.words.len();
        println!(rt; "{number} was added: {added}, and there are {words} words")?;
    }
    Ok(())
}

/// Prints of some numbers whether they are members, and the first number from 64 on that is none.
fn ask(rt: &HostRuntime, numbers: &Growing) -> io::Result<()> {
    for number in [3, 67, 5_000_000] {
        let held = numbers.contains(number);
        println!(rt; "{number} is a member: {held}")?;
    }
    let free = numbers.next_free(64);
    println!(rt; "the first number from 64 on that is free: {free}")
}

/// Prints each member, if the words have fewer than `u32::MAX` bits.
fn print_members(rt: &HostRuntime, words: &[u64]) -> io::Result<()> {
    if words.bits_capacity() < u32::MAX {
        for number in words.iter_ones() {
            println!(rt; "{number}")?;
        }
    }
    Ok(())
}

/// Takes 200 out, and prints how many members are left, and which.
fn take_out(rt: &HostRuntime, numbers: &mut Growing) -> io::Result<()> {
    let removed = numbers.remove(200);
    let count = numbers.count();
    println!(rt; "200 was removed: {removed}, and {count} members are left")?;
    print_members(rt, numbers.words.as_slice())
}

fn main(rt: HostRuntime) -> io::Result<()> {
    let mut numbers = Growing::new(rt.alloc());
    add(&rt, &mut numbers)?;
    ask(&rt, &numbers)?;
    take_out(&rt, &mut numbers)
}
