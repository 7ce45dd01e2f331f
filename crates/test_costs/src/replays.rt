//! Tests that a replay of a list of calls makes each call once.

use crate::asked::{Asked, counts};
use crate::checks::holds;
use crate::probe::{ONES, Probe, ZEROS};
use bittle::replay::{Call, Reply, Side, replay, replay_mixed, replay_pair};
use bittle::{BigEndian, LittleEndian};

// Each kind of call. All but `Capacity` are counted.
const CALLS: [Call; 9] = [
    Call::Test(31),
    Call::Put(5),
    Call::Clear(5),
    Call::CountOnes,
    Call::CountZeros,
    Call::AllZeros,
    Call::AllOnes,
    Call::Capacity,
    Call::ClearAll,
];

#[test]
fn a_run_makes_each_call_once(rt: HostRuntime) {
    let asked = Asked::new();
    let mut probe = Probe::of(ONES, &asked);
    let mut replies = [Reply::Done; 9];
    replay::<Probe, BigEndian>(&mut probe, &CALLS, &mut replies);
    holds!(rt; replies[0] == Reply::Bit(true) && replies[3] == Reply::Number(2));
    counts!(rt; asked, 0, 8);
}

#[test]
fn a_run_of_two_sets_makes_each_call_once(rt: HostRuntime) {
    let (left, right) = (Asked::new(), Asked::new());
    let mut a = Probe::of(ONES, &left);
    let mut b = Probe::of(ZEROS, &right);
    let (mut ours, mut theirs) = ([Reply::Done; 9], [Reply::Done; 9]);
    replay_pair::<Probe, Probe, BigEndian, LittleEndian>(
        &mut a,
        &mut b,
        &CALLS,
        &mut ours,
        &mut theirs,
    );
    counts!(rt; left, 0, 8);
    counts!(rt; right, 0, 8);
}

#[test]
fn a_run_in_two_orders_makes_each_call_once(rt: HostRuntime) {
    let asked = Asked::new();
    let mut probe = Probe::of(ONES, &asked);
    let calls = [
        (Side::Big, Call::Test(31)),
        (Side::Little, Call::Put(5)),
        (Side::Little, Call::CountOnes),
        (Side::Big, Call::AllZeros),
    ];
    let mut replies = [Reply::Done; 4];
    replay_mixed(&mut probe, &calls, &mut replies);
    counts!(rt; asked, 0, 4);
}
