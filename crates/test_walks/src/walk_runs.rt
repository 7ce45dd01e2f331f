//! Lists of steps that `replay_walk` takes on an iterator.

use crate::checks::same;
use bittle::replay::{Step, replay_walk};
use bittle::{BigEndian, LittleEndian, set};

#[test]
fn steps_of_both_ends(rt: HostRuntime) {
    let bits: [u32; 4] = set![4, 67, 71, 127];
    let steps = [
        Step::Front,
        Step::Back,
        Step::Back,
        Step::Front,
        Step::Front,
        Step::Back,
    ];
    let mut answers = [None; 6];
    let _looks = replay_walk::<[u32; 4], BigEndian>(&bits, true, &steps, &mut answers);
    same!(rt;
        answers,
        [Some(4), Some(127), Some(71), Some(67), None, None]
    );
}

#[test]
fn steps_of_empty_sets(rt: HostRuntime) {
    let steps = [Step::Front, Step::Front, Step::Back];
    let mut answers = [Some(0); 3];
    let _looks = replay_walk::<[u8; 4], BigEndian>(&[0; 4], true, &steps, &mut answers);
    same!(rt; answers, [None, None, None]);

    let steps = [Step::Front, Step::Back];
    let mut answers = [Some(0); 2];
    let _looks = replay_walk::<[[u8; 0]; 4], BigEndian>(&[[0; 0]; 4], false, &steps, &mut answers);
    same!(rt; answers, [None, None]);
}

#[test]
fn steps_of_zeros(rt: HostRuntime) {
    let steps = [Step::Back, Step::Back, Step::Front];
    let mut answers = [Some(0); 3];
    let bytes = [0xFFu8, 0x7F, 0xFF];
    let _looks = replay_walk::<[u8; 3], BigEndian>(&bytes, false, &steps, &mut answers);
    same!(rt; answers, [Some(15), None, None]);

    let bytes = [0x7Fu8, 0xFF];
    let slice: &[u8] = &bytes;
    let _looks = replay_walk::<&[u8], LittleEndian>(&slice, false, &steps, &mut answers);
    same!(rt; answers, [Some(0), None, None]);
}
