// Two plans, stage by stage.
use crate::numbers::{committee, lone, relays};
use committee::plan::Plan;
use committee::stages::{Committee, Part, Stage};
use std::process::Abort;

// A part of a committee's work in the turn of a half, and how many rounds have closed when it begins and when it is over.
#[derive(Clone, Copy)]
struct Stretch {
    begun: u32,
    over: u32,
    committee: Committee,
    half: Committee,
    part: Part,
}

impl Stretch {
    fn new(begun: u32, over: u32, committee: Committee, half: Committee, part: Part) -> Stretch {
        Stretch {
            begun,
            over,
            committee,
            half,
            part,
        }
    }
}

// Each round of each stretch is the stage that is found for it.
fn check_plan(rt: &impl Abort, plan: &Plan, stretches: &[Stretch]) {
    for stretch in stretches {
        for closed in stretch.begun..stretch.over {
            let expected = Stage {
                committee: stretch.committee,
                half: stretch.half,
                part: stretch.part,
                round: closed - stretch.begun + 1,
            };
            assert_eq!(rt; plan.stage(closed), Some(expected));
        }
    }
}

#[test]
fn three_parties_alone(rt: HostRuntime) {
    let all = committee(1, 0, 0, 3);
    let two = committee(2, 1, 0, 2);
    let third = committee(3, 1, 2, 1);
    let first = committee(4, 2, 0, 1);
    let second = committee(5, 2, 1, 1);
    let stretches = [
        Stretch::new(0, 4, all, two, Part::FirstGraded),
        Stretch::new(4, 8, two, first, Part::FirstGraded),
        Stretch::new(8, 9, two, first, Part::FirstReport),
        Stretch::new(9, 13, two, second, Part::SecondGraded),
        Stretch::new(13, 14, two, second, Part::SecondReport),
        Stretch::new(14, 15, all, two, Part::FirstReport),
        Stretch::new(15, 19, all, third, Part::SecondGraded),
        Stretch::new(19, 20, all, third, Part::SecondReport),
    ];
    let plan = Plan::new(lone(), 3);
    check_plan(&rt, &plan, &stretches);
    assert_eq!(rt; plan.stage(20), None);
}

#[test]
fn five_parties_with_relays(rt: HostRuntime) {
    let all = committee(1, 0, 0, 5);
    let three = committee(2, 1, 0, 3);
    let two = committee(3, 1, 3, 2);
    let stretches = [
        Stretch::new(0, 4, all, three, Part::FirstGraded),
        Stretch::new(4, 6, three, three, Part::Base),
        Stretch::new(6, 7, all, three, Part::FirstReport),
        Stretch::new(7, 11, all, two, Part::SecondGraded),
        Stretch::new(11, 13, two, two, Part::Base),
        Stretch::new(13, 14, all, two, Part::SecondReport),
    ];
    let plan = Plan::new(relays(), 5);
    check_plan(&rt, &plan, &stretches);
    assert_eq!(rt; plan.stage(14), None);
}
