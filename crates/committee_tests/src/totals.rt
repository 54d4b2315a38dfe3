// How many rounds so many parties take, and how many signatures they may send.
use crate::numbers::{lone, relays};
use committee::plan::Plan;

#[test]
fn rounds_are_those_of_the_plan(rt: HostRuntime) {
    let cases = [
        (Plan::new(lone(), 1).total(), 0),
        (Plan::new(lone(), 2).total(), 10),
        (Plan::new(lone(), 3).total(), 20),
        (Plan::new(lone(), 32).total(), 310),
        (Plan::new(relays(), 4).total(), 2),
        (Plan::new(relays(), 5).total(), 14),
        (Plan::new(relays(), 9).total(), 26),
        (Plan::new(relays(), 16).total(), 38),
    ];
    for (found, expected) in cases {
        assert_eq!(rt; found, expected);
    }
}

#[test]
fn signatures_stay_within_the_bound(rt: HostRuntime) {
    // what so many parties may send, and what no committee of so many exceeds
    let cases = [
        (Plan::new(lone(), 1).bound(), 11, 22 * 1 - 11),
        (Plan::new(lone(), 2).bound(), 66, 22 * 4 - 11),
        (Plan::new(lone(), 3).bound(), 176, 22 * 9 - 11),
        (Plan::new(lone(), 32).bound(), 22176, 22 * 1024 - 11),
        (Plan::new(relays(), 1).bound(), 11, 22 * 1 - 11),
        (Plan::new(relays(), 4).bound(), 341, 22 * 16 - 11),
        (Plan::new(relays(), 5).bound(), 539, 22 * 25 - 11),
        (Plan::new(relays(), 6).bound(), 770, 22 * 36 - 11),
        (Plan::new(relays(), 32).bound(), 22440, 22 * 1024 - 11),
    ];
    for (found, expected, ceiling) in cases {
        assert_eq!(rt; found, expected);
        assert!(rt; found <= ceiling);
    }
}
