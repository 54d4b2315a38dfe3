// What seats that relay answer.
use crate::seats::{days, hear_all, hear_lies, slot, start};
use base::relays::Relays;
use message::{Day, Message};
use protocol::Seating;
use protocol::agreement::BaseAgreement;

#[test]
fn honest_seats_answer_the_day_of_most_and_the_lowest_on_a_tie(rt: HostRuntime) {
    let cases = [
        ([7, 7, 9, 9], 7),
        ([9, 7, 9, 7], 7),
        ([9, 9, 9, 7], 9),
        ([9, 8, 4, 6], 4),
        ([5, 5, 5, 5], 5),
    ];
    for (inputs, expected) in cases {
        let after = hear_all(hear_all(start(inputs), 1), 2);
        assert_eq!(rt; days(&after), [expected; 4]);
    }
}

#[test]
fn honest_seats_answer_alike_whatever_a_liar_tells(rt: HostRuntime) {
    // the inputs of seats 1 and 2, what the corrupt seat 0 tells all three in round 1, and the answer; in round 2 seat 0 is silent
    let cases = [
        ([8, 8], [0, 7, 9], 8),
        ([8, 8], [0, 7, 7], 8),
        ([7, 9], [0, 7, 9], 7),
        ([7, 9], [0, 9, 0], 9),
        ([9, 7], [0, 0, 0], 7),
    ];
    for ([b, c], lies, expected) in cases {
        let after = hear_lies(hear_lies(start([4, b, c]), 1, lies), 2, [0; 3]);
        let [_, first, second] = days(&after);
        assert_eq!(rt; [first, second], [expected; 2]);
    }
}

// Four slots under each of the four topics.
fn filled(days: [Day; 16]) -> [Option<Message>; 16] {
    days.map(slot)
}

#[test]
fn a_topic_counts_if_one_day_was_seen_under_it(rt: HostRuntime) {
    let seat = Relays::start(Seating { seats: 4, own: 3 }, 5);
    let nothing = [0; 16];
    let mixed = [7, 0, 0, 0, 0, 9, 0, 0, 0, 0, 9, 0, 0, 0, 0, 7];
    let nine = [9, 0, 0, 0, 0, 0, 0, 0, 0, 0, 0, 0, 0, 0, 0, 0];
    let others = [0, 4, 0, 0, 0, 0, 4, 0, 0, 4, 0, 0, 0, 4, 0, 0];
    // what arrives in round 1 and in round 2, and the answer
    let cases = [
        // all entries are absent
        (nothing, nothing, 5),
        // as many for 7 as for 9
        (mixed, nothing, 7),
        (mixed, mixed, 7),
        // a second day under topic 0
        (mixed, nine, 9),
        (nine, mixed, 9),
        // a second day under every topic
        (mixed, others, 5),
    ];
    for (first, second, expected) in cases {
        let once = Relays::hear(seat, 1, &filled(first));
        let twice = Relays::hear(once, 2, &filled(second));
        assert_eq!(rt; Relays::day(&twice), expected);
    }
}
