// What a seat of five does with what reaches it in each of the four rounds; where only the first topic matters, the second is left out.
use crate::slots::filled;
use graded::seats::Seat;
use message::{Day, Message, Signers};
use protocol::Spot;

const ECHO_CERTIFICATES: Spot = Spot { round: 2, topic: 0 };

const VOTES: Spot = Spot { round: 3, topic: 0 };

const VOTE_CERTIFICATES: Spot = Spot { round: 4, topic: 0 };

const SECOND_VOTES: Spot = Spot { round: 4, topic: 1 };

fn said(day: Day, signers: Signers) -> Option<Message> {
    Some(Message { day, signers })
}

// Slots written as days: 0 stands for an empty slot.
fn slots<const N: usize>(days: [Day; N]) -> [Option<Message>; N] {
    filled(days.map(|day| (day > 0).then_some(day)))
}

#[test]
fn a_quorum_makes_a_certificate(rt: HostRuntime) {
    let seat = Seat::start(5, 0, 9);
    let own = Signers::only(0);
    let others = Signers::only(1).with(2).with(4);
    // words on days, the certificate that they make, and the second vote where they are votes
    let cases = [
        ([9, 9, 9, 4, 0], said(9, Signers::first(3)), said(9, own)),
        ([9, 7, 7, 4, 7], said(7, others), said(7, own)),
        ([9, 9, 7, 7, 0], None, None),
        ([0; 5], None, None),
    ];
    for (days, certificate, second) in cases {
        let words = slots(days);
        let echoes = seat.hear(1, &words);
        let votes = seat.hear(3, &words);
        let sent = (
            echoes.send(ECHO_CERTIFICATES),
            votes.send(VOTE_CERTIFICATES),
            votes.send(SECOND_VOTES),
        );
        assert_eq!(rt; sent, (certificate, certificate, second));
    }
}

#[test]
fn a_seat_votes_for_its_certificate_unless_disputed(rt: HostRuntime) {
    let seat = Seat::start(5, 0, 9);
    let vote = said(7, Signers::only(0));
    // echoes, certificates of echoes, and the vote
    let cases = [
        ([9, 7, 7, 7, 7], [7, 7, 0, 0, 7], vote),
        ([9, 7, 7, 7, 7], [0; 5], vote),
        ([9, 7, 7, 7, 7], [7, 7, 0, 0, 9], None),
        ([9, 9, 7, 7, 0], [0, 0, 7, 0, 0], None),
    ];
    for (echoes, certificates, expected) in cases {
        let after = seat.hear(1, &slots(echoes)).hear(2, &slots(certificates));
        assert_eq!(rt; after.send(VOTES), expected);
    }
}

#[test]
fn a_seat_leaves_with_the_lowest_certified_day(rt: HostRuntime) {
    let seat = Seat::start(5, 3, 4);
    // five certificates of votes, then five second votes; and the day and the grade
    let cases = [
        ([0, 9, 0, 7, 0, 0, 0, 0, 0, 0], (7, false)),
        ([7, 7, 0, 0, 0, 7, 7, 0, 0, 7], (7, true)),
        ([9, 0, 0, 0, 0, 7, 7, 0, 0, 7], (9, true)),
        ([0, 0, 0, 0, 0, 7, 7, 0, 9, 9], (4, false)),
        ([0, 0, 0, 0, 0, 7, 7, 0, 9, 7], (4, true)),
    ];
    for (days, expected) in cases {
        assert_eq!(rt; seat.hear(4, &slots(days)).outcome(), expected);
    }
}

#[test]
fn missing_slots_are_empty(rt: HostRuntime) {
    let seat = Seat::start(5, 3, 4);
    let full = slots([7; 10]);
    assert_eq!(rt; seat.hear(1, &full[0..2]).send(ECHO_CERTIFICATES), None);
    let three = said(7, Signers::first(3));
    assert_eq!(rt; seat.hear(1, &full[0..3]).send(ECHO_CERTIFICATES), three);
    // the first topic whole, and of the second two slots or three
    assert_eq!(rt; seat.hear(4, &full[0..7]).outcome(), (7, false));
    assert_eq!(rt; seat.hear(4, &full[0..8]).outcome(), (7, true));
}
