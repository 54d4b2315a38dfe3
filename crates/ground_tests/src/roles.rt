// What messages in each role are about, and what they are called.
use graded::table::{Kind, Role};
use protocol::Spot;
use std::alloc::AllocError;

#[test]
fn roles_have_kinds_and_names(rt: HostRuntime) -> Result<(), AllocError> {
    let cases = [
        (Role::Echo, Kind::Echo, "echo"),
        (
            Role::EchoCertificate,
            Kind::Echo,
            "certificate of echoes for",
        ),
        (Role::Vote, Kind::Vote, "vote for"),
        (
            Role::VoteCertificate,
            Kind::Vote,
            "certificate of votes for",
        ),
        (Role::SecondVote, Kind::SecondVote, "second vote for"),
    ];
    for (role, kind, name) in cases {
        assert_eq!(rt; role.kind(), kind);
        assert_eq!(rt; role.to_string(rt.alloc())?.as_str(), name);
    }
    Ok(())
}

#[test]
fn kinds_stand_at_spots_and_have_numbers(rt: HostRuntime) {
    let cases = [
        (1, 0, Kind::Echo),
        (4, 0, Kind::Vote),
        (4, 1, Kind::SecondVote),
        // no role stands here
        (1, 1, Kind::Echo),
        (5, 0, Kind::Echo),
    ];
    for (round, topic, expected) in cases {
        let spot = Spot { round, topic };
        assert_eq!(rt; (spot, Kind::at(spot)), (spot, expected));
    }
    let numbers = [Kind::Echo, Kind::Vote, Kind::SecondVote].map(u32::from);
    assert_eq!(rt; numbers, [0, 1, 2]);
}
