// Quorums, and sets of signers at the ends of their range: members 0 and 31, and all 32.
use message::Signers;
use message::sets::quorum;

#[test]
fn a_quorum_is_more_than_half(rt: HostRuntime) {
    let quorums = [quorum(1), quorum(2), quorum(3), quorum(4), quorum(5)];
    assert_eq!(rt; quorums, [1, 2, 2, 3, 3]);
}

#[test]
fn sets_know_their_members(rt: HostRuntime) {
    let most = Signers::first(31);
    let all = Signers::first(32);
    // each set with its length, whether it has members 0, 31 and 32, and whether it lies within the first 31
    let cases = [
        (Signers::none(), 0, [false, false, false], true),
        (Signers::only(0), 1, [true, false, false], true),
        (Signers::only(31), 1, [false, true, false], false),
        (Signers::only(0).with(31), 2, [true, true, false], false),
        (most, 31, [true, false, false], true),
        (all, 32, [true, true, false], false),
    ];
    for (set, len, members, short) in cases {
        let found = [set.contains(0), set.contains(31), set.contains(32)];
        assert_eq!(rt; (set.len(), found), (len, members));
        let within = (set.sits_in(31), set.is_subset(most), set.is_subset(all));
        assert_eq!(rt; within, (short, short, true));
        let whole = (set.sits_in(32), all.is_subset(set));
        assert_eq!(rt; whole, (true, len == 32));
    }
}

#[test]
fn seats_become_parties_and_back(rt: HostRuntime) {
    let all = Signers::first(32);
    let pair = Signers::only(3).with(4);
    let parties = [Signers::only(0).to_parties(31), all.to_parties(0)];
    assert_eq!(rt; parties, [Signers::only(31), all]);
    let seats = [parties[0].to_seats(31), pair.to_seats(3), all.to_seats(0)];
    let expected = [Some(Signers::only(0)), Some(Signers::first(2)), Some(all)];
    assert_eq!(rt; seats, expected);
    // whoever comes before the first party has no seat
    assert_eq!(rt; [pair.to_seats(4), all.to_seats(1)], [None, None]);
}
