// The halves of a committee.
use crate::numbers::committee;

#[test]
fn the_first_half_has_the_odd_party(rt: HostRuntime) {
    let seven = committee(3, 1, 5, 7);
    let halves = [seven.first_half(), seven.second_half()];
    assert_eq!(rt; halves, [committee(6, 2, 5, 4), committee(7, 2, 9, 3)]);
}
