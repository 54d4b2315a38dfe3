// The seat that agrees with itself.
use base::lone::Lone;
use protocol::Seating;
use protocol::agreement::BaseAgreement;

#[test]
fn a_lone_seat_answers_its_input_after_no_round(rt: HostRuntime) {
    assert_eq!(rt; (Lone::SEATS, Lone::rounds(1)), (1, 0));
    assert_eq!(rt; Lone::day(&Lone::start(Seating { seats: 1, own: 0 }, 7)), 7);
}
