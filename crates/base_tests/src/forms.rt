// Which messages of seats that relay have a form.
use base::relays::Relays;
use message::Signers;
use protocol::agreement::{BaseAgreement, Unformed};
use protocol::{Form, Seating, Spot};

const LISTED: Result<Form, Unformed> = Ok(Form::Listed);

const REFUSED: Result<Form, Unformed> = Err(Unformed::NoSuchForm);

#[test]
fn seats_sign_their_own_day_and_then_those_that_they_pass_on(rt: HostRuntime) {
    let sender = Signers::only(1);
    let other = Signers::only(2);
    let both = Signers::only(1).with(2);
    let seat = Seating { seats: 3, own: 1 };
    // what it sends: the round, the topic, the signers, and the form that it has
    let cases = [
        (1, 1, sender, LISTED),
        (1, 1, other, REFUSED),
        (1, 1, both, REFUSED),
        (1, 2, sender, REFUSED),
        (1, 2, other, REFUSED),
        (2, 2, both, LISTED),
        (2, 2, sender, REFUSED),
        (2, 2, other, REFUSED),
        (2, 0, both, REFUSED),
        (2, 1, sender, REFUSED),
        // no seat has topic 3, and there is no other round
        (2, 3, Signers::only(1).with(3), REFUSED),
        (0, 1, sender, REFUSED),
        (3, 2, both, REFUSED),
    ];
    for (round, topic, signers, expected) in cases {
        let found = Relays::form(seat, Spot { round, topic }, signers);
        assert_eq!(rt; (round, topic, found), (round, topic, expected));
    }
}
