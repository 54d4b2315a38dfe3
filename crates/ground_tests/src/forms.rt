// Which messages have a form among five seats, and which are refused.
use graded::table::form;
use message::Signers;
use message::refusals::Refusal;
use protocol::{Form, Seating, Spot};

const LISTED: Result<Form, Refusal> = Ok(Form::Listed);

const CERTIFICATE: Result<Form, Refusal> = Ok(Form::Certificate);

const REFUSED: Result<Form, Refusal> = Err(Refusal::NoForm);

#[test]
fn words_are_signed_alone_and_certificates_by_a_quorum(rt: HostRuntime) {
    let seating = Seating { seats: 5, own: 1 };
    let sender = Signers::only(1);
    let another = Signers::only(2);
    let two = Signers::first(2);
    let three = Signers::only(0).with(2).with(4);
    let outsider = Signers::only(0).with(2).with(5);
    // what seat 1 sends: the round, the topic, the signers, and the form that it has
    let cases = [
        (1, 0, sender, LISTED),
        (1, 0, another, REFUSED),
        (1, 0, two, REFUSED),
        (2, 0, two, REFUSED),
        (2, 0, three, CERTIFICATE),
        (2, 0, outsider, REFUSED),
        (3, 0, sender, LISTED),
        (4, 0, three, CERTIFICATE),
        (4, 1, sender, LISTED),
        (4, 1, three, REFUSED),
        // no role stands here
        (0, 0, sender, REFUSED),
        (1, 1, sender, REFUSED),
        (4, 2, sender, REFUSED),
        (5, 0, three, REFUSED),
    ];
    for (round, topic, signers, expected) in cases {
        let spot = Spot { round, topic };
        assert_eq!(rt; (spot, form(seating, spot, signers)), (spot, expected));
    }
}
