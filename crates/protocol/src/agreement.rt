// Base agreements: what a committee that is small enough runs. Code above is written once for all of them, against meaning and laws.
ghost use Rattle.std.specs.Prelude.{◌≡◌, ℕ, ◌≤◌};
ghost use Rattle.std.specs.Option.{ok_or};
ghost use Rattle.message.specs.declared.refusals.Refusal.TheVariants.{NoForm};
ghost use Rattle.message.specs.declared.refusals.Layer.TheVariants.{Base};
ghost use Rattle.protocol.specs.Agreement.{Meaning, Seats, Sized, Agrees, StaysWithinBound, KeepsDiscipline};
ghost use Rattle.protocol.specs.declared.agreement.Unformed.TheVariants.{NoSuchForm};

use crate::{Form, Seating, Spot};
use message::refusals::{Fault, Layer, Refusal};
use message::{Day, Message, Signers};

// A message that may not stand where it stands.
#[derive(Clone, Copy, PartialEq, Eq, Debug)]
pub enum Unformed {
    NoSuchForm,
}

// In an execution that is a refusal of the base agreement's own.
impl From<Unformed> for Fault {
    ghost from_gives = { λ _ r. r ≡ record { refusal = NoForm; layer = Base } };

    fn from(_unformed: Unformed) -> Fault {
        Fault {
            refusal: Refusal::NoForm,
            layer: Layer::Base,
        }
    }
}

// An agreement among few seats, which it knows by number from 0; it counts rounds from 1 and topics from 0 to 7. Each method is an
// equation with the meaning, and the laws are of the meaning.
pub trait BaseAgreement {
    // what one seat keeps from round to round; that its numbers hold together is its own type's care
    type Record: Copy;

    // what the meaning sees of a record, which determines the record
    type Plain;

    // the most seats that it is for, 1 to 4
    const SEATS: u32;

    ghost SEATS: { ℕ };

    ghost plain: { Self.Record → Self.Plain };

    ghost meaning: { Meaning Self.Plain };

    // How many rounds it takes, 0 to 16.
    fn rounds(seats: u32) -> u32
        requires { Seats meaning seats }
        ensures { result ≡ meaning.rounds seats };

    // A seat's record before the first round.
    fn start(own: Seating, input: Day) -> Self::Record
        requires { Seats meaning own.seats }
        ensures { plain result ≡ meaning.start own.seats own.own input };

    // What a seat says to all seats at a spot, if anything.
    fn send(seat: &Self::Record, spot: Spot) -> Option<Message>
        ensures { result ≡ meaning.send (plain seat.now) spot.round spot.topic };

    // A seat's record after a round in which this arrived: what seat i said under topic t is expected at t * seats + i.
    fn hear(seat: Self::Record, round: u32, inbox: &[Option<Message>]) -> Self::Record
        ensures { plain result ≡ meaning.hear (plain seat) round inbox.now };

    // The form of a message, or that it has none.
    fn form(sender: Seating, spot: Spot, signers: Signers) -> Result<Form, Unformed>
        requires { Seats meaning sender.seats }
        ensures { result ≡ ok_or (meaning.form sender.seats spot.round spot.topic sender.own signers.mask) NoSuchForm };

    // The day that a seat answers after the last round.
    fn day(seat: &Self::Record) -> Day
        ensures { result ≡ meaning.day (plain seat.now) };

    ghost determined: { (a b : Self.Record) → plain a ≡ plain b → a ≡ b };

    ghost most: { SEATS ≡ meaning.most };

    ghost sized: { Sized meaning };

    ghost agreement: { Agrees meaning };

    ghost cost: { StaysWithinBound meaning };

    ghost discipline: { KeepsDiscipline meaning };
}

// The most seats of a base agreement: 1 to 4.
pub fn most_seats<A: BaseAgreement>() -> u32
    ensures is { result ≡ A.meaning.most }
    ensures some { 1 ≤ result }
    ensures few { result ≤ 4 }
{
    A::SEATS
}

// The rounds of a base agreement: at most 16, and at least one where several seats are to agree.
pub fn rounds_among<A: BaseAgreement>(seats: u32) -> u32
    requires { Seats A.meaning seats }
    ensures is { result ≡ A.meaning.rounds seats }
    ensures short { result ≤ 16 }
    ensures some { 2 ≤ seats → 1 ≤ result }
{
    A::rounds(seats)
}
