// The base agreement of one seat, which agrees with itself: its day is its input, and nothing is said.
ghost use Rattle.std.specs.Prelude.{refl};
ghost use Rattle.base.specs.Alone.{lone};
ghost use Rattle.base.specs.Laws.Alone.{sized as seats_are_sized, agrees, stays_within_bound, keeps_discipline};

use message::{Day, Message, Signers};
use protocol::agreement::{BaseAgreement, Unformed};
use protocol::{Form, Seating, Spot};

pub struct Lone;

impl BaseAgreement for Lone {
    // its input
    type Record = Day;

    type Plain = Day;

    const SEATS: u32 = 1;

    ghost plain = { λ day. day };

    ghost SEATS = { 1 };

    ghost meaning = { lone };

    ghost determined = { λ _ _ same. same };

    ghost most = { refl };

    ghost sized = { seats_are_sized };

    ghost agreement = { agrees };

    ghost cost = { stays_within_bound };

    ghost discipline = { keeps_discipline };

    fn rounds(_seats: u32) -> u32 {
        0
    }

    fn start(_own: Seating, input: Day) -> Day {
        input
    }

    fn send(_seat: &Day, _spot: Spot) -> Option<Message> {
        None
    }

    fn hear(seat: Day, _round: u32, _inbox: &[Option<Message>]) -> Day {
        seat
    }

    fn form(_sender: Seating, _spot: Spot, _signers: Signers) -> Result<Form, Unformed> {
        Err(Unformed::NoSuchForm)
    }

    fn day(seat: &Day) -> Day {
        *seat
    }
}
