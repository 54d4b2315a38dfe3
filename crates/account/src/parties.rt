// The honest parties of a graded agreement.
ghost use Rattle.std.specs.Prelude.{◌≡◌, ◌<◌, ◌≤◌};
ghost use Rattle.message.specs.Members.{most_parties};
ghost use Rattle.graded.specs.Steps.{start, send as sent, hear as heard};

use crate::liar::lie;
use crate::rounds::Honest;
use crate::telling::{Saying, Spoken};
use graded::seats::Seat;
use graded::table::Role;
use message::{Day, Message};
use protocol::Spot;

// The parties with the one that lies.
pub const PARTIES: u32 = 5;

// What reaches each: a slot for each party under each of two topics.
pub const SLOTS: usize = 5 * 2;

pub const INPUTS: [Day; 4] = [7, 7, 9, 4];

// An honest party. It is one of at most 32, as many as a set of signers has room for.
#[derive(Clone, Copy)]
pub struct Party {
    pub seat: Seat,
    ghost sits: { (seat.own < most_parties) × (seat.seats ≤ most_parties) },
}

impl Party {
    fn enter(own: u32, input: Day) -> Party
        requires { own < most_parties }
        ensures { result.seat ≡ start 5 own input }
    {
        Party {
            seat: Seat::start(PARTIES, own, input),
        }
    }
}

impl Honest for Party {
    const CALLED: &'static str = "party";

    const TOPICS: u32 = 2;

    type Line = Spoken;

    fn own(&self) -> u32 {
        self.seat.own
    }

    fn says(&self, spot: Spot) -> Option<Message>
        ensures { result ≡ sent self.now.seat spot.round spot.topic }
    {
        self.seat.send(spot)
    }

    fn is_told(&self, spot: Spot) -> Option<Message> {
        Role::at(spot).and_then(|role| lie(role, &self.seat))
    }

    fn hear(self, round: u32, inbox: &[Option<Message>]) -> Party
        ensures { result.seat ≡ heard self.seat round inbox.now }
    {
        Party {
            seat: self.seat.hear(round, inbox),
        }
    }

    fn line(spot: Spot, message: Message) -> Option<Spoken> {
        Role::at(spot).map(|role| Spoken(Saying { role, message }))
    }
}

// The honest parties before the first round.
pub(crate) fn enter() -> [Party; 4] {
    let [a, b, c, d] = INPUTS;
    [
        Party::enter(0, a),
        Party::enter(1, b),
        Party::enter(2, c),
        Party::enter(3, d),
    ]
}
