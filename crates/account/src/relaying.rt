// The honest seats of a base agreement of four.
ghost use Rattle.std.specs.Prelude.{◌≡◌, ◌<◌};
ghost use Rattle.base.specs.Relaying.{start, send as sent, hear as heard};

use crate::relay_telling::UnderTopic;
use crate::rounds::Honest;
use base::keeping::Kept;
use base::relays::Relays;
use graded::seats::word;
use message::{Day, Message};
use protocol::agreement::BaseAgreement;
use protocol::{Seating, Spot};

// The seats with the one that lies.
const SEATS: u32 = 4;

// What reaches each: a slot for each seat under each of four topics.
pub const SLOTS: usize = 4 * 4;

// The honest seats' inputs.
pub const INPUTS: [Day; 3] = [7, 9, 9];

// The seat that lies: in round 1 it tells each honest seat another day, and in round 2 it passes nothing on.
pub const LIAR: u32 = 3;

impl Honest for Kept {
    const CALLED: &'static str = "seat";

    // each seat has a topic for its day
    const TOPICS: u32 = SEATS;

    type Line = UnderTopic;

    fn own(&self) -> u32 {
        self.relay.own
    }

    fn says(&self, spot: Spot) -> Option<Message>
        ensures { result ≡ sent self.now.relay spot.round spot.topic }
    {
        Relays::send(self, spot)
    }

    // Only under its own topic has the liar something to say, signed by itself alone.
    fn is_told(&self, spot: Spot) -> Option<Message> {
        if spot.round != 1 || spot.topic != LIAR {
            return None;
        }
        word(LIAR, day_told(self.relay.own))
    }

    fn hear(self, round: u32, inbox: &[Option<Message>]) -> Kept
        ensures { result.relay ≡ heard self.relay round inbox.now }
    {
        Relays::hear(self, round, inbox)
    }

    fn line(spot: Spot, message: Message) -> Option<UnderTopic> {
        let topic = spot.topic;
        Some(UnderTopic { topic, message })
    }
}

// The honest seats before the first round.
pub(crate) fn enter() -> [Kept; 3] {
    let [a, b, c] = INPUTS;
    [seat(0, a), seat(1, b), seat(2, c)]
}

fn seat(own: u32, input: Day) -> Kept
    requires { own < 4 }
    ensures { result.relay ≡ start 4 own input }
{
    Relays::start(Seating { seats: SEATS, own }, input)
}

// The day that the liar tells an honest seat.
fn day_told(own: u32) -> Option<Day> {
    match own {
        0 => Some(7),
        1 => Some(9),
        2 => Some(4),
        _ => None,
    }
}
