// The base agreement of up to four seats: each says its day, then passes on what each other seat said, and the day of most seats wins.
ghost use Rattle.std.specs.Prelude.{◌≡◌, Some, refl};
ghost use Rattle.protocol.specs.Inboxes.{days};
ghost use Rattle.base.specs.Relaying.{due, add, gather, only_day, words, entry_under, entries_of, word, relays};
ghost use Rattle.base.specs.Laws.Keeping.{same_kept};
ghost use Rattle.base.specs.Laws.Placing.{sized as seats_are_sized};
ghost use Rattle.base.specs.Laws.Agreeing.{agrees};
ghost use Rattle.base.specs.Laws.Spending.{stays_within_bound};
ghost use Rattle.base.specs.Laws.Relaying.{keeps_discipline};

use crate::keeping::Kept;
use crate::most::most_named;
use message::entries::NamesDay;
use message::{Day, Message, Signers};
use protocol::agreement::{BaseAgreement, Unformed};
use protocol::slots::under;
use protocol::{Form, Seating, Spot};
use std::{array, fmt};

// What has been seen under a topic: no day, one, or several.
#[derive(Clone, Copy, PartialEq, Eq, Debug)]
pub enum Seen {
    Nothing,
    One(Day),
    Several,
}

impl Seen {
    // With one more day, if there is one.
    fn with(self, new: Option<Day>) -> Seen
        ensures { result ≡ add self new }
    {
        match (self, new) {
            (_, None) => self,
            (Seen::Nothing, Some(day)) => Seen::One(day),
            (Seen::One(old), Some(day)) if old == day => self,
            _ => Seen::Several,
        }
    }

    // With the days in these slots.
    fn with_all(self, slots: &[Option<Message>]) -> Seen
        ensures { result ≡ gather self (days slots.now) }
    {
        slots.iter().fold(self, |seen, slot| seen.with(slot.day()))
    }

    // The one day, if just one has been seen.
    fn only_one(self) -> Option<Day>
        ensures { result ≡ only_day self }
    {
        match self {
            Seen::One(day) => Some(day),
            Seen::Nothing | Seen::Several => None,
        }
    }
}

// The day, or the words for none and for several.
impl fmt::Display for Seen {
    ghost output = { λ seen. Some (words seen) };

    fn fmt<W: fmt::Write>(&self, f: &mut fmt::Formatter<W>) -> fmt::Result {
        match self {
            Seen::Nothing => f.write_str("nothing"),
            Seen::One(day) => write!(f, "{day}"),
            Seen::Several => f.write_str("several days"),
        }
    }
}

// What one seat knows: how many seats there are, which one it is, its input, and what it has seen under each topic.
#[derive(Clone, Copy)]
pub struct Relay {
    pub seats: u32,
    pub own: u32,
    pub day: Day,
    pub seen: [Seen; 4],
}

impl Relay {
    // A topic's entry: the one day seen under it; only the seats have entries.
    fn entry(&self, topic: u32) -> Option<Day>
        ensures { result ≡ entry_under self.now topic }
    {
        if topic < self.seats {
            self.seen.get(topic as usize)?.only_one()
        } else {
            None
        }
    }

    // The entries, topic by topic.
    fn entries(&self) -> [Option<Day>; 4]
        ensures { result ≡ entries_of self.now }
    {
        array::from_fn(|topic| self.entry(topic as u32))
    }

    // The day that the seat has to say.
    fn word(&self, spot: Spot) -> Option<Day>
        ensures { result ≡ word self.now spot.round spot.topic }
    {
        match spot.round {
            0 => None,
            1 => Some(self.day),
            _ => self.entry(spot.topic),
        }
    }
}

pub struct Relays;

impl BaseAgreement for Relays {
    type Record = Kept;

    type Plain = Relay;

    const SEATS: u32 = 4;

    ghost plain = { λ seat. seat.relay };

    ghost SEATS = { 4 };

    ghost meaning = { relays };

    ghost determined = { same_kept };

    ghost most = { refl };

    ghost sized = { seats_are_sized };

    ghost agreement = { agrees };

    ghost cost = { stays_within_bound };

    ghost discipline = { keeps_discipline };

    fn rounds(seats: u32) -> u32 {
        match seats {
            0 | 1 => 0,
            _ => 2,
        }
    }

    fn start(own: Seating, input: Day) -> Kept {
        let Seating { seats, own } = own;
        Kept {
            relay: Relay {
                seats,
                own,
                day: input,
                seen: [Seen::Nothing; 4],
            },
        }
    }

    fn send(seat: &Kept, spot: Spot) -> Option<Message> {
        let signers = signers_due(seat.seating(), spot)?;
        let day = seat.relay.word(spot)?;
        Some(Message { day, signers })
    }

    fn hear(seat: Kept, _round: u32, inbox: &[Option<Message>]) -> Kept {
        let Relay { seats, seen, .. } = seat.relay;
        let heard = array::from_fn(|t| seen[t].with_all(under(inbox, seats, t as u32)));
        Kept {
            relay: Relay {
                seen: heard,
                ..seat.relay
            },
        }
    }

    fn form(sender: Seating, spot: Spot, signers: Signers) -> Result<Form, Unformed> {
        match signers_due(sender, spot) {
            Some(who) if who == signers => Ok(Form::Listed),
            _ => Err(Unformed::NoSuchForm),
        }
    }

    fn day(seat: &Kept) -> Day {
        most_named(&seat.relay.entries()).unwrap_or(seat.relay.day)
    }
}

// The signers that a message must have, where one may stand: in round 1 a seat says its own day, in round 2 it passes on another seat's.
fn signers_due(sender: Seating, spot: Spot) -> Option<Signers>
    ensures { result ≡ due sender.seats spot.round spot.topic sender.own }
{
    let Seating { seats, own } = sender;
    let Spot { round, topic } = spot;
    match round {
        1 if topic == own => Some(Signers::only(own)),
        2 if topic < seats && topic != own => Some(Signers::only(topic).with(own)),
        _ => None,
    }
}
