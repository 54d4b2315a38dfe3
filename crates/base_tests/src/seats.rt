// Seats that relay, and what reaches each of them.
ghost use Rattle.std.specs.Prelude.{◌<◌, ◌≤◌};

use base::keeping::Kept;
use base::relays::Relays;
use message::{Day, Message, Signers};
use protocol::agreement::BaseAgreement;
use protocol::{Seating, Spot};
use std::array;

// What reaches one seat in a round: what seat i of k says under topic t stands at t * k + i.
type Inbox = [Option<Message>; 16];

// The seats before the first round, by their inputs.
pub(crate) fn start<const N: usize>(inputs: [Day; N]) -> [Kept; N]
    requires { N ≤ 4 }
{
    array::from_fn(
        |i|
            requires { (i < N) × (N ≤ 4) }
        {
            let own = Seating {
                seats: N as u32,
                own: i as u32,
            };
            Relays::start(own, inputs[i])
        },
    )
}

// A day in a slot, 0 for an empty one; whoever listens goes by the place of a slot, and not by who has signed.
pub(crate) fn slot(day: Day) -> Option<Message> {
    let signers = Signers::none();
    (day != 0).then_some(Message { day, signers })
}

// The seats after a round in which all are honest.
pub(crate) fn hear_all<const N: usize>(seats: [Kept; N], round: u32) -> [Kept; N] {
    let inbox = said(&seats, round);
    array::from_fn(|i| Relays::hear(seats[i], round, &inbox))
}

// The seats after a round in which seat 0 is corrupt, and under its own topic tells each seat a day, 0 for none.
pub(crate) fn hear_lies<const N: usize>(seats: [Kept; N], round: u32, lies: [Day; N]) -> [Kept; N] {
    let honest = said(&seats, round);
    array::from_fn(|i| Relays::hear(seats[i], round, &lied(honest, N, lies[i])))
}

// What the seats answer.
pub(crate) fn days<const N: usize>(seats: &[Kept; N]) -> [Day; N] {
    array::from_fn(|i| Relays::day(&seats[i]))
}

// What all seats say in a round.
fn said<const N: usize>(seats: &[Kept; N], round: u32) -> Inbox {
    let mut inbox = [None; 16];
    for (topic, row) in inbox.chunks_mut(N.max(1)).enumerate() {
        for (slot, seat) in row.iter_mut().zip(seats) {
            *slot = Relays::send(
                seat,
                Spot {
                    round,
                    topic: topic as u32,
                },
            );
        }
    }
    inbox
}

// The same, but that seat 0 of k only tells this day under its own topic.
fn lied(honest: Inbox, k: usize, lie: Day) -> Inbox {
    let mut inbox = honest;
    for row in inbox.chunks_mut(k.max(1)) {
        row[0] = None;
    }
    inbox[0] = slot(lie);
    inbox
}
