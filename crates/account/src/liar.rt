// The liar in the graded agreement: what it tells to each peer.
ghost use Rattle.std.specs.Prelude.{◌≡◌};
ghost use Rattle.graded.specs.Steps.{word as own_word};
ghost use Rattle.account.specs.Lies.{liar, told};

use graded::seats::{Seat, word};
use graded::table::Role;
use message::{Day, Message};

pub const LIAR: u32 = 4;

// What the liar says to a peer in a role, if anything. It cannot sign for anybody else.
pub(crate) fn lie(role: Role, peer: &Seat) -> Option<Message>
    ensures { result ≡ own_word liar (told role peer.now) }
{
    word(LIAR, day_told(role, peer))
}

// Every peer hears its own input back, which makes a quorum at parties 0 and 1 and at nobody else. One second vote then
// makes a quorum at party 2 alone.
fn day_told(role: Role, peer: &Seat) -> Option<Day>
    ensures { result ≡ told role peer.now }
{
    match role {
        Role::Echo | Role::Vote => Some(peer.day),
        Role::SecondVote if peer.own == 2 => Some(7),
        Role::SecondVote | Role::EchoCertificate | Role::VoteCertificate => None,
    }
}
