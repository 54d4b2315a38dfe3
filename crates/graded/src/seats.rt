// One seat's steps: what it says, what it keeps of what arrives, and what it leaves with.
ghost use Rattle.std.specs.Prelude.{◌≡◌, ◌<◌, ◌≤◌, length};
ghost use Rattle.message.specs.Members.{most_parties};
ghost use Rattle.protocol.specs.Inboxes.{days};
ghost use Rattle.graded.specs.Steps.{word as own_word, certificate as certificate_of, unless_disputed, start as at_first, says as said_as, send as sent, hear_last, hear as heard, outcome as leaves_with};

use crate::table::Role;
use message::entries::{NamesDay, disputed, naming, reaching};
use message::sets::quorum;
use message::{Day, Message, Signers};
use protocol::Spot;
use protocol::slots::under;

// What one seat keeps from round to round.
#[derive(Clone, Copy, PartialEq, Eq, Debug)]
pub struct Seat {
    // how many seats there are, and which one this is
    pub seats: u32,
    pub own: u32,
    // its input and, after the last round, the day and the grade that it leaves with
    pub day: Day,
    pub grade: bool,
    // the certificate that the echoes of round 1 made, if a quorum named one day
    pub echoes: Option<Message>,
    // the day that it votes for, unless certificates of echoes disputed it in round 2
    pub vote: Option<Day>,
    // the certificate that the votes of round 3 made
    pub votes: Option<Message>,
}

impl Seat {
    // A seat before the first round.
    pub fn start(seats: u32, own: u32, day: Day) -> Seat
        ensures { result ≡ at_first seats own day }
    {
        Seat {
            seats,
            own,
            day,
            grade: false,
            echoes: None,
            vote: None,
            votes: None,
        }
    }

    // What it says to all seats in a role, if anything.
    pub fn says(&self, role: Role) -> Option<Message>
        requires { self.now.own < most_parties }
        ensures { result ≡ said_as self.now role }
    {
        match role {
            Role::Echo => word(self.own, Some(self.day)),
            Role::EchoCertificate => self.echoes,
            Role::Vote => word(self.own, self.vote),
            Role::VoteCertificate => self.votes,
            Role::SecondVote => word(self.own, self.votes.day()),
        }
    }

    // What it says to all seats at a spot, if anything.
    pub fn send(&self, spot: Spot) -> Option<Message>
        requires { self.now.own < most_parties }
        ensures { result ≡ sent self.now spot.round spot.topic }
    {
        Role::at(spot).and_then(|role| self.says(role))
    }

    // What it keeps after a round in which this arrived: what seat i said under topic t is expected at t * seats + i. Whoever calls this
    // has left out what has no form.
    pub fn hear(self, round: u32, inbox: &[Option<Message>]) -> Seat
        requires { self.seats ≤ most_parties }
        ensures is { result ≡ heard self round inbox.now }
        ensures sits { (result.seats ≡ self.seats) × (result.own ≡ self.own) }
    {
        let first = under(inbox, self.seats, 0);
        match round {
            1 => Seat {
                echoes: certificate(self.seats, first),
                ..self
            },
            2 => Seat {
                vote: undisputed(first, self.echoes.day()),
                ..self
            },
            3 => Seat {
                votes: certificate(self.seats, first),
                ..self
            },
            4 => self.hear_last(first, under(inbox, self.seats, 1)),
            _ => self,
        }
    }

    // The last step: the day and the grade that it leaves with.
    pub fn outcome(self) -> (Day, bool)
        ensures { result ≡ leaves_with self }
    {
        (self.day, self.grade)
    }

    fn hear_last(self, certificates: &[Option<Message>], seconds: &[Option<Message>]) -> Seat
        ensures { result ≡ hear_last self certificates.now seconds.now }
    {
        Seat {
            day: reaching(certificates, 1).unwrap_or(self.day),
            grade: reaching(seconds, quorum(self.seats) as usize).is_some(),
            ..self
        }
    }
}

// A seat's own word on a day, if there is one.
pub fn word(own: u32, day: Option<Day>) -> Option<Message>
    requires { own < most_parties }
    ensures { result ≡ own_word own day }
{
    let signers = Signers::only(own);
    day.map(|day| Message { day, signers })
}

// The certificate that a quorum of words on one day makes; all who said it sign it.
#[tactic(auto, using(crate::proofs::Reading::certificate_of_words))]
fn certificate(seats: u32, words: &[Option<Message>]) -> Option<Message>
    requires { length words.now ≤ most_parties }
    ensures { result ≡ certificate_of seats (days words.now) }
{
    reaching(words, quorum(seats) as usize).map(|day| Message {
        day,
        signers: naming(words, day),
    })
}

// The day, unless a certificate of another has arrived.
#[tactic(auto, using(crate::proofs::Grades::is_undisputed, crate::proofs::Grades::disputed_is_none))]
fn undisputed(certificates: &[Option<Message>], day: Option<Day>) -> Option<Day>
    ensures { result ≡ unless_disputed (days certificates.now) day }
{
    day.filter(|day| !disputed(certificates, *day))
}
