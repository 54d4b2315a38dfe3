// The graded agreement as text: what is said, what each honest party then believes, and what it leaves with.
ghost use Rattle.std.specs.Prelude.{◌≤◌};

use crate::liar::LIAR;
use crate::parties::{INPUTS, PARTIES, Party};
use crate::rounds::Honest;
use graded::table::Role;
use message::Message;
use message::sets::{MOST_PARTIES, quorum};
use protocol::Spot;
use std::{fmt, io};

// A message: its day, and its signers where there are several.
#[derive(Clone, Copy)]
pub(crate) struct Signed(pub(crate) Message);

impl fmt::Display for Signed {
    fn fmt<W: fmt::Write>(&self, f: &mut fmt::Formatter<W>) -> fmt::Result {
        let Message { day, signers } = self.0;
        write!(f, "{day}")?;
        // one who signs alone speaks for itself, and is named in the line already
        if signers.len() > 1 {
            f.write_str(", signed by")?;
            for signer in (0..MOST_PARTIES).filter(|i| signers.contains(*i)) {
                write!(f, " {signer}")?;
            }
        }
        Ok(())
    }
}

// A message and its role, which tells a vote from an echo.
#[derive(Clone, Copy)]
pub(crate) struct Saying {
    pub(crate) role: Role,
    pub(crate) message: Message,
}

impl fmt::Display for Saying {
    fn fmt<W: fmt::Write>(&self, f: &mut fmt::Formatter<W>) -> fmt::Result {
        let role = self.role;
        let signed = Signed(self.message);
        write!(f, "{role} {signed}")
    }
}

// The same, said to somebody.
#[derive(Clone, Copy)]
pub(crate) struct Spoken(pub(crate) Saying);

impl fmt::Display for Spoken {
    fn fmt<W: fmt::Write>(&self, f: &mut fmt::Formatter<W>) -> fmt::Result {
        let saying = self.0;
        write!(f, ": {saying}")
    }
}

pub(crate) fn opening(rt: &HostRuntime) -> io::Result<()> {
    let [a, b, c, d] = INPUTS;
    let enough = quorum(PARTIES);
    println!(rt;
        "five parties, inputs {a} {b} {c} {d}, and party {LIAR} tells different peers different days; a quorum is {enough}\n\
         who is not listed in a round says nothing in it; who hears a quorum of second votes for one day leaves at grade 1"
    )
}

// What each honest party believes after a round, and at the end leaves with.
pub(crate) fn beliefs(rt: &HostRuntime, round: u32, honest: &[Party; 4]) -> io::Result<()>
    requires { round ≤ 4 }
{
    let next = Spot {
        round: round + 1,
        topic: 0,
    };
    for party in honest {
        match Role::at(next) {
            Some(role) => belief(rt, party, next, role)?,
            None => leaving(rt, party)?,
        }
    }
    Ok(())
}

// A party believes what it would say next.
fn belief(rt: &HostRuntime, party: &Party, next: Spot, role: Role) -> io::Result<()> {
    let own = party.own();
    let (can, cannot) = outlook(role);
    match party.says(next) {
        Some(message) => {
            let saying = Saying { role, message };
            println!(rt; "  party {own} {can} {saying}")
        }
        None => println!(rt; "  party {own} {cannot}"),
    }
}

// After the last round there is no next, and it leaves.
fn leaving(rt: &HostRuntime, party: &Party) -> io::Result<()> {
    let own = party.own();
    let (day, sure) = party.seat.outcome();
    let grade = u8::from(sure);
    println!(rt; "party {own} leaves with day {day} at grade {grade}")
}

// How a belief is worded: what comes before what the party would say, and what is said of a party that would say nothing.
fn outlook(role: Role) -> (&'static str, &'static str) {
    match role {
        Role::EchoCertificate => ("holds a", "holds no certificate of echoes"),
        Role::VoteCertificate => ("holds a", "holds no certificate of votes"),
        Role::Echo | Role::Vote | Role::SecondVote => ("will", "will not vote"),
    }
}
