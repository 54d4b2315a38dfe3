// The base agreement as text: what is said, what each honest seat has then seen under each topic, and what it answers.
use crate::relaying::{INPUTS, LIAR};
use crate::rounds::Honest;
use crate::telling::Signed;
use base::keeping::Kept;
use base::relays::Relays;
use message::Message;
use protocol::agreement::BaseAgreement;
use std::{fmt, io};

// A message under a topic, said to somebody.
#[derive(Clone, Copy)]
pub(crate) struct UnderTopic {
    pub(crate) topic: u32,
    pub(crate) message: Message,
}

impl fmt::Display for UnderTopic {
    fn fmt<W: fmt::Write>(&self, f: &mut fmt::Formatter<W>) -> fmt::Result {
        let topic = self.topic;
        let signed = Signed(self.message);
        write!(f, " under topic {topic}: {signed}")
    }
}

pub(crate) fn opening(rt: &HostRuntime) -> io::Result<()> {
    let [a, b, c] = INPUTS;
    println!(rt;
        "four seats that relay, inputs {a} {b} {c}, and seat {LIAR} tells different seats different days\n\
         a topic is for one seat's day, and what is seen is listed by topic; its entry is the one day seen, absent if there are several; most entries win"
    )
}

// What each honest seat has seen so far, topic by topic.
pub(crate) fn seen(rt: &HostRuntime, honest: &[Kept; 3]) -> io::Result<()> {
    for seat in honest {
        let own = seat.own();
        let [a, b, c, d] = seat.relay.seen;
        println!(rt; "  seat {own} has seen {a}, {b}, {c}, {d}")?;
    }
    Ok(())
}

pub(crate) fn answers(rt: &HostRuntime, honest: &[Kept; 3]) -> io::Result<()> {
    for seat in honest {
        let own = seat.own();
        let day = Relays::day(seat);
        println!(rt; "seat {own} answers {day}")?;
    }
    Ok(())
}
