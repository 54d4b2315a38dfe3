// A round among honest parties and one that lies, whatever it is that they agree by: what reaches whom, and that told as text.
ghost use Rattle.std.specs.Prelude.{◌≤◌};

use message::Message;
use protocol::Spot;
use std::{fmt, io};

// An honest party. Beside all of these sits one more, the last, who lies.
pub(crate) trait Honest: Copy {
    // what those who take part are called
    const CALLED: &'static str;

    // how many topics they speak under
    const TOPICS: u32;

    // what is told of a message, after who says it to whom
    type Line: fmt::Display + Copy;

    // Its number.
    fn own(&self) -> u32;

    // What it says to all at a spot, if anything.
    fn says(&self, spot: Spot) -> Option<Message>;

    // What the liar tells it at a spot, if anything.
    fn is_told(&self, spot: Spot) -> Option<Message>;

    // What it keeps after a round in which this arrived: what party i says under topic t stands at t * parties + i.
    fn hear(self, round: u32, inbox: &[Option<Message>]) -> Self;

    // How a message at a spot is told, if one can stand there.
    fn line(spot: Spot, message: Message) -> Option<Self::Line>;
}

// Takes the honest parties, as they were before, through a round in which N slots reach each.
pub(crate) fn hear<P: Honest, const N: usize>(before: &[P], honest: &mut [P], round: u32)
    requires { N ≤ 16 }
{
    for party in honest {
        *party = party.hear(round, &inbox::<P, N>(before, round, party));
    }
}

// From the honest parties everybody hears the same; only the liar's word depends on who hears it.
fn inbox<P: Honest, const N: usize>(
    honest: &[P],
    round: u32,
    listener: &P,
) -> [Option<Message>; N] {
    let mut inbox = [None; N];
    let parties = honest.len().saturating_add(1);
    for (topic, row) in (0..P::TOPICS).zip(inbox.chunks_mut(parties)) {
        let spot = Spot { round, topic };
        let said = honest.iter().map(|party| party.says(spot));
        for (slot, word) in row.iter_mut().zip(said.chain([listener.is_told(spot)])) {
            *slot = word;
        }
    }
    inbox
}

// What everybody says in a round, topic by topic.
pub(crate) fn speech<P: Honest>(rt: &HostRuntime, round: u32, honest: &[P]) -> io::Result<()> {
    println!(rt; "round {round}")?;
    for topic in 0..P::TOPICS {
        let spot = Spot { round, topic };
        words_to_all(rt, spot, honest)?;
        lies(rt, spot, honest)?;
    }
    Ok(())
}

fn words_to_all<P: Honest>(rt: &HostRuntime, spot: Spot, honest: &[P]) -> io::Result<()> {
    let called = P::CALLED;
    for party in honest {
        let said = party.says(spot).and_then(|message| P::line(spot, message));
        if let Some(line) = said {
            let own = party.own();
            println!(rt; "  {called} {own} says to all{line}")?;
        }
    }
    Ok(())
}

fn lies<P: Honest>(rt: &HostRuntime, spot: Spot, honest: &[P]) -> io::Result<()> {
    let called = P::CALLED;
    let liar = honest.len();
    for party in honest {
        let told = party
            .is_told(spot)
            .and_then(|message| P::line(spot, message));
        if let Some(line) = told {
            let own = party.own();
            println!(rt; "  {called} {liar} says to {called} {own}{line}")?;
        }
    }
    Ok(())
}
