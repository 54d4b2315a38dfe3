// An account of the protocol's pieces: a graded agreement and a base agreement, each with a liar, from beginning to end, and a plan of rounds.
#![tactic(auto)]

mod liar;
mod parties;
mod planning;
mod relay_telling;
mod relaying;
mod rounds;
mod telling;

use std::io;

fn main(rt: HostRuntime) -> io::Result<()> {
    graded_agreement(&rt)?;
    base_agreement(&rt)?;
    planning::plan(&rt)
}

fn graded_agreement(rt: &HostRuntime) -> io::Result<()> {
    let mut honest = parties::enter();
    telling::opening(rt)?;
    for round in 1..=4 {
        rounds::speech(rt, round, &honest)?;
        let before = honest;
        rounds::hear::<_, { parties::SLOTS }>(&before, &mut honest, round);
        telling::beliefs(rt, round, &honest)?;
    }
    Ok(())
}

fn base_agreement(rt: &HostRuntime) -> io::Result<()> {
    let mut honest = relaying::enter();
    relay_telling::opening(rt)?;
    for round in 1..=2 {
        rounds::speech(rt, round, &honest)?;
        let before = honest;
        rounds::hear::<_, { relaying::SLOTS }>(&before, &mut honest, round);
        relay_telling::seen(rt, &honest)?;
    }
    relay_telling::answers(rt, &honest)
}
