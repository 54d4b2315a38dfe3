// The plan of five parties whose small committees relay, round by round.
use committee::plan::Plan;
use committee::sizes::Sizes;
use committee::stages::{Committee, Stage};
use std::io;

const PARTIES: u32 = 5;

pub(crate) fn plan(rt: &HostRuntime) -> io::Result<()> {
    let plan = Plan::new(Sizes::new(4, [0, 2, 2, 2], 4), PARTIES);
    let total = plan.total();
    println!(rt;
        "the plan of five parties, where committees of at most four relay, has {total} rounds"
    )?;
    for closed in 0..total {
        if let Some(stage) = plan.stage(closed) {
            line(rt, closed + 1, stage)?;
        }
    }
    Ok(())
}

fn line(rt: &HostRuntime, round: u32, stage: Stage) -> io::Result<()> {
    let Stage {
        committee,
        part,
        round: own_round,
        ..
    } = stage;
    let Committee { number, first, .. } = committee;
    let last = last_party(committee);
    println!(rt;
        "round {round}: committee {number} (parties {first} to {last}), {part}, round {own_round}"
    )
}

// A committee has at least one party, and there are few: nothing is cut off here.
fn last_party(committee: Committee) -> u32 {
    committee
        .first
        .saturating_add(committee.size)
        .saturating_sub(1)
}
