// What a protocol among k seats is, in rounds, and what it means to play it: the definitions stand in specs/.
#![tactic(auto)]

ghost use Rattle.std.specs.Prelude.{◌<◌, ◌≤◌};
ghost use Rattle.message.specs.Members.{most_parties};

pub mod agreement;
pub mod facts;
pub mod slots;

// What has a form is listed, signed by each of its signers, or a certificate, one signature of all of them together.
#[derive(Clone, Copy, PartialEq, Eq, Debug)]
pub enum Form {
    Listed,
    Certificate,
}

// Where a message stands: in a round, counted from 1, under a topic, 0 to 7.
#[derive(Clone, Copy, PartialEq, Eq, Debug)]
pub struct Spot {
    pub round: u32,
    pub topic: u32,
}

// One seat among so many, numbered from 0. There are never more seats than there can be parties.
#[derive(Clone, Copy, PartialEq, Eq, Debug)]
pub struct Seating {
    pub seats: u32,
    pub own: u32,
    ghost few: { seats ≤ most_parties },
    ghost seated: { own < seats },
}
