// Days, sets of signers and messages: the words that every layer above speaks in.
#![tactic(auto)]

ghost use Rattle.std.specs.Prelude.{◌≡◌};
ghost use Rattle.message.specs.Tally.{before as comes_before};

pub mod entries;
pub mod refusals;
pub mod sets;

// A day: 0 to 65535, of which 0 is 1 January 1970.
pub type Day = u16;

// A machine word, with room for a bit per party.
pub(crate) type Word = u32;

// A set of signers, as a mask: bit i stands for member i. Members are seats inside a committee's agreement, and parties on the wire.
#[derive(Clone, Copy, PartialEq, Eq, Debug)]
pub struct Signers {
    pub mask: Word,
}

// What a slot holds: a day, and who has signed it. The slot itself gives the topic, the sender and the receiver.
#[derive(Clone, Copy, PartialEq, Eq, Debug)]
pub struct Message {
    pub day: Day,
    pub signers: Signers,
}

// Whether day u comes before day v: the one order by which lowest days are chosen.
pub fn before(u: Day, v: Day) -> bool
    ensures { result ≡ comes_before u v }
{
    u < v
}
