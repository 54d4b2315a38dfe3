// Committees on plain numbers: how many rounds one takes, which stage a round is, and how many signatures it may send.
#![tactic(auto)]

mod counting;
pub mod plan;
pub mod sizes;
pub mod stages;
