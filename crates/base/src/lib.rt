// Base agreements, by which small committees agree: one seat alone, and up to four that relay one another's days.
#![tactic(auto)]

pub mod keeping;
pub mod lone;
mod most;
pub mod relays;
