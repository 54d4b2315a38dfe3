// Tests of the base agreements: what may be said, what seats that relay answer, and the seat that is alone.
#![tactic(auto)]

#[cfg(test)]
mod alone;
#[cfg(test)]
mod answers;
#[cfg(test)]
mod forms;
#[cfg(test)]
mod seats;
