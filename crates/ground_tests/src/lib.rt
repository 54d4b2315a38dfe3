// Tests of the ground: sets of signers, counts, refusals, and the graded agreement's roles, forms and rounds.
#![tactic(auto)]

#[cfg(test)]
mod counts;
#[cfg(test)]
mod forms;
#[cfg(test)]
mod refusals;
#[cfg(test)]
mod roles;
#[cfg(test)]
mod rounds;
#[cfg(test)]
mod sets;
#[cfg(test)]
mod slots;
