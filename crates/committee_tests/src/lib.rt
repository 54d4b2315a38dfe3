// Tests of committees on plain numbers: how many rounds they take, which stage a round is, and how many signatures they may send.
#![tactic(auto)]

#[cfg(test)]
mod halves;
#[cfg(test)]
mod numbers;
#[cfg(test)]
mod parts;
#[cfg(test)]
mod plans;
#[cfg(test)]
mod totals;
