// The graded agreement of Momose and Ren (their Figure 2): four rounds from which each seat leaves with a day and a grade.
#![tactic(auto)]

pub mod facts;
pub mod seats;
pub mod table;
