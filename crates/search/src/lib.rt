// The branching step, which calls itself on each side, and a run. Each function is equal to its definition in the crate `steps`.
#![tactic(auto)]

mod branch;
pub mod run;
