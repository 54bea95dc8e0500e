// The lines around a script: what a program that runs scripts takes, and what it writes.
#![tactic(auto)]

pub mod intake;
pub mod replies;
pub mod run_lines;
