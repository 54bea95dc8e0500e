// One line of a script and the frame that it is: digits, lines, frames and expressions.
#![tactic(auto)]

pub mod digits;
pub mod expressions;
pub mod frames;
pub mod lines;
