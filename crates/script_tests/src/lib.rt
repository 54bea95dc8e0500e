#![tactic(auto)]

// Scripts at the boundary of each refusal, on both sides, under both kinds of levels. Nothing here is used by other crates.
#[cfg(test)]
mod calls;
#[cfg(test)]
mod meanings;
#[cfg(test)]
mod refusals;
