//! Tests of the crates below the program, on whole files: [`stat`], [`explain`] and [`map`], what is refused to a run,
//! files that are written meanwhile, and the parts of a run.
#![tactic(auto)]

#[cfg(test)]
mod explain;
#[cfg(test)]
mod map;
#[cfg(test)]
mod parts;
#[cfg(test)]
mod refusals;
#[cfg(test)]
mod runs;
#[cfg(test)]
mod stat;
#[cfg(test)]
mod support;
#[cfg(test)]
mod versions;
