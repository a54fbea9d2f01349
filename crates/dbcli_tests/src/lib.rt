//! Tests of `dbcli` over files of which a test knows each call: which paths are asked for, and what is said of a file. They have a crate of
//! their own, since a crate with tests is proved twice.
#![tactic(auto)]

#[cfg(test)]
mod cases;
#[cfg(test)]
mod fake_system;
#[cfg(test)]
mod names;
#[cfg(test)]
mod paths;
#[cfg(test)]
mod progress;
#[cfg(test)]
mod stops;
