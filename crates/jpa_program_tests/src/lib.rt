//! Tests of the program's runs over a store. They stand in a crate of their own, so that they are
//! proved over the program and not with it once more.
#![tactic(auto)]

#[cfg(test)]
mod runs;
