//! Tests of what neither a run of the program nor an example shows: readers and writers that fail,
//! the names of all refusals, some functions by themselves, and the store, from its cells to the
//! rows and the changes over them. They stand in a crate of their own, so that they are proved over
//! the libraries and not with them once more.
#![tactic(auto)]

#[cfg(test)]
mod asking;
#[cfg(test)]
mod cells;
#[cfg(test)]
mod grammar;
#[cfg(test)]
mod hearing;
#[cfg(test)]
mod pairs;
#[cfg(test)]
mod refusals;
#[cfg(test)]
mod related;
#[cfg(test)]
mod rows;
#[cfg(test)]
mod stops;
#[cfg(test)]
mod undo;
