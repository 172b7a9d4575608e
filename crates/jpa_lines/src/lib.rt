//! The program's edge, as text: lines of calls and replies, the words of the command line, and exit
//! statuses.
#![tactic(auto)]

pub mod lines;
pub mod settings;
