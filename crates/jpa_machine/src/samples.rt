//! Samples of the machine of a provider (Jakarta Persistence 3.1, chapters 3 and 7): worked
//! examples with what they answer.
//!
//! Statements alone, with no code: they are evaluated by each check, so that the definitions that a
//! provider is proved to meet are tried on what they should say, and their evaluation is no part of
//! the check of a larger crate.
