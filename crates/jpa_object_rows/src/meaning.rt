//! The rows of stored objects, the set of stored objects that rows stand for, and how a change of
//! rows changes it.
//!
//! Definitions and their laws alone. Nothing above this crate sees a row: reading and changing rows
//! is reading and changing stored objects by identity. The laws are said of rows by their bytes
//! first (`proofs/Bytes`), and then of the typed ids and contents of `jpa_rows`: what is known of
//! their bytes holds of them too, since keys are in the order of their bytes.
