//! Entries by key that are read off rows, and rows with changes over them.
//!
//! Definitions and their laws alone, over plain variables, so that they serve objects, pairs and
//! next numbers alike.
