//! The limits of the profile, each once (the profile's own choice where the standard sets none).

/// The most bytes of a text or a byte value.
pub const MOST_BYTES: usize = 65_535;

/// The most objects that one run makes or loads.
pub const MOST_OBJECTS: usize = 1_000_000;

/// The most entity managers that are open at a time.
pub const MOST_OPEN_MANAGERS: usize = 16;

/// The most bytes of a line of calls, without its line feed.
pub const MOST_LINE_BYTES: usize = 1_048_576;

/// The most bytes of a query's text.
pub const MOST_QUERY_BYTES: usize = 16_384;

/// The most parentheses of a query that are open at some place.
pub const MOST_OPEN_PARENTHESES: usize = 32;

/// The most variables that a query declares.
pub const MOST_QUERY_VARIABLES: usize = 8;
