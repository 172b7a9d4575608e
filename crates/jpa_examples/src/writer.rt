//! Text that grows by pieces.
use std::alloc::{AllocError, Global};
use std::fmt::Display;

/// A text that grows by pieces. It remembers that memory was refused for one, so that only its end
/// has to be asked.
#[derive(Drop)]
pub(crate) struct Writer {
    text: String,
    is_refused: bool,
}

impl Writer {
    /// No text yet. Takes no memory.
    pub(crate) fn new(alloc: Global) -> Writer {
        Writer {
            text: String::new(alloc),
            is_refused: false,
        }
    }

    /// Adds a text.
    pub(crate) fn add(&mut self, piece: &str) {
        if self.text.push_str(piece).is_err() {
            self.is_refused = true;
        }
    }

    /// Adds what a value is shown as.
    pub(crate) fn show<T: Display>(&mut self, shown: &T) {
        if write!(self.text, "{shown}").is_err() {
            self.is_refused = true;
        }
    }

    /// The text, unless memory was refused for a piece of it.
    pub(crate) fn finish(self) -> Result<String, AllocError> {
        let Writer { text, is_refused } = self;
        if is_refused {
            Err(AllocError)
        } else {
            Ok(text)
        }
    }
}
