//! Steps over the text that allocate nothing.
ghost use Rattle.std.specs.Prelude.{◌≡◌, ◌<◌, ◌≤◌, ◌+◌, length, drop, slice_index};
ghost use Rattle.std.specs.List.{prefix_len};
ghost use Rattle.jpql_grammar.specs.grammar.Lexing.{run, first};
ghost use Rattle.jpql_grammar.specs.lexer.Classes as spec;

/// A set of bytes, to find a run of them.
#[derive(Clone, Copy)]
pub enum Class {
    Word,
    Digit,
    Unquoted,
}

fn is_in(class: Class, byte: u8) -> bool
    ensures { result ≡ spec.is_in class byte }
{
    match class {
        Class::Word => byte.is_ascii_alphanumeric() || byte == b'_',
        Class::Digit => byte.is_ascii_digit(),
        Class::Unquoted => byte != b'\'',
    }
}

fn run_length(class: Class, bytes: &[u8]) -> usize
    ensures value { result ≡ prefix_len (spec.is_in class) bytes.now }
    ensures within { result ≤ length bytes.now }
{
    let mut end = 0;
    while end < bytes.len() && is_in(class, bytes[end]) {
        end += 1;
    }
    end
}

/// The bytes of the class at the front, and the text after them.
pub fn split_run(class: Class, text: &str) -> (&str, &str)
    ensures value { (result.0.now, result.1.now) ≡ run (spec.is_in class) text.now }
{
    text.split_at(run_length(class, text.as_bytes()))
}

/// The first byte, or 0.
pub fn first(text: &str) -> u8
    ensures { result ≡ first text.now }
{
    match text.as_bytes() {
        [] => 0,
        [byte, ..] => *byte,
    }
}

/// What follows the first byte, which is ASCII.
pub fn skip_one(text: &str) -> &str
    requires some { 0 < length text.now }
    requires ascii { first text.now < 128 }
    ensures { result.now ≡ drop 1 text.now }
{
    &text[1..]
}
