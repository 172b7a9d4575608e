//! Tokens, and the words of the grammar.
ghost use Rattle.std.specs.Prelude.{◌≡◌};
ghost use Rattle.jpql_grammar.specs.grammar.Same.{same_mark, same_keyword};

use jpa_value::Text;
use jpql_trees::tree::{Aggregate, Function};

/// A word of the grammar (chapter 4.4.1, reserved identifiers).
#[derive(Clone, Copy, Debug, PartialEq, Eq)]
pub enum Keyword {
    Select,
    Distinct,
    From,
    Where,
    Group,
    By,
    Having,
    Order,
    As,
    Inner,
    Left,
    Outer,
    Join,
    On,
    Asc,
    Desc,
    Update,
    Set,
    Null,
    Delete,
    Or,
    And,
    Not,
    Between,
    In,
    Like,
    Escape,
    Is,
    Empty,
    Member,
    Of,
    Exists,
    Type,
    Length,
    Concat,
    Substring,
    Locate,
    Abs,
    Mod,
    Size,
    Coalesce,
    NullIf,
    Count,
    Sum,
    Min,
    Max,
    Upper,
    Lower,
    Trim,
    Leading,
    Trailing,
    Both,
    Case,
    When,
    Then,
    Else,
    End,
    All,
    Any,
    Some,
}

/// What a keyword calls.
#[derive(Clone, Copy)]
pub enum Callee {
    Function(Function),
    Size,
    Aggregate(Aggregate),
    /// TRIM, whose arguments stand in an order of its own.
    Trim,
    Other,
}

/// A mark.
#[derive(Clone, Copy, Debug, PartialEq, Eq)]
pub enum Mark {
    Comma,
    Dot,
    Open,
    Close,
    Plus,
    Minus,
    Star,
    Equal,
    Different,
    Less,
    AtMost,
    Greater,
    AtLeast,
}

/// A token. A word of the grammar keeps how it is written, since it may stand for a name.
#[derive(Drop)]
pub enum Token {
    Word(Text),
    Key(Keyword, Text),
    Number(i64),
    Quoted(Text),
    Parameter(Text),
    Mark(Mark),
}

impl Mark {
    /// Whether this is the other mark.
    pub fn is(self, other: Mark) -> bool
        ensures { result ≡ same_mark self other }
    {
        self == other
    }
}

impl Keyword {
    /// Whether this is the other word.
    pub fn is(self, other: Keyword) -> bool
        ensures { result ≡ same_keyword self other }
    {
        other == self
    }
}
