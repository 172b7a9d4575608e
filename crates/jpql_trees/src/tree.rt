//! Queries of the Jakarta Persistence Query Language as trees (Jakarta Persistence 3.1, chapter 4).
//!
//! A tree has a node for each line of the grammar that joins others; parentheses leave none.
//! Contracts see it as plain data: a `Boxed` as what it holds, a `Seq` as a list, a `Text` as its
//! bytes. How a tree is written stands in `jpql_grammar`. The crate stands on `jpa_value`.

use jpa_value::{Boxed, Seq, Text};

/// A comparison (chapter 4.6.7).
#[derive(Clone, Copy)]
pub enum Comparison {
    Equal,
    Different,
    Less,
    AtMost,
    Greater,
    AtLeast,
}

/// The language of a text: the profile's, or the wider one with what applications write most
/// (chapter 4). A text of the profile means the same in both, unless one of its names is a word that
/// the wider language alone keeps to itself.
#[derive(Clone, Copy)]
pub enum Language {
    Profile,
    Wide,
}

/// The sides of a text off which TRIM takes (chapter 4.7.2).
#[derive(Clone, Copy)]
pub enum Trimmed {
    Leading,
    Trailing,
    Both,
}

/// A function over values (chapters 4.7.2, 4.7.3 and 4.7.4). A test of values inside a CASE is one as
/// well, which gives 1 where it is true, 0 where it is false, and null where it is unknown.
#[derive(Clone, Copy)]
pub enum Function {
    Length,
    Concat,
    Substring,
    Locate,
    Abs,
    Mod,
    Coalesce,
    NullIf,
    Upper,
    Lower,
    /// Of the text, and of what is taken off its sides where that isn't the blank.
    Trim(Trimmed),
    /// CASE WHEN: of each test with the value behind its THEN, and of the value behind ELSE.
    Case,
    /// CASE of a value: of that value, and then as CASE WHEN, with what it is compared with as tests.
    Match,
    Test(Comparison),
    IsBetween,
    /// IN: of a value, and of those among which it may be.
    IsAmong,
    /// LIKE: of a text and a pattern, and of what escapes in the pattern, where that is written.
    IsLike,
    IsNull,
    And,
    Or,
    Not,
}

/// An aggregate: a function over the tuples of a group (chapter 4.9.5).
#[derive(Clone, Copy)]
pub enum Aggregate {
    Count,
    Sum,
    Min,
    Max,
}

/// What a value is compared with of the rows of a subquery: any of them, all of them (chapters 4.6.9
/// and 4.6.15), or what an aggregate gives of them, with whether DISTINCT is written (4.9.5).
#[derive(Clone, Copy)]
pub enum Against {
    Any,
    All,
    One(Aggregate, bool),
}

/// A sign.
#[derive(Clone, Copy)]
pub enum Sign {
    Plus,
    Minus,
}

/// How two numbers are joined (chapter 4.7.1).
#[derive(Clone, Copy)]
pub enum Arithmetic {
    Plus,
    Minus,
    Times,
}

/// A path expression: an identification variable and the names after its dots (chapter 4.4.4).
#[derive(Drop)]
pub struct Path {
    pub variable: Text,
    pub names: Seq<Text>,
}

/// A value: a scalar expression, or a path to an entity (chapter 4.7).
#[derive(Drop)]
pub enum Value {
    Integer(i64),
    Text(Text),
    Parameter(Text),
    Path(Path),
    Signed(Sign, Boxed<Value>),
    Arithmetic(Arithmetic, Boxed<Value>, Boxed<Value>),
    Call(Function, Seq<Value>),
    Size(Path),
    /// The aggregate, whether DISTINCT is written, and what it is of.
    Aggregate(Aggregate, bool, Boxed<Value>),
}

/// A SELECT item, with its result variable if it has one (chapter 4.9).
#[derive(Drop)]
pub struct Item {
    pub value: Value,
    pub name: Option<Text>,
}

/// Where a variable comes from: an entity, or a relation of a variable.
#[derive(Drop)]
pub enum Origin {
    Entity(Text),
    Related(Text, Text),
}

/// A conditional expression (chapter 4.6). A NOT inside a test is a NOT of it.
#[cycle(condition)]
#[derive(Drop)]
pub enum Condition {
    Or(Boxed<Condition>, Boxed<Condition>),
    And(Boxed<Condition>, Boxed<Condition>),
    Not(Boxed<Condition>),
    Compare(Comparison, Value, Value),
    Between(Value, Value, Value),
    In(Value, Seq<Value>),
    Like(Value, Value, Option<Text>),
    IsNull(Value),
    IsEmpty(Path),
    Member(Value, Path),
    Exists(Boxed<Block>),
    /// A value beside the rows of a subquery; IN is a comparison by `=` with any of them.
    Rows(Against, Comparison, Value, Boxed<Block>),
    Type(Text, Seq<Text>),
}

/// An identification variable of FROM, with the joins from it (chapter 4.4).
#[cycle(condition)]
#[derive(Drop)]
pub struct Source {
    pub origin: Origin,
    pub variable: Text,
    pub joins: Seq<Join>,
}

/// A join along a relation, with its ON condition (chapter 4.4.5).
#[cycle(condition)]
#[derive(Drop)]
pub struct Join {
    pub is_left: bool,
    pub of: Text,
    pub relation: Text,
    pub variable: Text,
    pub on: Option<Boxed<Condition>>,
}

/// A subquery, which stands in EXISTS or beside a value (chapter 4.6.16). Beside an aggregate its
/// item is what that is of.
#[cycle(condition)]
#[derive(Drop)]
pub struct Block {
    pub is_distinct: bool,
    pub item: Item,
    pub sources: Seq<Source>,
    pub filter: Option<Boxed<Condition>>,
}

/// What ORDER BY sorts by: a result variable, a path, or any other value.
#[derive(Drop)]
pub enum Sorted {
    Name(Text),
    Path(Path),
    Value(Value),
}

/// A key of ORDER BY (chapter 4.10).
#[derive(Drop)]
pub struct SortKey {
    pub by: Sorted,
    pub is_descending: bool,
}

/// A SELECT statement (chapter 4.2.1).
#[derive(Drop)]
pub struct Select {
    pub is_distinct: bool,
    pub items: Seq<Item>,
    pub sources: Seq<Source>,
    pub filter: Option<Boxed<Condition>>,
    pub groups: Seq<Path>,
    pub having: Option<Boxed<Condition>>,
    pub order: Seq<SortKey>,
}

/// What an UPDATE sets: a name of the variable, to a value or to null (chapter 4.11).
#[derive(Drop)]
pub struct Assignment {
    pub variable: Text,
    pub name: Text,
    pub value: Option<Value>,
}

/// A statement (chapter 4.2).
#[derive(Drop)]
pub enum Query {
    Select(Select),
    Update {
        entity: Text,
        variable: Text,
        assignments: Seq<Assignment>,
        filter: Option<Boxed<Condition>>,
    },
    Delete {
        entity: Text,
        variable: Option<Text>,
        filter: Option<Boxed<Condition>>,
    },
}
