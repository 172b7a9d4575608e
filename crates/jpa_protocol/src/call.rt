//! The calls.

use jpa_value::{Seq, Text, Value};

/// What a call hands in as a value: of an attribute or a link, or of a part of a key.
#[derive(Drop)]
pub enum Given {
    /// A value, or null.
    Plain(Value),
    /// An object by its number, from 1.
    Object(i64),
}

/// How an object is locked (Jakarta Persistence 3.1, chapter 3.4.4).
#[derive(Clone, Copy)]
pub enum LockMode {
    /// Its version is to be the stored one when the transaction commits.
    Read,
    /// Its version rises, once in the transaction.
    Write,
}

/// When the objects of a manager are written (Jakarta Persistence 3.1, chapter 3.10.8).
#[derive(Clone, Copy)]
pub enum FlushMode {
    /// Before each query in its transaction too, so that the query finds what the objects hold.
    Auto,
    /// When flush is called or the transaction commits, and not before a query.
    Commit,
}

/// What is handed in for a parameter: one value or object, or a collection of such, which stands
/// behind IN (chapters 4.6.4 and 4.6.9).
#[derive(Drop)]
pub enum ParameterValue {
    Single(Given),
    Collection(Seq<Given>),
}

/// A parameter of a statement, named as its text does: `x` for `:x`, and `1` for `?1` (Jakarta
/// Persistence 3.1, chapter 4.6.4).
#[derive(Drop)]
pub struct Parameter {
    pub name: Text,
    pub value: ParameterValue,
}

/// A call. Managers and objects go by their numbers, from 1; a number that names none is refused
/// when the call is served (Jakarta Persistence 3.1, chapter 3).
#[derive(Drop)]
pub enum Call {
    /// Makes an entity manager.
    CreateEntityManager,
    /// Makes an object of an entity, which no manager knows yet.
    NewObject {
        entity: Text,
    },
    /// Gives an attribute or relation of an object, by its name, a value.
    SetValue {
        object: i64,
        name: Text,
        value: Given,
    },
    /// Asks what an attribute or relation of an object holds, by its name (chapter 3.2).
    Get {
        object: i64,
        name: Text,
    },
    /// Adds an object as the last member of a collection of another, by the relation's name
    /// (chapter 2.2).
    Add {
        object: i64,
        name: Text,
        member: i64,
    },
    /// Takes the first occurrence of an object out of a collection of another, by the relation's
    /// name (chapter 2.2).
    TakeOut {
        object: i64,
        name: Text,
        member: i64,
    },
    /// Begins the transaction of a manager.
    Begin {
        em: i64,
    },
    /// Makes an object managed.
    Persist {
        em: i64,
        object: i64,
    },
    /// Removes an object (chapter 3.2.3).
    Remove {
        em: i64,
        object: i64,
    },
    /// Gives an object the state that is stored (chapter 3.2.5).
    Refresh {
        em: i64,
        object: i64,
    },
    /// Detaches an object (chapter 3.2.7).
    Detach {
        em: i64,
        object: i64,
    },
    /// Makes what an object and those that it leads to hold the state of managed objects (chapter
    /// 3.2.7.1).
    Merge {
        em: i64,
        object: i64,
    },
    /// Locks an object in the manager's transaction (chapter 3.4.4).
    Lock {
        em: i64,
        object: i64,
        mode: LockMode,
    },
    /// Asks whether an object is managed (chapter 3.2.8).
    Contains {
        em: i64,
        object: i64,
    },
    /// Detaches all objects of a manager (chapter 3.2.7).
    Clear {
        em: i64,
    },
    /// Closes a manager (chapter 7.2); its number names none from then on.
    Close {
        em: i64,
    },
    /// Writes what a manager's objects differ in from the set that its transaction sees (chapter
    /// 3.2.4).
    Flush {
        em: i64,
    },
    /// Says when a manager's objects are written (chapter 3.10.8).
    SetFlushMode {
        em: i64,
        mode: FlushMode,
    },
    /// Commits the transaction of a manager.
    Commit {
        em: i64,
    },
    /// Rolls back the transaction of a manager (chapter 7.5).
    Rollback {
        em: i64,
    },
    /// Marks the transaction of a manager so that it can only roll back (chapter 7.5).
    SetRollbackOnly {
        em: i64,
    },
    /// Finds an object by its entity and the parts of its key.
    Find {
        em: i64,
        entity: Text,
        key: Seq<Given>,
    },
    /// Finds an object that there must be, by its entity and the parts of its key.
    GetReference {
        em: i64,
        entity: Text,
        key: Seq<Given>,
    },
    /// Asks for the rows of a query: the first rows, `first` of them, are left out, and then at
    /// most `max` are answered (chapter 3.10.1).
    Query {
        em: i64,
        text: Text,
        parameters: Seq<Parameter>,
        first: Option<i64>,
        max: Option<i64>,
    },
    /// Asks for the row of a query of which there must be one, among those that `Query` answers
    /// (chapter 3.10.1).
    QuerySingle {
        em: i64,
        text: Text,
        parameters: Seq<Parameter>,
        first: Option<i64>,
        max: Option<i64>,
    },
    /// Executes an UPDATE or a DELETE in the manager's transaction (chapter 4.11).
    ExecuteUpdate {
        em: i64,
        text: Text,
        parameters: Seq<Parameter>,
    },
    /// Asks what these objects hold, and reads nothing of the store for it.
    Values {
        objects: Seq<i64>,
    },
    /// Asks which callbacks a flush would run before it writes, if it came now (chapter 3.5.2).
    Pending {
        em: i64,
    },
    /// Lets all managers and objects go, while no transaction is open; their numbers begin anew.
    Restart,
    /// Says that an attribute or a part of a key of an entity, by its name, will be looked up.
    Index {
        entity: Text,
        name: Text,
    },
}
