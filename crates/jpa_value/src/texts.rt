//! The numbers, names, details and texts of refusals.
ghost use Rattle.std.specs.Prelude.{◌≡◌, Some, IfOk, IfErr};
ghost use Rattle.jpa_value.specs.Refusal as refusals;
ghost use Rattle.jpa_value.specs.declared.refusal.Cause.{Cause};

use crate::list::Text;
use crate::refusal::{Argument, Cause, MappingFault, PersistenceFault, Refusal, State};
use std::alloc::{AllocError, Global};

impl Argument {
    /// The detail of an `IllegalArgument`.
    pub fn name(self) -> &'static str
        ensures { result.now ≡ refusals.argument_name self }
    {
        match self {
            Argument::Entity => "entity",
            Argument::Name => "name",
            Argument::Type => "type",
            Argument::Key => "key",
            Argument::Version => "version",
            Argument::State => "state",
            Argument::Range => "range",
            Argument::Syntax => "syntax",
            Argument::Typing => "typing",
            Argument::Parameter => "parameter",
            Argument::Second => "second",
        }
    }
}

impl State {
    /// The detail of an `IllegalState`.
    pub fn name(self) -> &'static str
        ensures { result.now ≡ refusals.state_name self }
    {
        match self {
            State::Active => "active",
            State::Inactive => "inactive",
            State::Unfetched => "unfetched",
            State::Reference => "reference",
            State::Statement => "statement",
        }
    }
}

impl PersistenceFault {
    /// The detail of a `Persistence`.
    pub fn name(self) -> &'static str
        ensures { result.now ≡ refusals.persist_name self }
    {
        match self {
            PersistenceFault::Key => "key",
            PersistenceFault::Null => "null",
            PersistenceFault::Reference => "reference",
            PersistenceFault::Unique => "unique",
            PersistenceFault::Generator => "generator",
            PersistenceFault::Version => "version",
            PersistenceFault::Converter => "converter",
            PersistenceFault::Callback => "callback",
        }
    }
}

impl MappingFault {
    /// The detail of a `Mapping`.
    pub fn name(self) -> &'static str
        ensures { result.now ≡ refusals.mapping_name self }
    {
        match self {
            MappingFault::Json => "json",
            MappingFault::Shape => "shape",
            MappingFault::Model => "model",
            MappingFault::Function => "function",
        }
    }
}

impl Cause {
    /// Its number, as a reply tells it.
    pub fn number(&self) -> u64
        ensures { result ≡ refusals.cause_number self.now }
    {
        match self {
            Cause::OutOfMemory => 1,
            Cause::StoreFault => 2,
            Cause::BadLine => 3,
            Cause::NoSuchManager => 4,
            Cause::NoSuchObject => 5,
            Cause::IllegalArgument(_) => 6,
            Cause::IllegalState(_) => 7,
            Cause::TransactionRequired => 8,
            Cause::EntityExists => 9,
            Cause::EntityNotFound => 10,
            Cause::OptimisticLock => 11,
            Cause::Persistence(_) => 12,
            Cause::Listener(_) => 13,
            Cause::NoResult => 15,
            Cause::NonUniqueResult => 16,
            Cause::Overflow => 17,
            Cause::Busy => 18,
            Cause::Limit => 19,
            Cause::Mapping(_) => 20,
            Cause::Damaged(_, _) => 21,
        }
    }

    /// Its name, as a reply tells it.
    pub fn name(&self) -> &'static str
        ensures { result.now ≡ refusals.cause_name self.now }
    {
        match self {
            Cause::OutOfMemory => "OutOfMemory",
            Cause::StoreFault => "StoreFault",
            Cause::BadLine => "BadLine",
            Cause::NoSuchManager => "NoSuchManager",
            Cause::NoSuchObject => "NoSuchObject",
            Cause::IllegalArgument(_) => "IllegalArgument",
            Cause::IllegalState(_) => "IllegalState",
            Cause::TransactionRequired => "TransactionRequired",
            Cause::EntityExists => "EntityExists",
            Cause::EntityNotFound => "EntityNotFound",
            Cause::OptimisticLock => "OptimisticLock",
            Cause::Persistence(_) => "Persistence",
            Cause::Listener(_) => "Listener",
            Cause::NoResult => "NoResult",
            Cause::NonUniqueResult => "NonUniqueResult",
            Cause::Overflow => "Overflow",
            Cause::Busy => "Busy",
            Cause::Limit => "Limit",
            Cause::Mapping(_) => "Mapping",
            Cause::Damaged(_, _) => "Damaged",
        }
    }

    /// Its detail, where it has one; `OutOfMemory` where a growth was refused.
    pub fn detail(&self, alloc: Global) -> Result<Option<Text>, Cause>
        ensures ok { IfOk result (λ detail. detail ≡ refusals.cause_detail self.now) }
        ensures err { IfErr result (λ cause. cause ≡ Cause.OutOfMemory) }
    {
        let word = match self {
            Cause::IllegalArgument(argument) => argument.name(),
            Cause::IllegalState(state) => state.name(),
            Cause::Persistence(persist) => persist.name(),
            Cause::Mapping(fault) => fault.name(),
            Cause::Listener(text) => text.as_str(),
            Cause::Damaged(table, row) => return Ok(Some(place_text(
                alloc,
                *table,
                row.as_slice(),
            )?)),
            _ => return Ok(None),
        };
        Ok(Some(Text::of(alloc, word)?))
    }

    /// Its text: `Name` or `Name(detail)`; `OutOfMemory` where a growth was refused.
    pub fn text(&self, alloc: Global) -> Result<Text, Cause>
        ensures ok { IfOk result (λ text. text ≡ refusals.cause_text self.now) }
        ensures err { IfErr result (λ cause. cause ≡ Cause.OutOfMemory) }
    {
        match self.detail(alloc)? {
            None => Ok(Text::of(alloc, self.name())?),
            Some(detail) => Ok(with_detail(alloc, self.name(), detail.as_str())?),
        }
    }
}

impl Refusal {
    /// Its number, as a reply tells it.
    pub fn number(&self) -> u64
        ensures { result ≡ refusals.refusal_number self.now }
    {
        match self {
            Refusal::Because(cause) => cause.number(),
            Refusal::RollbackMarked | Refusal::Rollback(_) => 14,
        }
    }

    /// Its name, as a reply tells it.
    pub fn name(&self) -> &'static str
        ensures { result.now ≡ refusals.refusal_name self.now }
    {
        match self {
            Refusal::Because(cause) => cause.name(),
            Refusal::RollbackMarked | Refusal::Rollback(_) => "Rollback",
        }
    }

    /// Its detail, where it has one: of a rollback `marked` or the text of what made the commit
    /// roll back; `OutOfMemory` where a growth was refused.
    pub fn detail(&self, alloc: Global) -> Result<Option<Text>, Cause>
        ensures ok { IfOk result (λ detail. detail ≡ refusals.refusal_detail self.now) }
        ensures err { IfErr result (λ cause. cause ≡ Cause.OutOfMemory) }
    {
        match self {
            Refusal::Because(cause) => cause.detail(alloc),
            Refusal::RollbackMarked => Ok(Some(Text::of(alloc, "marked")?)),
            Refusal::Rollback(cause) => Ok(Some(cause.text(alloc)?)),
        }
    }
}

/// The text of a refusal: `Name` or `Name(detail)`, as `Rollback(OptimisticLock)` and
/// `Damaged(1:018000000000000001)`; `OutOfMemory` where a growth was refused.
pub fn refusal_text(alloc: Global, refusal: &Refusal) -> Result<Text, Cause>
    ensures ok { IfOk result (λ text. text ≡ refusals.refusal_text refusal.now) }
    ensures err { IfErr result (λ cause. cause ≡ Cause.OutOfMemory) }
{
    match refusal.detail(alloc)? {
        None => Ok(Text::of(alloc, refusal.name())?),
        Some(detail) => Ok(with_detail(alloc, refusal.name(), detail.as_str())?),
    }
}

// The name with the detail in parentheses.
fn with_detail(alloc: Global, name: &str, detail: &str) -> Result<Text, AllocError>
    ensures { IfOk result (λ text. text ≡ refusals.with_detail name.now (Some detail.now)) }
{
    Ok(Text::from_string(format!(in alloc; "{name}({detail})")?)?)
}

// Where a damaged row stands: its table, and its bytes in hexadecimal digits.
fn place_text(alloc: Global, table: u64, row: &[u8]) -> Result<Text, AllocError>
    ensures { IfOk result (λ text. text ≡ refusals.place_text table row.now) }
{
    let digits = hex::encode(alloc, row)?;
    Ok(Text::from_string(format!(in alloc; "{table}:{digits}")?)?)
}
