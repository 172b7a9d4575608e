//! The numbers and the texts of refusals, some of which no call of the program meets yet.
use jpa_value::{
    Argument, Cause, LifecycleEvent, MappingFault, PersistenceFault, Refusal, State, Text,
    refusal_text,
};
use std::alloc::Global;
use std::process::Abort;
use std::test::Fail;

/// A refusal with its number and its text.
#[derive(Drop)]
struct Told(Refusal, u64, &'static str);

const REFUSALS: [Told; 10] = [
    Told(Refusal::Because(Cause::OutOfMemory), 1, "OutOfMemory"),
    Told(Refusal::Because(Cause::StoreFault), 2, "StoreFault"),
    Told(
        Refusal::Because(Cause::IllegalArgument(Argument::Second)),
        6,
        "IllegalArgument(second)",
    ),
    Told(
        Refusal::Because(Cause::IllegalState(State::Unfetched)),
        7,
        "IllegalState(unfetched)",
    ),
    Told(
        Refusal::Because(Cause::Persistence(PersistenceFault::Unique)),
        12,
        "Persistence(unique)",
    ),
    Told(Refusal::Because(Cause::Busy), 18, "Busy"),
    Told(
        Refusal::Because(Cause::Mapping(MappingFault::Json)),
        20,
        "Mapping(json)",
    ),
    Told(Refusal::RollbackMarked, 14, "Rollback(marked)"),
    Told(
        Refusal::Rollback(Cause::OptimisticLock),
        14,
        "Rollback(OptimisticLock)",
    ),
    Told(
        Refusal::Rollback(Cause::Persistence(PersistenceFault::Version)),
        14,
        "Rollback(Persistence(version))",
    ),
];

fn is_told(alloc: Global, refusal: &Refusal, number: u64, text: &str) -> Result<bool, Cause> {
    let told = refusal_text(alloc, refusal)?;
    Ok(refusal.number() == number && told.as_str() == text)
}

fn see_told(rt: &impl Abort, alloc: Global) -> Result<(), Cause> {
    for told in &REFUSALS {
        assert!(rt; is_told(alloc, &told.0, told.1, told.2)?, "{}", told.2);
    }
    Ok(())
}

/// What a listener threw is told with its text.
fn see_thrown(rt: &impl Abort, alloc: Global) -> Result<(), Cause> {
    let refusal = Refusal::Because(Cause::Listener(Text::of(alloc, "require name")?));
    assert!(rt; is_told(alloc, &refusal, 13, "Listener(require name)")?);
    Ok(())
}

#[test]
fn refusals_are_told(rt: HostRuntime) -> Result<(), Fail> {
    see_told(&rt, rt.alloc())?;
    see_thrown(&rt, rt.alloc())?;
    Ok(())
}

#[test]
fn names(rt: HostRuntime) {
    for (name, wanted) in [
        (LifecycleEvent::PrePersist.name(), "PrePersist"),
        (LifecycleEvent::PreUpdate.name(), "PreUpdate"),
        (LifecycleEvent::PostLoad.name(), "PostLoad"),
        (Argument::Entity.name(), "entity"),
        (Argument::Second.name(), "second"),
        (State::Active.name(), "active"),
        (State::Statement.name(), "statement"),
        (PersistenceFault::Key.name(), "key"),
        (PersistenceFault::Callback.name(), "callback"),
        (MappingFault::Json.name(), "json"),
        (MappingFault::Function.name(), "function"),
    ] {
        assert_eq!(rt; name, wanted);
    }
}
