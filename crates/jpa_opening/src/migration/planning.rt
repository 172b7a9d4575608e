//! The plan of a root's table.
ghost use Rattle.std.specs.Prelude.{◌≡◌, ◌<◌, ◌^◌, ◌++◌, ◌∷◌, pos, length, Some, IfOk, IfErr, OnOk};
ghost use Rattle.std.specs.List.{flat_map};
ghost use Rattle.jpa_value.specs.declared.refusal.Cause.{Cause};
ghost use Rattle.jpa_model.specs.Chains as chains;
ghost use Rattle.jpa_behaviour.specs.Registered.{world_of};
ghost use Rattle.jpa_model.specs.declared.unit.PersistenceUnit.{PersistenceUnit};
ghost use Rattle.jpa_description.specs.history.History as histories;
ghost use Rattle.jpa_opening.specs.migration.Migration as migration;
ghost use Rattle.jpa_opening.specs.migration.Changed as changed;
ghost use Rattle.jpa_opening.specs.migration.Plans as plans;

use crate::migration::changed::{column_before, default_at, is_new_at};
use crate::migration::defaults::default_bytes;
use crate::migration::plan::{ClassDefaults, Move, Plan};
use jpa_behaviour::{Behaviour, Registry};
use jpa_cells::meaning::Cell;
use jpa_description::history::History;
use jpa_model::{Attribute, Entity, Metamodel};
use jpa_rows::rows::{Content, entity_at, spell_content};
use jpa_value::{Bytes, Cause, Seq, TryCopy, Value};
use std::alloc::Global;

/// The number of an attribute's column, as cells have it.
fn column_of(attribute: &Attribute) -> i64
    requires { attribute.now.column < 2 ^ 32 }
    ensures { result ≡ pos attribute.now.column }
{
    attribute.column as i64
}

// ---- columns

/// Adds the columns of a class's own attributes that revision 1 does not have.
fn push_taken(
    taken: &mut Seq<u64>,
    metamodel: &Metamodel,
    history: &History,
    class: usize,
) -> Result<(), Cause>
    requires { class < length metamodel.now.entities }
    ensures ok { OnOk result (taken.new ≡ taken.old
        ++ flat_map plans.column_if_new (histories.changes_of metamodel.now history.now class)) }
    ensures err { IfErr result (λ cause. cause ≡ Cause.OutOfMemory) }
{
    let attributes = metamodel.entity(class).attributes.as_slice();
    for (i, attribute) in attributes.iter().enumerate() {
        if is_new_at(history, class, i) {
            taken.push(attribute.column)?;
        }
    }
    Ok(())
}

/// Adds the moves of a class's own attributes.
fn push_moves(
    moves: &mut Seq<Move>,
    metamodel: &Metamodel,
    history: &History,
    class: usize,
) -> Result<(), Cause>
    requires { class < length metamodel.now.entities }
    ensures ok { OnOk result (moves.new ≡ moves.old
        ++ flat_map plans.move_of (histories.changes_of metamodel.now history.now class)) }
    ensures err { IfErr result (λ cause. cause ≡ Cause.OutOfMemory) }
{
    let attributes = entity_at(metamodel, class).attributes.as_slice();
    for (i, attribute) in attributes.iter().enumerate() {
        if let Some(was) = column_before(history, class, i) {
            moves.push(Move {
                was,
                column: column_of(attribute),
            })?;
        }
    }
    Ok(())
}

// ---- defaults

/// Adds the cell of an attribute's default, where it has one that its converter passes.
fn push_default<B: Behaviour>(
    cells: &mut Seq<Cell>,
    registry: &Registry<B>,
    attribute: &Attribute,
    default: &Value,
) -> Result<(), Cause>
    requires { attribute.now.column < 2 ^ 32 }
    ensures ok { (m : PersistenceUnit) → OnOk result (cells.new ≡ cells.old
        ++ migration.cell_if attribute.now.column
        (migration.default_bytes (world_of B.meaning m registry.now) attribute.now
        (Some default.now))) }
    ensures err { IfErr result (λ cause. cause ≡ Cause.OutOfMemory) }
{
    if let Some(value) = default_bytes(cells.allocator(), registry, attribute, default)? {
        cells.push(Cell {
            column: column_of(attribute),
            value,
        })?;
    }
    Ok(())
}

/// Adds the defaults that a class itself declares.
fn push_own_defaults<B: Behaviour>(
    cells: &mut Seq<Cell>,
    metamodel: &Metamodel,
    registry: &Registry<B>,
    history: &History,
    class: usize,
) -> Result<(), Cause>
    requires { class < length metamodel.now.entities }
    ensures ok { OnOk result (cells.new ≡ cells.old
        ++ flat_map (changed.default_cell (world_of B.meaning metamodel.now registry.now))
        (histories.changes_of metamodel.now history.now class)) }
    ensures err { IfErr result (λ cause. cause ≡ Cause.OutOfMemory) }
{
    let attributes = entity_at(metamodel, class).attributes.as_slice();
    for (i, attribute) in attributes.iter().enumerate() {
        if let Some(default) = default_at(history, class, i) {
            push_default(cells, registry, attribute, default)?;
        }
    }
    Ok(())
}

/// The defaults of a class and its superclasses.
fn class_defaults<B: Behaviour>(
    alloc: Global,
    metamodel: &Metamodel,
    registry: &Registry<B>,
    history: &History,
    class: usize,
) -> Result<Seq<Cell>, Cause>
    requires { class < length metamodel.now.entities }
    ensures ok { IfOk result (λ cells. cells ≡ migration.class_defaults
        (world_of B.meaning metamodel.now registry.now) history.now class) }
    ensures err { IfErr result (λ cause. cause ≡ Cause.OutOfMemory) }
{
    let mut cells = Seq::new(alloc);
    for above in metamodel.chain(class) {
        push_own_defaults(&mut cells, metamodel, registry, history, *above)?;
    }
    Ok(cells)
}

/// What column 0 holds in the rows of a class.
fn discriminator_of(alloc: Global, entity: &Entity) -> Result<Bytes, Cause>
    ensures ok { IfOk result (λ bytes. bytes ≡ 2 ∷ entity.now.discriminator) }
    ensures err { IfErr result (λ cause. cause ≡ Cause.OutOfMemory) }
{
    let name = Value::Text(entity.discriminator.try_copy()?);
    Ok(spell_content(alloc, &Content::Value(name))?)
}

/// Adds the defaults of a class and its superclasses, where there are any.
fn push_defaults<B: Behaviour>(
    defaults: &mut Seq<ClassDefaults>,
    metamodel: &Metamodel,
    registry: &Registry<B>,
    history: &History,
    class: usize,
) -> Result<(), Cause>
    requires { class < length metamodel.now.entities }
    ensures ok { OnOk result (defaults.new ≡ defaults.old ++ plans.defaults_of
        (world_of B.meaning metamodel.now registry.now) history.now class) }
    ensures err { IfErr result (λ cause. cause ≡ Cause.OutOfMemory) }
{
    let alloc = defaults.allocator();
    let cells = class_defaults(alloc, metamodel, registry, history, class)?;
    if !cells.is_empty() {
        let discriminator = discriminator_of(alloc, metamodel.entity(class))?;
        defaults.push(ClassDefaults {
            discriminator,
            cells,
        })?;
    }
    Ok(())
}

// ---- the plan

/// The columns of a root that are there no more.
fn dropped_by(alloc: Global, history: &History, root: usize) -> Result<Seq<u64>, Cause>
    ensures ok { IfOk result (λ dropped. dropped ≡ histories.dropped_by history.now root) }
    ensures err { IfErr result (λ cause. cause ≡ Cause.OutOfMemory) }
{
    let mut dropped = Seq::new(alloc);
    if let Some(class) = history.classes.as_slice().get(root) {
        for number in class.dropped.as_slice() {
            dropped.push(*number)?;
        }
    }
    Ok(dropped)
}

/// Adds what a class of the hierarchy adds.
fn push_class<B: Behaviour>(
    plan: &mut Plan,
    metamodel: &Metamodel,
    registry: &Registry<B>,
    history: &History,
    class: usize,
) -> Result<(), Cause>
    requires { class < length metamodel.now.entities }
    ensures ok { OnOk result (plans.Adds (world_of B.meaning metamodel.now registry.now)
        history.now class plan.old plan.new) }
    ensures err { IfErr result (λ cause. cause ≡ Cause.OutOfMemory) }
{
    push_taken(&mut plan.taken, metamodel, history, class)?;
    push_moves(&mut plan.moves, metamodel, history, class)?;
    push_defaults(&mut plan.defaults, metamodel, registry, history, class)?;
    Ok(())
}

/// What becomes of the rows of a root's table.
pub(super) fn plan_of<B: Behaviour>(
    alloc: Global,
    metamodel: &Metamodel,
    registry: &Registry<B>,
    history: &History,
    root: usize,
) -> Result<Plan, Cause>
    ensures ok { IfOk result (λ plan. plan ≡ plans.plan_of
        (world_of B.meaning metamodel.now registry.now) history.now root) }
    ensures err { IfErr result (λ cause. cause ≡ Cause.OutOfMemory) }
{
    let mut plan = Plan {
        taken: Seq::new(alloc),
        dropped: dropped_by(alloc, history, root)?,
        moves: Seq::new(alloc),
        defaults: Seq::new(alloc),
    };
    for class in 0..metamodel.entities().len() {
        if metamodel.root_class(class) == root {
            push_class(&mut plan, metamodel, registry, history, class)?;
        }
    }
    Ok(plan)
}
