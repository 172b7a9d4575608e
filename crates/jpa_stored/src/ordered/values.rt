//! An index of values.
ghost use Rattle.std.specs.Prelude.{◌≡◌, ◌<◌, ◌↔◌, true, length, IsTrue, OnOk, IfOk, IfErr, IfSome, IfNone, All};
ghost use Rattle.jpa_value.specs.declared.refusal.Cause.{Cause};
ghost use Rattle.jpa_stored.specs.ordered.Values as places;
ghost use Rattle.jpa_stored.specs.ordered.Values.{KeepsAll, HasEntries, HaveColumns, is_of as is_column_of};

use crate::objects::Stored;
use crate::ordered::column::{Column, has_column, is_of};
use crate::ordered::entries::add_each;
use crate::ordered::valued::Valued;
use jpa_model::{Member, Metamodel};
use jpa_value::{Cause, Identity};
use std::alloc::Global;
use std::collections::BTreeSet;
use std::marker::Model;

mod walk;

/// An index of values: which classes and members have entries, by which number, and the entries.
///
/// It may have more entries than objects need: what an object had once stays until the index is
/// made anew, and so does what was added before a growth was refused. So nothing is ever undone,
/// and who asks tests each object against the set. Contracts see the columns and the entries, these
/// in their order.
#[derive(Drop)]
pub struct Values {
    columns: Vec<Column>,
    entries: BTreeSet<Valued>,
    // With more entries than this the index is to be made anew.
    most: usize,
}

impl Model for Values {
    ghost use Rattle.jpa_stored.specs.ordered.Values.{Indexed};

    ghost Value = { Indexed };

    ghost view = { λ v. record { columns = v.columns.items; entries = v.entries.keys } };
}

impl Values {
    /// An index without columns and entries, that may have none. Takes no memory.
    pub fn new(alloc: Global) -> Values
        ensures { result ≡ places.empty }
    {
        Values {
            columns: Vec::new(alloc),
            entries: BTreeSet::new(alloc),
            most: 0,
        }
    }

    /// An index of these columns with these entries, as many as it may have until `allow` says more.
    /// They are put in order at once, so that the index takes less memory than one of which each
    /// entry was added. `OutOfMemory` is the only refusal.
    pub fn made(columns: Vec<Column>, entries: Vec<Valued>) -> Result<Values, Cause>
        ensures columns { IfOk result (λ made. made.columns ≡ columns.items) }
        ensures kept { IfOk result (λ made. KeepsAll entries.items made.entries) }
        ensures err { IfErr result (λ cause. cause ≡ Cause.OutOfMemory) }
    {
        let alloc = *columns.allocator();
        let entries: BTreeSet<Valued> = entries.into_iter().collect(alloc)?;
        let most = entries.len();
        Ok(Values {
            columns,
            entries,
            most,
        })
    }

    /// The columns, in the order in which they were handed in.
    pub fn columns(&self) -> &[Column]
        ensures { result.now ≡ self.now.columns }
    {
        self.columns.as_slice()
    }

    /// How many entries there are.
    pub fn len(&self) -> usize
        ensures { result ≡ length self.now.entries }
    {
        self.entries.len()
    }

    /// Whether there are more entries than `allow` allowed last, so that the index is to be made
    /// anew.
    pub fn is_outgrown(&self) -> bool {
        self.entries.len() > self.most
    }

    /// Allows it this many entries. What it has stays.
    pub fn allow(&mut self, most: usize)
        ensures { self.new ≡ self.old }
    {
        self.most = most;
    }

    /// Adds the entries of an object, one for each column of its class: O(log n) comparisons each
    /// where there are n. `OutOfMemory` is the only refusal, and leaves entries that nothing asks.
    pub fn add(&mut self, entry: &(Identity, Stored)) -> Result<(), Cause>
        ensures columns { self.new.columns ≡ self.old.columns }
        ensures kept { KeepsAll self.old.entries self.new.entries }
        ensures added { OnOk result (HasEntries self.new entry.now.0 entry.now.1) }
        ensures err { IfErr result (λ cause. cause ≡ Cause.OutOfMemory) }
    {
        add_each(&mut self.entries, self.columns.as_slice(), entry)
    }

    /// Whether each class that is this one or below it has a column of this number for a member.
    fn have_columns(&self, metamodel: &Metamodel, class: usize, member: Member, number: u16) -> bool
        requires { class < length metamodel.now.entities }
        ensures { IsTrue result
            ↔ (HaveColumns metamodel.now self.now.columns class member number) }
    {
        for below in 0..metamodel.entities().len() {
            if metamodel.is_kind_of(below, class)
                && !has_column(self.columns.as_slice(), below, member, number)
            {
                return false;
            }
        }
        true
    }

    /// A number by which each class that is this one or below it has a column for a member; none
    /// where this class has no such column, so that objects of a subclass are never left out.
    pub fn column_of(&self, metamodel: &Metamodel, class: usize, member: Member) -> Option<u16>
        requires { class < length metamodel.now.entities }
        ensures found { IfSome result (HaveColumns metamodel.now self.now.columns class member) }
        ensures none { IfNone result (All (λ c. is_column_of class member c ≡ true
            → HaveColumns metamodel.now self.now.columns class member c.number → ⊥)
            self.now.columns) }
    {
        for column in self.columns.as_slice() {
            if is_of(column, class, member)
                && self.have_columns(metamodel, class, member, column.number)
            {
                return Some(column.number);
            }
        }
        None
    }
}
