//! Indexes of values.
ghost use Rattle.std.specs.Prelude.{◌≡◌, ◌<◌, length, IfErr};
ghost use Rattle.jpa_value.specs.declared.refusal.Cause.{Cause};

use crate::open::OpenSet;
use crate::values::{columns_with, next_number, values_of};
use jpa_model::{Member, Metamodel};
use jpa_stored::ordered::Column;
use jpa_value::Cause;

/// The topmost class of the chain that has a part of the key or an attribute (chapter 2.11).
fn topmost(metamodel: &Metamodel, class: usize, member: Member) -> usize
    requires { class < length metamodel.now.entities }
{
    let Member::Attribute(place) = member else {
        return metamodel.root_class(class);
    };
    for above in metamodel.chain(class) {
        if place < metamodel.attributes_of(*above).len() {
            return *above;
        }
    }
    class
}

impl OpenSet {
    /// Whether there is an index of what objects of a class, and of each class below it, have in a
    /// member. Takes no memory.
    pub fn has_index(&self, metamodel: &Metamodel, class: usize, member: Member) -> bool {
        class < metamodel.entities().len()
            && self.values.column_of(metamodel, class, member).is_some()
    }

    /// Makes an index of what objects of a class, and of each class below it, have in a member,
    /// which is a part of the key or an attribute: from the topmost class of the chain that has it,
    /// so that it serves each class of the chain. From then on it goes with each commit. One that
    /// is there stays; while there is room to commit, and for no class, none is made.
    ///
    /// It takes O(n log n) steps for n committed objects. What is seen stays as it is, and for want
    /// of memory, which is the only refusal, there is no index.
    pub fn index_by(
        &mut self,
        metamodel: &Metamodel,
        class: usize,
        member: Member,
    ) -> Result<(), Cause>
        ensures same { self.new ≡ self.old }
        ensures err { IfErr result (λ cause. cause ≡ Cause.OutOfMemory) }
    {
        if class >= metamodel.entities().len() {
            return Ok(());
        }
        self.index_from(metamodel, topmost(metamodel, class, member), member)
    }

    /// The same, from this class.
    fn index_from(
        &mut self,
        metamodel: &Metamodel,
        class: usize,
        member: Member,
    ) -> Result<(), Cause>
        ensures same { self.new ≡ self.old }
        ensures err { IfErr result (λ cause. cause ≡ Cause.OutOfMemory) }
    {
        if self.is_ready
            || class >= metamodel.entities().len()
            || self.has_index(metamodel, class, member)
        {
            return Ok(());
        }
        let column = Column {
            class,
            member,
            number: next_number(self.values.columns()),
        };
        let alloc = *self.committed.allocator();
        let columns = columns_with(alloc, metamodel, self.values.columns(), column)?;
        let values = values_of(columns, self.committed.as_slice())?;
        self.values = values;
        Ok(())
    }

    /// Makes the indexes of values anew where they have outgrown the committed objects: what these
    /// had once stays in them until then. For want of memory, which is the only refusal, all stays
    /// as it was.
    pub(crate) fn renew_values(&mut self) -> Result<(), Cause>
        ensures same { self.new ≡ self.old }
        ensures err { IfErr result (λ cause. cause ≡ Cause.OutOfMemory) }
    {
        if self.is_ready || !self.values.is_outgrown() {
            return Ok(());
        }
        let alloc = *self.committed.allocator();
        let columns = Vec::from_slice(alloc, self.values.columns())?;
        let values = values_of(columns, self.committed.as_slice())?;
        self.values = values;
        Ok(())
    }
}
