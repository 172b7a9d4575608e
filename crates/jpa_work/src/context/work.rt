//! A manager at work.
ghost use Rattle.std.specs.Prelude.{◌≡◌};
ghost use Rattle.jpa_work.specs.context.Undo.{IsKept, now, now_kept, since, undone};
ghost use Rattle.jpa_open.specs.Opened as opened;

use crate::context::PersistenceContext;
use crate::heap::LiveObject;
use crate::undo::UndoList;
use jpa_open::OpenSet;
use jpa_protocol::Told;
use jpa_value::Seq;
use std::alloc::Global;

/// What an operation of a manager works on, in place: a refused call undoes what it changed.
///
/// Contracts see two things of it: `now`, the work as it is, and `since`, what undoing gives.
#[derive(Drop)]
pub struct UnitOfWork {
    /// The place of the manager.
    pub manager: usize,
    /// The live objects.
    pub objects: UndoList<LiveObject>,
    /// The manager's persistence context, in the order in which objects entered it (chapter 3.3).
    pub context: PersistenceContext,
    /// The next number of each class that is a root with generated keys (chapter 2.4); 1 for any
    /// other.
    pub numbers: UndoList<u64>,
    /// The stored objects that the manager sees.
    pub view: OpenSet,
    /// What was told so far (chapter 3.5).
    pub events: Seq<Told>,
}

impl UnitOfWork {
    /// Keeps what was changed: from now on it is what undoing leads back to. Takes no memory.
    ///
    /// Where no transaction is open, the set that the manager sees stays as it was.
    pub fn keep(&mut self, is_begun: bool)
        ensures now { now self.new ≡ now_kept is_begun self.old }
        ensures kept { IsKept self.new }
        ensures view { self.new.view ≡ opened.after_keeping is_begun self.old.view }
        ensures marks { self.new.context.marks ≡ self.old.context.marks }
    {
        self.objects.keep();
        self.context.keep();
        self.numbers.keep();
        if is_begun {
            self.view.keep();
        } else {
            self.view.undo();
        }
    }

    /// Undoes what was changed since it was last kept; the events are let go. Takes no memory.
    pub fn undo(&mut self, alloc: Global)
        ensures now { now self.new ≡ undone self.old.manager (since self.old) }
        ensures kept { IsKept self.new }
        ensures view { self.new.view ≡ opened.after_undoing self.old.view }
        ensures marks { self.new.context.marks ≡ self.old.context.marks }
    {
        self.objects.undo();
        self.context.undo();
        self.numbers.undo();
        self.view.undo();
        self.events = Seq::new(alloc);
    }
}
