//! Laws of marks, for contracts and proofs to cite.
ghost use Rattle.std.specs.Prelude.{◌≡◌, true};
ghost use Rattle.jpa_model.specs.declared.unit.PersistenceUnit.{PersistenceUnit};
ghost use Rattle.jpa_work.specs.declared.context.Entry.{Entry};
ghost use Rattle.jpa_work.specs.context.Work.{Work};
ghost use Rattle.jpa_flush.specs.flush.Calm.{IsAtRest};
ghost use Rattle.jpa_flush.specs.flush.Flush as flushes;
ghost use Rattle.jpa_flush.specs.flush.Marked as marked;

/// The laws by which marks go on from one call to the next; it does nothing. Marks that are made
/// anew say of the work then what the old ones said of the work before the call, where each entry
/// was looked at, is marked, or stands as it did with its object. What this asks of the other
/// objects follows from what the heap's undo list noted.
pub fn mark_laws()
    ensures marks { marked.MarksGoOn }
    ensures names { marked.NamesKept }
    ensures links { marked.LinksKept }
{}

/// What a flush makes of an object that is as its base says: nothing; it does nothing itself. There
/// is no action, no orphan where the entry is that of its object, and nothing to remember; and an
/// object that is linked leads to nothing that is refused. It is managed and not locked, and where
/// entries elsewhere are untouched they are as their bases say.
pub fn calm_laws()
    ensures rest { (m : PersistenceUnit) (w : Work) (e : Entry) →
        marked.is_calm m w e ≡ true → IsAtRest m w e }
    ensures stored { (m : PersistenceUnit) (w : Work) (e : Entry) →
        marked.is_linked m w e.object ≡ true → flushes.links_stored m w e ≡ true }
    ensures looked { marked.UntouchedAreCalm }
{}
