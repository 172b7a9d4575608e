//! Laws of the definitions, for contracts and proofs to cite.
ghost use Rattle.std.specs.Prelude.{◌≡◌, ◌<◌, ◌==◌, ℕ, Bool, not, List, [], ◌∷◌, All, filter, find};
ghost use Rattle.jpa_model.specs.declared.unit.PersistenceUnit.{PersistenceUnit};
ghost use Rattle.jpa_value.specs.declared.value.Identity.{Identity};
ghost use Rattle.jpa_value.specs.declared.value.Value.{Value};
ghost use Rattle.jpa_work.specs.declared.context.Entry.{Entry};
ghost use Rattle.jpa_work.specs.context.Near.{AreUnder, places_near};
ghost use Rattle.jpa_work.specs.context.Places.{entry_at, entry_place, without_objects};
ghost use Rattle.jpa_work.specs.context.Undo.{IsKeyed};
ghost use Rattle.jpa_work.specs.context.Work as works;

/// The laws of `PersistenceContext::near`; it does nothing. The places near a key are places of
/// entries. Who looks for an entry of a key finds the same among those near it, and so the object
/// of an identity is the first of them that has it.
pub fn near_laws()
    ensures within { (n : ℕ) (key : List Value) (es : List Entry) →
        All (λ e. e.object < n) es → All (λ k. k < n) (places_near key es) }
    ensures found { (p : ℕ → Bool) (key : List Value) (es : List Entry) →
        AreUnder key p es → find p (places_near key es)
        ≡ works.object_in (find (λ e. p e.object) es) }
    ensures instance { (m : PersistenceUnit) (w : works.Work) (id : Identity) →
        All (IsKeyed w.objects) w.context →
        find (λ n. works.has_identity (works.identity_at m w n) id) (places_near id.key w.context)
        ≡ works.instance m w id }
{}

/// The laws of `PersistenceContext::place_of` and `leave`; it does nothing. The entry of an object
/// is the one at its place, and objects leave together as they leave one after another.
pub fn place_laws()
    ensures entry { (w : works.Work) (n : ℕ) → works.entry_of w n
        ≡ entry_at w.context (entry_place n w.context) }
    ensures one { (n : ℕ) (es : List Entry) → without_objects (n ∷ []) es
        ≡ filter (λ e. not (e.object == n)) es }
    ensures more { (n : ℕ) (ns : List ℕ) (es : List Entry) → without_objects (n ∷ ns) es
        ≡ without_objects ns (without_objects (n ∷ []) es) }
{}
