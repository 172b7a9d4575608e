//! The laws of objects and their rows.
ghost use Rattle.std.specs.Prelude.{◌≡◌, ℕ, true};
ghost use Rattle.jpa_model.specs.Chains.{entity_at};
ghost use Rattle.jpa_object_rows.specs.meaning.Unambiguous.{is_class};
ghost use Rattle.jpa_object_rows.specs.meaning.Objects.{is_discriminator};
ghost use Rattle.jpa_object_rows.specs.mapper.Laws.{ReadsWhatIsWritten, ReadsOne, StandForOne};

use jpa_model::Metamodel;
use jpa_rows::rows::text_is_representable;

/// The laws of objects and their rows, for contracts to cite; it does nothing. What is written for
/// an object is read as the object and as no other, and a store's cells stand for at most one set
/// and next numbers.
pub fn mapper_laws()
    ensures read { ReadsWhatIsWritten }
    ensures one { ReadsOne }
    ensures cells { StandForOne }
{}

/// The law of discriminators, for contracts to cite: a column may hold each of them. It takes no
/// memory.
pub fn discriminator_law(metamodel: &Metamodel)
    ensures { (class : ℕ) → is_class metamodel.now class ≡ true →
        is_discriminator (entity_at metamodel.now class) ≡ true }
{
    let _unit = metamodel.unit();
    for entity in metamodel.entities() {
        text_is_representable(entity.discriminator.as_str());
    }
}
