//! Where a class stands in its hierarchy.
ghost use Rattle.std.specs.Prelude.{◌≡◌, ◌<◌, length};
ghost use Rattle.jpa_model.specs.Chains as chains;
ghost use Rattle.jpa_rows.specs.rows.Numbers.{IsNarrowOrigin};

use jpa_model::{Metamodel, Origin};

/// Where a class stands in its hierarchy: a root with its table, whose number fits 32 bits, or a
/// class below another (Jakarta Persistence 3.1, chapter 2.12). `class` is the place of one of the
/// unit's classes.
pub fn origin_of(metamodel: &Metamodel, class: usize) -> &Origin
    requires { class < length metamodel.now.entities }
    ensures origin { result.now ≡ (chains.entity_at metamodel.now class).origin }
    ensures narrow { IsNarrowOrigin result.now }
{
    &metamodel.unit().entities.as_slice()[class].origin
}
