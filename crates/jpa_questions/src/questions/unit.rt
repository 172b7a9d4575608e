//! Whether a unit can be asked.
ghost use Rattle.std.specs.Prelude.{◌≡◌, ◌⊎◌, true, false, Err, IfErr};
ghost use Rattle.jpa_value.specs.declared.refusal.Cause.{Cause};
ghost use Rattle.jpa_value.specs.declared.refusal.MappingFault.{MappingFault};
ghost use Rattle.jpa_behaviour.specs.Served.{world_of_unit};
ghost use Rattle.jpa_json.specs.functions.Known as known;
ghost use Rattle.jpa_opening.specs.migration.Migration.{defaults_pass};

use jpa_behaviour::{Behaviour, ServedUnit};
use jpa_description::history::History;
use jpa_json::functions::names_are_known;
use jpa_opening::migration::defaults_pass;
use jpa_value::{Cause, MappingFault};

/// Refuses a unit as an opening of its store does: with `Mapping(function)` where it names a
/// listener, callback or converter that the registry lacks, and then where a converter throws for
/// a default; with `OutOfMemory` where a growth was refused.
pub fn check_unit<B: Behaviour>(unit: &ServedUnit<B>, history: &History) -> Result<(), Cause>
    ensures unknown { known.names_are_known unit.now.registry unit.now.metamodel ≡ false
        → result ≡ Err (Cause.Mapping MappingFault.Function) }
    ensures thrown { known.names_are_known unit.now.registry unit.now.metamodel ≡ true
        → defaults_pass (world_of_unit B.meaning unit.now) history.now ≡ false →
        (result ≡ Err (Cause.Mapping MappingFault.Function))
        ⊎ (result ≡ Err Cause.OutOfMemory) }
    ensures memory { known.names_are_known unit.now.registry unit.now.metamodel ≡ true
        → defaults_pass (world_of_unit B.meaning unit.now) history.now ≡ true →
        IfErr result (λ cause. cause ≡ Cause.OutOfMemory) }
{
    if !names_are_known(&unit.metamodel, &unit.registry)
        || !defaults_pass(&unit.metamodel, &unit.registry, history)?
    {
        return Err(Cause::Mapping(MappingFault::Function));
    }
    Ok(())
}
