//! The numbers of columns.
ghost use Rattle.std.specs.Prelude.{◌<◌, length};
ghost use Rattle.jpa_model.specs.Chains as chains;
ghost use Rattle.jpa_rows.specs.rows.Numbers.{IsNarrowVersion};
ghost use Rattle.jpa_object_rows.specs.mapper.Narrow.{HaveNarrowColumns, HaveNarrowLinks};

use jpa_model::Metamodel;

/// The numbers of a class's columns fit 32 bits, for contracts to cite; it does nothing.
pub(super) fn columns_are_narrow(metamodel: &Metamodel, class: usize)
    requires { class < length metamodel.now.entities }
    ensures version { IsNarrowVersion (chains.root_of metamodel.now class).version }
    ensures attributes { HaveNarrowColumns (chains.attributes_of metamodel.now class) }
    ensures links { HaveNarrowLinks (chains.relations_of metamodel.now class) }
{
    let _unit = metamodel.unit();
}
