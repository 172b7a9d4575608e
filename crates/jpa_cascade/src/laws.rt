//! Laws of the definitions.
ghost use Rattle.jpa_cascade.specs.Reached.{CascadesReach, WavesReach};
ghost use Rattle.jpa_cascade.specs.There.{WavesAreThere};

/// The laws of cascades, for contracts to cite; it does nothing. An operation is cascaded to the
/// entities that relations lead to (Jakarta Persistence 3.1, chapter 3.2): the waves of an
/// operation on an object are the nodes that a way along such relations reaches from it and no
/// other, none twice, and none before one that is nearer. This holds of every metamodel, operation,
/// manager at work and start, also where relations run in circles. Of targets of any kind the same
/// holds where the bound is at least the number of nodes that lead on.
///
/// Where objects hold objects of the heap alone, each node of the waves is one, or has a row.
pub fn cascade_laws()
    ensures cascades { CascadesReach }
    ensures waves { WavesReach }
    ensures there { WavesAreThere }
{}
