//! Nodes of a cascade in order, and copies of them.
ghost use Rattle.std.specs.Prelude.{Some, refl};
ghost use Rattle.std.specs.Cmp.{partial_equiv_from_equiv, eq_by_cmp_equiv, partial_order_from_agreeing_total};
ghost use Rattle.std.specs.Ordering.{eq_by_cmp};
ghost use Rattle.jpa_cascade.specs.Order.{node_cmp, node_total};

use crate::Node;
use jpa_value::{Cause, TryCopy, order_identities};
use std::cmp::Ordering;

impl TryCopy for Node {
    fn try_copy(&self) -> Result<Node, Cause> {
        match self {
            Node::Live(object) => Ok(Node::Live(*object)),
            Node::Bare(id) => Ok(Node::Bare(id.try_copy()?)),
        }
    }
}

impl PartialEq for Node {
    ghost eq = { eq_by_cmp node_cmp };

    ghost laws = { partial_equiv_from_equiv (eq_by_cmp_equiv node_total) };

    fn eq(&self, other: &Node) -> bool {
        self.cmp(other).is_eq()
    }
}

impl Eq for Node {
    ghost laws = { eq_by_cmp_equiv node_total };
}

impl PartialOrd for Node {
    ghost partial_cmp = { λ x y. Some (node_cmp x y) };

    ghost laws = { partial_order_from_agreeing_total node_cmp node_total (λ x y. refl) (λ x y. refl) };

    fn partial_cmp(&self, other: &Node) -> Option<Ordering> {
        Some(self.cmp(other))
    }
}

/// Objects by their places, then identities.
impl Ord for Node {
    ghost cmp = { node_cmp };

    ghost total = { node_total };

    ghost matches_partial_cmp = { λ x y. refl };

    ghost matches_eq = { λ x y. refl };

    fn cmp(&self, other: &Node) -> Ordering {
        match (self, other) {
            (Node::Live(a), Node::Live(b)) => a.cmp(b),
            (Node::Live(_), Node::Bare(_)) => Ordering::Less,
            (Node::Bare(_), Node::Live(_)) => Ordering::Greater,
            (Node::Bare(a), Node::Bare(b)) => order_identities(a, b),
        }
    }
}
