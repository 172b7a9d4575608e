//! What groups and DISTINCT go by.
ghost use Rattle.std.specs.Prelude.{◌≡◌, map, Some, refl, IfOk};
ghost use Rattle.std.specs.Cmp.{partial_equiv_from_equiv, eq_by_cmp_equiv, partial_order_from_agreeing_total};
ghost use Rattle.jpql_meaning.specs.eval.Seen.{seen};
ghost use Rattle.jpql_select.specs.select.Keys.{data_cmp, is_same, data_total};

use jpql_meaning::eval::Seen;
use std::alloc::{AllocError, Global};
use std::cmp::Ordering;
use std::marker::Model;

/// What groups and DISTINCT go by: keys are the same where each datum is the same, null as null.
#[derive(Drop)]
pub struct Key<'a> {
    /// What they are of.
    pub data: Vec<Seen<'a>>,
}

impl<'a> Model for Key<'a> {
    ghost use Rattle.std.specs.Prelude.{List, map};
    ghost use Rattle.jpql_meaning.specs.declared.eval.datum.Datum.{Datum};
    ghost use Rattle.jpql_meaning.specs.eval.Seen.{seen};

    ghost Value = { List Datum };

    ghost view = { λ k. map seen k.data.items };
}

/// The key of these; fails for want of memory alone.
pub fn key_of<'a>(alloc: Global, data: &[Seen<'a>]) -> Result<Key<'a>, AllocError>
    ensures { IfOk result (λ key. key ≡ map seen data.now) }
{
    let mut copies = Vec::new(alloc);
    for datum in data {
        copies.push(datum.again(alloc)?)?;
    }
    Ok(Key { data: copies })
}

impl PartialEq for Key<'_> {
    ghost eq = { is_same };

    ghost laws = { partial_equiv_from_equiv (eq_by_cmp_equiv data_total) };

    fn eq(&self, other: &Self) -> bool {
        self.cmp(other).is_eq()
    }
}

impl Eq for Key<'_> {
    ghost laws = { eq_by_cmp_equiv data_total };
}

impl PartialOrd for Key<'_> {
    ghost partial_cmp = { λ x y. Some (data_cmp x y) };

    ghost laws = { partial_order_from_agreeing_total data_cmp data_total (λ x y. refl) (λ x y. refl) };

    fn partial_cmp(&self, other: &Self) -> Option<Ordering> {
        Some(self.cmp(other))
    }
}

impl Ord for Key<'_> {
    ghost cmp = { data_cmp };

    ghost total = { data_total };

    ghost matches_partial_cmp = { λ x y. refl };

    ghost matches_eq = { λ x y. refl };

    fn cmp(&self, other: &Self) -> Ordering {
        self.data.cmp(&other.data)
    }
}
