//! A row, and what it is ordered by.
use jpql_meaning::eval::Seen;
use std::marker::Model;

/// What the keys of ORDER BY give; of one key it takes no list.
#[derive(Drop)]
pub enum Sorting<'a> {
    One(Seen<'a>),
    Several(Vec<Seen<'a>>),
}

/// A row of a SELECT, with what it is ordered by.
#[derive(Drop)]
pub struct Row<'a> {
    /// What its items give.
    pub items: Vec<Seen<'a>>,
    /// What the keys of ORDER BY give.
    pub keys: Sorting<'a>,
}

impl<'a> Model for Row<'a> {
    ghost use Rattle.std.specs.Prelude.{map};
    ghost use Rattle.jpql_meaning.specs.eval.Seen.{seen};
    ghost use Rattle.jpql_meaning.specs.plan.Selection as selection;
    ghost use Rattle.jpql_select.specs.select.Sortings.{sorting_data};

    ghost Value = { selection.Row };

    ghost view = { λ r. record { items = map seen r.items.items; keys = sorting_data r.keys } };
}
