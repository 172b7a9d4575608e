//! The statement that a call asks.
ghost use Rattle.std.specs.Prelude.{List, ◌&&◌};
ghost use Rattle.jpa_value.specs.declared.refusal.Argument.{Argument};
ghost use Rattle.jpa_value.specs.declared.refusal.Cause.{Cause};
ghost use Rattle.jpa_work.specs.context.Steps.{Meets, require};
ghost use Rattle.jpa_work.specs.context.Undo.{now};
ghost use Rattle.jpa_work.specs.context.Work.{Work};
ghost use Rattle.jpa_operations.specs.fetch.Grown.{IsReady};
ghost use Rattle.jpql_text.specs.text.Answers.{IsRefused, UsesLists};
ghost use Rattle.jpql_grammar.specs.declared.grammar.lists.GivenList.{GivenList};
ghost use Rattle.jpql_trees.specs.declared.tree.Language.{Language};
ghost use Rattle.jpql_trees.specs.tree.Names.{Text};
ghost use Rattle.jpa_asked.specs.Asking as asking;
ghost use Rattle.jpa_asked.specs.Premises.{AreInHeap};

use crate::asked::{Binding, Reading, Statement};
use crate::lists::are_apart;
use crate::parameters::{arguments_of, sorts_of};
use jpa_model::Metamodel;
use jpa_value::{Argument, Cause, Seq};
use jpa_work::context::UnitOfWork;
use jpql_grammar::grammar::GivenList;
use jpql_meaning::eval::Datum;
use jpql_text::text::{read_query, uses_lists};
use jpql_trees::tree::Language;
use jpql_types::check_query;
use std::alloc::Global;

/// No tree, where the text that was refused for this cause is outside the grammar; else the cause.
fn unread(cause: Cause, uses_lists: bool) -> Result<Reading, Cause>
    ensures meets { (l : Language) (lists : List GivenList) (text : Text)
        → IsRefused l lists text cause → UsesLists l lists text uses_lists → (w : Work)
        → Meets result w (asking.read_of l lists text w) }
{
    match cause {
        Cause::IllegalArgument(_) => Ok(Reading {
            tree: None,
            uses_lists,
        }),
        other => Err(other),
    }
}

/// What a statement's text says in a language (Jakarta Persistence 3.1, chapter 4), where collections
/// were handed in for these parameters.
///
/// `Limit` for a text that is too long, nests too deep, in which collections become too many values,
/// that has too many words CASE, or that declares too many variables; `OutOfMemory` where a growth
/// was refused.
pub fn read_of(
    alloc: Global,
    language: Language,
    lists: &[GivenList],
    text: &str,
) -> Result<Reading, Cause>
    ensures meets { (w : Work) → Meets result w (asking.read_of language lists.now text.now w) }
{
    let uses_lists = uses_lists(alloc, language, lists, text)?;
    match read_query(alloc, language, lists, text) {
        Ok(query) => Ok(Reading {
            tree: Some(query),
            uses_lists,
        }),
        Err(cause) => unread(cause, uses_lists),
    }
}

/// The arguments of a statement, of which each object that is bound has an identity.
fn all_named(arguments: Option<Seq<Datum>>) -> Result<Seq<Datum>, Cause>
    ensures meets { (w : Work) → Meets result w
        (asking.give_or (Cause.IllegalArgument Argument.Parameter) arguments w) }
{
    arguments.ok_or(Cause::IllegalArgument(Argument::Parameter))
}

/// Where each list stands in the text, and a name with a comma is a value's of a list alone.
fn all_apart(uses_lists: bool, lists: &[GivenList], bindings: &[Binding]) -> Result<(), Cause>
    ensures meets { (w : Work) → Meets result w (require
        (uses_lists && asking.are_apart lists.now bindings.now)
        (Cause.IllegalArgument Argument.Parameter) w) }
{
    if uses_lists && are_apart(lists, bindings) {
        Ok(())
    } else {
        Err(Cause::IllegalArgument(Argument::Parameter))
    }
}

/// A statement of a language by what its text says, typed, with what is bound to its parameters
/// (chapters 3.10.12, 4.6.4 and 4.6.9).
///
/// `IllegalArgument` with `Syntax` where there is no tree, `Typing` where it is ill-typed, and
/// `Parameter` where one of its parameters isn't bound, one is bound that isn't in it, a collection
/// was handed in that stands nowhere behind IN, or an object is bound whose key isn't whole;
/// `OutOfMemory` where a growth was refused.
pub fn statement_of(
    alloc: Global,
    language: Language,
    metamodel: &Metamodel,
    work: &UnitOfWork,
    said: Reading,
    lists: &[GivenList],
    bindings: &[Binding],
) -> Result<Statement, Cause>
    requires ready { IsReady metamodel.now (now work.now) }
    requires bound { AreInHeap work.now.objects.now bindings.now }
    ensures meets { Meets result (now work.now)
        (asking.statement_of language metamodel.now said lists.now bindings.now
        (now work.now)) }
{
    let Reading { tree, uses_lists } = said;
    let Some(query) = tree else {
        return Err(Cause::IllegalArgument(Argument::Syntax));
    };
    let sorts = sorts_of(alloc, metamodel, work, bindings)?;
    let typed = check_query(alloc, language, metamodel, query, sorts.as_slice())?;
    all_apart(uses_lists, lists, bindings)?;
    let arguments = all_named(arguments_of(alloc, metamodel, work, bindings)?)?;
    Ok(Statement { typed, arguments })
}
