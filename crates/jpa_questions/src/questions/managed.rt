//! By what a manager finds the objects for a question, told.
ghost use Rattle.std.specs.Prelude.{◌≡◌, ◌++◌, ◌⊎◌, IfOk, IfErr, OnOk};
ghost use Rattle.std.specs.List.{flat_map};
ghost use Rattle.jpa_value.specs.declared.refusal.Argument.{Argument};
ghost use Rattle.jpa_value.specs.declared.refusal.Cause.{Cause};
ghost use Rattle.jpa_questions.specs.questions.ManagedPlans as spec;

use crate::questions::question::Question;
use jpa_model::{Member, Metamodel};
use jpa_open::OpenSet;
use jpa_value::{Argument, Cause, Text};
use jpql_run::{FoundBy, Run, Way, Within, ways_of};
use std::alloc::Global;

/// The name of an entity; none where there is no such.
fn entity_name(metamodel: &Metamodel, class: usize) -> &str
    ensures { result.now ≡ spec.entity_name metamodel.now class }
{
    match metamodel.entities().get(class) {
        Some(entity) => entity.name.as_str(),
        None => "",
    }
}

/// The name of a relation of a class; none where there is no such.
fn relation_name(metamodel: &Metamodel, class: usize, place: usize) -> &str
    ensures { result.now ≡ spec.relation_name metamodel.now class place }
{
    if class >= metamodel.entities().len() {
        return "";
    }
    match metamodel.relations_of(class).get(place) {
        Some(relation) => relation.name.as_str(),
        None => "",
    }
}

/// The name of an attribute of a class; none where there is no such.
fn attribute_name(metamodel: &Metamodel, class: usize, place: usize) -> &str
    ensures { result.now ≡ spec.attribute_name metamodel.now class place }
{
    if class >= metamodel.entities().len() {
        return "";
    }
    match metamodel.attributes_of(class).get(place) {
        Some(attribute) => attribute.name.as_str(),
        None => "",
    }
}

/// The name of a part of a class's key; none where there is no such.
fn part_name(metamodel: &Metamodel, class: usize, place: usize) -> &str
    ensures { result.now ≡ spec.part_name metamodel.now class place }
{
    if class >= metamodel.entities().len() {
        return "";
    }
    match metamodel.root_of(class).key.as_slice().get(place) {
        Some(part) => part.name.as_str(),
        None => "",
    }
}

/// The name of a member of a class; the version is told by that word.
fn member_name(metamodel: &Metamodel, class: usize, member: Member) -> &str
    ensures { result.now ≡ spec.member_name metamodel.now class member }
{
    match member {
        Member::KeyPart(place) => part_name(metamodel, class, place),
        Member::Version => "version",
        Member::Attribute(place) => attribute_name(metamodel, class, place),
        Member::Relation(place) => relation_name(metamodel, class, place),
    }
}

/// What is told of a way before the name of the class.
fn verb(way: Way) -> &'static str
    ensures { result.now ≡ spec.verb way }
{
    match way {
        Way::All => "looks at all of ",
        Way::Along(_) => "goes along ",
        _ => "looks up ",
    }
}

/// What is told behind it, and the member whose name follows, if one does.
fn words_of(way: Way) -> (&'static str, Option<Member>)
    ensures words { (result.0).now ≡ spec.words way }
    ensures member { result.1 ≡ spec.member_of way }
{
    match way {
        Way::Itself => (" itself", None),
        Way::Key => (" by its key", None),
        Way::Reference(member) => (" by ", Some(member)),
        Way::Index(member) => (" by the index of ", Some(member)),
        Way::KeySpan => (" by a range of keys", None),
        Way::Made => (" by an index that is made for the query", None),
        Way::Along(member) => (".", Some(member)),
        Way::All => ("", None),
    }
}

/// Tells a piece of text. It fails for want of memory alone.
fn put(text: &mut Vec<u8>, piece: &str) -> Result<(), Cause>
    ensures ok { OnOk result (text.new.items ≡ text.old.items ++ piece.now) }
    ensures err { IfErr result (λ cause. cause ≡ Cause.OutOfMemory) }
{
    text.extend_from_slice(piece.as_bytes())?;
    Ok(())
}

/// What is told of a variable before the way.
fn place_of(found: &FoundBy) -> &'static str
    ensures { result.now ≡ spec.place found.now.within }
{
    match found.within {
        Within::Statement => "",
        Within::Exists => "in EXISTS: ",
        Within::Rows => "in a subquery: ",
    }
}

/// Tells the name of a member of a class, if there is one. It fails for want of memory alone.
fn put_member(
    text: &mut Vec<u8>,
    metamodel: &Metamodel,
    class: usize,
    member: Option<Member>,
) -> Result<(), Cause>
    ensures ok { OnOk result (text.new.items
        ≡ text.old.items ++ spec.optional_name metamodel.now class member) }
    ensures err { IfErr result (λ cause. cause ≡ Cause.OutOfMemory) }
{
    match member {
        None => Ok(()),
        Some(member) => put(text, member_name(metamodel, class, member)),
    }
}

/// Tells by what the objects for a variable are found, in a line. It fails for want of memory alone.
fn put_line(text: &mut Vec<u8>, metamodel: &Metamodel, found: &FoundBy) -> Result<(), Cause>
    ensures ok { OnOk result (text.new.items
        ≡ text.old.items ++ spec.line metamodel.now found.now) }
    ensures err { IfErr result (λ cause. cause ≡ Cause.OutOfMemory) }
{
    let (words, member) = words_of(found.way);
    put(text, place_of(found))?;
    put(text, verb(found.way))?;
    put(text, entity_name(metamodel, found.class))?;
    put(text, words)?;
    put_member(text, metamodel, found.class, member)?;
    put(text, "\n")
}

/// Tells it of these variables. It fails for want of memory alone.
fn lines_of(alloc: Global, metamodel: &Metamodel, all: &[FoundBy]) -> Result<Vec<u8>, Cause>
    ensures ok { IfOk result (λ text. text.items ≡ flat_map (spec.line metamodel.now) all.now) }
    ensures err { IfErr result (λ cause. cause ≡ Cause.OutOfMemory) }
{
    let mut text = Vec::new(alloc);
    for found in all {
        put_line(&mut text, metamodel, found)?;
    }
    Ok(text)
}

/// The class and the member that a word `ENTITY.NAME` names, of which a manager can have an index:
/// `IllegalArgument(entity)` for no entity, `IllegalArgument(name)` for no part of its key and no
/// attribute of it.
fn member_in(metamodel: &Metamodel, word: &str) -> Result<(usize, Member), Cause>
    ensures { IfErr result spec.IsIndexRefused }
{
    let (entity, name) = word.split_once('.').unwrap_or((word, ""));
    let Some(class) = metamodel.class_of(entity) else {
        return Err(Cause::IllegalArgument(Argument::Entity));
    };
    match metamodel.member_of(class, name) {
        Some(Member::KeyPart(place)) => Ok((class, Member::KeyPart(place))),
        Some(Member::Attribute(place)) => Ok((class, Member::Attribute(place))),
        Some(Member::Version | Member::Relation(_)) | None => {
            Err(Cause::IllegalArgument(Argument::Name))
        }
    }
}

/// A set without objects, with these indexes.
fn set_with(alloc: Global, metamodel: &Metamodel, indexes: &[Text]) -> Result<OpenSet, Cause>
    ensures { IfErr result spec.IsUnplanned }
{
    let mut set = OpenSet::new(alloc, Vec::new(alloc))?;
    for word in indexes {
        let (class, member) = member_in(metamodel, word.as_str())?;
        set.index_by(metamodel, class, member)?;
    }
    Ok(set)
}

/// What is told of how a manager finds the objects for a question that has these indexes, each
/// named as `ENTITY.NAME`: a line for each variable of FROM and of its nested blocks, in their order.
/// Such are `looks up Title by the index of name`, `goes along Title.copies`, `looks at all of Loan`,
/// and `in EXISTS: looks up Loan by copy`; of a subquery beside a value `in a subquery: ` stands there.
///
/// `IllegalArgument(entity)` where a word names no entity, `IllegalArgument(name)` where it names no
/// part of a key and no attribute; `OutOfMemory` where a growth was refused.
pub fn write_managed_plan(
    alloc: Global,
    metamodel: &Metamodel,
    question: &Question,
    indexes: &[Text],
) -> Result<Vec<u8>, Cause>
    ensures ok { IfOk result (λ text. spec.IsPlan metamodel.now text.items) }
    ensures err { IfErr result spec.IsUnplanned }
{
    let set = set_with(alloc, metamodel, indexes)?;
    let run = Run {
        metamodel,
        set: &set,
        parameters: question.arguments.as_slice(),
    };
    let select = &question.select;
    let all = ways_of(alloc, &run, select.sources.as_slice(), &select.filter)?;
    lines_of(alloc, metamodel, &all)
}
