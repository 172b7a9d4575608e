//! A tree as text: parentheses stand around each node that joins others.
use crate::writer::Writer;
use jpa_value::{Boxed, Text};
use jpql_trees::tree::{
    Against, Aggregate, Arithmetic, Assignment, Block, Comparison, Condition, Function, Item, Join,
    Origin, Path, Query, Select, Sign, SortKey, Sorted, Source, Trimmed, Value,
};

fn path(out: &mut Writer, path: &Path) {
    out.add(path.variable.as_str());
    for name in path.names.as_slice() {
        out.add(".");
        out.add(name.as_str());
    }
}

/// A comparison that is a value of CASE.
fn truth(comparison: Comparison) -> &'static str {
    match comparison {
        Comparison::Equal => "=",
        Comparison::Different => "<>",
        Comparison::Less => "<",
        Comparison::AtMost => "<=",
        Comparison::Greater => ">",
        Comparison::AtLeast => ">=",
    }
}

fn function(function: Function) -> &'static str {
    match function {
        Function::Length => "LENGTH",
        Function::Concat => "CONCAT",
        Function::Substring => "SUBSTRING",
        Function::Locate => "LOCATE",
        Function::Abs => "ABS",
        Function::Mod => "MOD",
        Function::Coalesce => "COALESCE",
        Function::NullIf => "NULLIF",
        Function::Upper => "UPPER",
        Function::Lower => "LOWER",
        Function::Trim(Trimmed::Leading) => "TRIM LEADING",
        Function::Trim(Trimmed::Trailing) => "TRIM TRAILING",
        Function::Trim(Trimmed::Both) => "TRIM BOTH",
        Function::Case => "CASE",
        Function::Match => "MATCH",
        Function::Test(operation) => truth(operation),
        Function::IsBetween => "BETWEEN",
        Function::IsAmong => "IN",
        Function::IsLike => "LIKE",
        Function::IsNull => "NULL",
        Function::And => "AND",
        Function::Or => "OR",
        Function::Not => "NOT",
    }
}

fn aggregate(aggregate: Aggregate) -> &'static str {
    match aggregate {
        Aggregate::Count => "COUNT",
        Aggregate::Sum => "SUM",
        Aggregate::Min => "MIN",
        Aggregate::Max => "MAX",
    }
}

fn comparison(comparison: Comparison) -> &'static str {
    match comparison {
        Comparison::Equal => " = ",
        Comparison::Different => " <> ",
        Comparison::Less => " < ",
        Comparison::AtMost => " <= ",
        Comparison::Greater => " > ",
        Comparison::AtLeast => " >= ",
    }
}

fn signed(sign: Sign) -> &'static str {
    match sign {
        Sign::Plus => "(+",
        Sign::Minus => "(-",
    }
}

fn arithmetic(operation: Arithmetic) -> &'static str {
    match operation {
        Arithmetic::Plus => " + ",
        Arithmetic::Minus => " - ",
        Arithmetic::Times => " * ",
    }
}

/// A word for what stands there.
fn noted(out: &mut Writer, word: &str, is_there: bool) {
    if is_there {
        out.add(word);
    }
}

fn quoted(out: &mut Writer, before: &str, text: &Text, after: &str) {
    out.add(before);
    out.add(text.as_str());
    out.add(after)
}

#[cycle(shown_value)]
fn values(out: &mut Writer, values: &[Value]) {
    out.add("[");
    for one in values {
        value(out, one);
        out.add(";");
    }
    out.add("]")
}

#[cycle(shown_value)]
fn value(out: &mut Writer, shown: &Value) {
    match shown {
        Value::Integer(number) => out.show(number),
        Value::Text(text) => quoted(out, "'", text, "'"),
        Value::Parameter(name) => quoted(out, ":", name, ""),
        Value::Path(shown) => path(out, shown),
        Value::Signed(sign, operand) => {
            out.add(signed(*sign));
            value(out, operand.get());
            out.add(")");
        }
        Value::Arithmetic(operation, left, right) => {
            out.add("(");
            value(out, left.get());
            out.add(arithmetic(*operation));
            value(out, right.get());
            out.add(")");
        }
        Value::Call(called, all) => {
            out.add(function(*called));
            values(out, all.as_slice());
        }
        Value::Size(of) => {
            out.add("SIZE ");
            path(out, of);
        }
        Value::Aggregate(called, is_distinct, of) => {
            out.add(aggregate(*called));
            out.add(if *is_distinct { "[DISTINCT " } else { "[" });
            value(out, of.get());
            out.add("]");
        }
    }
}

fn joined(out: &mut Writer, left: &Value, between: &str, right: &Value) {
    out.add("(");
    value(out, left);
    out.add(between);
    value(out, right);
    out.add(")")
}

fn tested(out: &mut Writer, first: &Value, test: &str) {
    out.add("(");
    value(out, first);
    out.add(test)
}

/// A test that holds no condition.
fn test(out: &mut Writer, shown: &Condition) {
    match shown {
        Condition::Compare(operation, left, right) => {
            joined(out, left, comparison(*operation), right);
        }
        Condition::Between(first, least, greatest) => {
            tested(out, first, " BETWEEN ");
            value(out, least);
            out.add(" AND ");
            value(out, greatest);
            out.add(")");
        }
        Condition::In(first, all) => {
            tested(out, first, " IN ");
            values(out, all.as_slice());
            out.add(")");
        }
        Condition::Like(first, pattern, escape) => {
            tested(out, first, " LIKE ");
            value(out, pattern);
            if let Some(escape) = escape {
                quoted(out, " ESCAPE '", escape, "'");
            }
            out.add(")");
        }
        Condition::IsNull(first) => tested(out, first, " IS NULL)"),
        Condition::IsEmpty(of) => {
            out.add("(EMPTY ");
            path(out, of);
            out.add(")");
        }
        Condition::Member(first, of) => {
            tested(out, first, " MEMBER ");
            path(out, of);
            out.add(")");
        }
        Condition::Type(variable, entities) => {
            quoted(out, "TYPE[", variable, ":");
            for entity in entities.as_slice() {
                quoted(out, " ", entity, "");
            }
            out.add("]");
        }
        _ => {},
    }
}

/// What of the rows of a subquery a value stands beside.
fn against(out: &mut Writer, shown: Against) {
    match shown {
        Against::Any => out.add("ANY"),
        Against::All => out.add("ALL"),
        Against::One(called, is_distinct) => {
            out.add(aggregate(called));
            noted(out, " DISTINCT", is_distinct);
        }
    }
}

#[cycle(shown)]
fn condition(out: &mut Writer, shown: &Condition) {
    match shown {
        Condition::Or(left, right) => {
            out.add("(");
            condition(out, left.get());
            out.add(" OR ");
            condition(out, right.get());
            out.add(")");
        }
        Condition::And(left, right) => {
            out.add("(");
            condition(out, left.get());
            out.add(" AND ");
            condition(out, right.get());
            out.add(")");
        }
        Condition::Not(inner) => {
            out.add("(NOT ");
            condition(out, inner.get());
            out.add(")");
        }
        Condition::Exists(inner) => {
            out.add("EXISTS{");
            block(out, inner.get());
            out.add("}");
        }
        Condition::Rows(of, operation, first, inner) => {
            tested(out, first, comparison(*operation));
            against(out, *of);
            out.add("{");
            block(out, inner.get());
            out.add("})");
        }
        _ => test(out, shown),
    }
}

#[cycle(shown)]
fn clause(out: &mut Writer, word: &str, shown: &Option<Boxed<Condition>>) {
    if let Some(shown) = shown {
        out.add(word);
        condition(out, shown.get());
    }
}

#[cycle(shown)]
fn join(out: &mut Writer, shown: &Join) {
    out.add(if shown.is_left { " LEFT " } else { " JOIN " });
    quoted(out, "", &shown.of, ".");
    quoted(out, "", &shown.relation, " ");
    out.add(shown.variable.as_str());
    clause(out, " ON ", &shown.on)
}

#[cycle(shown)]
fn source(out: &mut Writer, shown: &Source) {
    match &shown.origin {
        Origin::Entity(entity) => quoted(out, "", entity, " "),
        Origin::Related(of, relation) => {
            quoted(out, "", of, ".");
            quoted(out, "", relation, " ");
        }
    }
    out.add(shown.variable.as_str());
    for one in shown.joins.as_slice() {
        join(out, one);
    }
    out.add(";")
}

#[cycle(shown)]
fn sources(out: &mut Writer, shown: &[Source]) {
    out.add(" FROM ");
    for one in shown {
        source(out, one);
    }
}

#[cycle(shown)]
fn block(out: &mut Writer, shown: &Block) {
    noted(out, "DISTINCT ", shown.is_distinct);
    item(out, &shown.item);
    sources(out, shown.sources.as_slice());
    clause(out, " WHERE ", &shown.filter)
}

fn item(out: &mut Writer, shown: &Item) {
    value(out, &shown.value);
    if let Some(name) = &shown.name {
        quoted(out, " AS ", name, "");
    }
    out.add(";")
}

fn key(out: &mut Writer, shown: &SortKey) {
    match &shown.by {
        Sorted::Name(name) => quoted(out, " NAME ", name, ""),
        Sorted::Path(by) => {
            out.add(" ");
            path(out, by);
        }
        Sorted::Value(by) => {
            out.add(" ");
            value(out, by);
        }
    }
    out.add(if shown.is_descending { " DESC;" } else { ";" })
}

fn items(out: &mut Writer, shown: &[Item]) {
    for one in shown {
        item(out, one);
    }
}

fn groups(out: &mut Writer, shown: &[Path]) {
    for group in shown {
        out.add(" GROUP ");
        path(out, group);
    }
}

fn order(out: &mut Writer, shown: &[SortKey]) {
    for one in shown {
        out.add(" ORDER");
        key(out, one);
    }
}

fn select(out: &mut Writer, shown: &Select) {
    out.add("SELECT ");
    noted(out, "DISTINCT ", shown.is_distinct);
    items(out, shown.items.as_slice());
    sources(out, shown.sources.as_slice());
    clause(out, " WHERE ", &shown.filter);
    groups(out, shown.groups.as_slice());
    clause(out, " HAVING ", &shown.having);
    order(out, shown.order.as_slice());
}

fn assignment(out: &mut Writer, shown: &Assignment) {
    quoted(out, " ", &shown.variable, ".");
    quoted(out, "", &shown.name, " = ");
    match &shown.value {
        None => out.add("NULL"),
        Some(new) => value(out, new),
    }
    out.add(";")
}

fn update(
    out: &mut Writer,
    entity: &Text,
    variable: &Text,
    assignments: &[Assignment],
    filter: &Option<Boxed<Condition>>,
) {
    quoted(out, "UPDATE ", entity, " ");
    out.add(variable.as_str());
    for one in assignments {
        assignment(out, one);
    }
    clause(out, " WHERE ", filter);
}

fn delete(
    out: &mut Writer,
    entity: &Text,
    variable: &Option<Text>,
    filter: &Option<Boxed<Condition>>,
) {
    quoted(out, "DELETE ", entity, "");
    if let Some(variable) = variable {
        quoted(out, " ", variable, "");
    }
    clause(out, " WHERE ", filter);
}

/// Adds the query as text.
pub(crate) fn show(out: &mut Writer, query: &Query) {
    match query {
        Query::Select(shown) => select(out, shown),
        Query::Update {
            entity,
            variable,
            assignments,
            filter,
        } => update(out, entity, variable, assignments.as_slice(), filter),
        Query::Delete {
            entity,
            variable,
            filter,
        } => delete(out, entity, variable, filter),
    }
}
