//! The bytes of a reply.
ghost use Rattle.std.specs.Prelude.{◌≡◌, map, Some, None, IfOk, IfErr};
ghost use Rattle.jpa_value.specs.declared.refusal.Cause.TheVariants.{OutOfMemory};
ghost use Rattle.jpa_value.specs.declared.value.Value.TheVariants as values;
ghost use Rattle.jpa_protocol.specs.declared.reply.Reached.TheVariants as reached;
ghost use Rattle.serde_json.specs.Data.{array};
ghost use Rattle.serde_json.specs.View.{items_of};
ghost use Rattle.jpa_lines.specs.lines.Outcome.{Tells, named_data};
ghost use Rattle.jpa_lines.specs.lines.ReplyText.{value_data, object_data, item_data, row_data, answer_data, values_data, reached_data, shown_data, due_data, event_data, events_data, refusal_data, accepted_data, refused_data, reply_data, reply_text};

use jpa_protocol::{Answer, Due, Item, Reached, Reply, Shown, Told};
use jpa_value::{Cause, Refusal, Seq, Value};
use json::Writer;
use std::alloc::Global;

/// Room for a short reply, so that most take memory once.
const SHORT_REPLY: usize = 128;

/// A reply as compact JSON with its members in the order of their names, and a line feed.
pub fn write_reply(alloc: Global, reply: &Reply) -> Result<Vec<u8>, Cause>
    ensures ok { IfOk result (λ bytes. bytes.items ≡ reply_text reply.now) }
    ensures err { IfErr result (λ cause. cause ≡ OutOfMemory) }
{
    let mut out = Writer::new(Vec::with_capacity(alloc, SHORT_REPLY)?);
    tell_reply(alloc, &mut out, reply)?;
    let mut bytes = out.into_inner();
    bytes.push(b'\n')?;
    Ok(bytes)
}

fn tell_reply(alloc: Global, out: &mut Writer, reply: &Reply) -> Result<(), Cause>
    ensures { Tells result out.old out.new (reply_data reply.now) }
{
    let events = reply.events.as_slice();
    match &reply.answer {
        Ok(answer) => tell_accepted(alloc, out, events, answer),
        Err(refusal) => tell_refused(alloc, out, events, refusal),
    }
}

fn tell_accepted(
    alloc: Global,
    out: &mut Writer,
    events: &[Told],
    answer: &Answer,
) -> Result<(), Cause>
    ensures { Tells result out.old out.new
        (accepted_data (events_data events.now) (answer_data answer.now)) }
{
    out.begin_object()?;
    out.key("events")?;
    tell_events(out, events)?;
    out.key("ok")?;
    tell_answer(alloc, out, answer)?;
    out.end_object()?;
    Ok(())
}

fn tell_refused(
    alloc: Global,
    out: &mut Writer,
    events: &[Told],
    refusal: &Refusal,
) -> Result<(), Cause>
    ensures { Tells result out.old out.new
        (refused_data (events_data events.now) (refusal_data refusal.now)) }
{
    out.begin_object()?;
    out.key("error")?;
    tell_refusal(alloc, out, refusal)?;
    out.key("events")?;
    tell_events(out, events)?;
    out.end_object()?;
    Ok(())
}

fn tell_refusal(alloc: Global, out: &mut Writer, refusal: &Refusal) -> Result<(), Cause>
    ensures { Tells result out.old out.new (refusal_data refusal.now) }
{
    let name = refusal.name();
    let number = refusal.number();
    match refusal.detail(alloc)? {
        None => tell_plain_refusal(out, name, number),
        Some(why) => tell_refusal_why(out, name, number, why.as_str()),
    }
}

fn tell_plain_refusal(out: &mut Writer, name: &str, number: u64) -> Result<(), Cause>
    ensures { Tells result out.old out.new (named_data name.now number None) }
{
    out.begin_object()?;
    out.key("name")?;
    out.string(name)?;
    out.key("no")?;
    out.u64(number)?;
    out.end_object()?;
    Ok(())
}

fn tell_refusal_why(out: &mut Writer, name: &str, number: u64, why: &str) -> Result<(), Cause>
    ensures { Tells result out.old out.new (named_data name.now number (Some why.now)) }
{
    out.begin_object()?;
    out.key("name")?;
    out.string(name)?;
    out.key("no")?;
    out.u64(number)?;
    out.key("why")?;
    out.string(why)?;
    out.end_object()?;
    Ok(())
}

fn tell_events(out: &mut Writer, events: &[Told]) -> Result<(), Cause>
    ensures { Tells result out.old out.new (events_data events.now) }
{
    out.begin_array()?;
    for told in events {
        tell_event(out, told)?;
    }
    out.end_array()?;
    Ok(())
}

fn tell_event(out: &mut Writer, told: &Told) -> Result<(), Cause>
    ensures { Tells result out.old out.new (event_data told.now) }
{
    out.begin_array()?;
    out.string(told.event.name())?;
    out.u64(told.object)?;
    for name in told.ran.as_slice() {
        out.string(name.as_str())?;
    }
    out.end_array()?;
    Ok(())
}

fn tell_answer(alloc: Global, out: &mut Writer, answer: &Answer) -> Result<(), Cause>
    ensures { Tells result out.old out.new (answer_data answer.now) }
{
    match answer {
        Answer::Null => Ok(out.null()?),
        Answer::Truth(b) => Ok(out.boolean(*b)?),
        Answer::Number(n) => Ok(out.u64(*n)?),
        Answer::Value(value) => tell_value(alloc, out, value),
        Answer::Object(n) => tell_object(out, *n),
        Answer::Objects(numbers) => tell_objects(out, numbers.as_slice()),
        Answer::Row(items) => tell_row(alloc, out, items.as_slice()),
        Answer::Rows(rows) => tell_rows(alloc, out, rows.as_slice()),
        Answer::Shown(objects) => tell_all_shown(alloc, out, objects.as_slice()),
        Answer::Due(events) => tell_dues(out, events.as_slice()),
    }
}

fn tell_all_shown(alloc: Global, out: &mut Writer, objects: &[Shown]) -> Result<(), Cause>
    ensures { Tells result out.old out.new (array (items_of (map shown_data objects.now))) }
{
    out.begin_array()?;
    for shown in objects {
        tell_shown(alloc, out, shown)?;
    }
    out.end_array()?;
    Ok(())
}

fn tell_shown(alloc: Global, out: &mut Writer, shown: &Shown) -> Result<(), Cause>
    ensures { Tells result out.old out.new (shown_data shown.now) }
{
    out.begin_object()?;
    out.key("entity")?;
    out.string(shown.entity.as_str())?;
    out.key("relations")?;
    tell_relations(alloc, out, shown.relations.as_slice())?;
    out.key("values")?;
    tell_values(alloc, out, shown.values.as_slice())?;
    out.end_object()?;
    Ok(())
}

fn tell_relations(alloc: Global, out: &mut Writer, relations: &[Reached]) -> Result<(), Cause>
    ensures { Tells result out.old out.new (array (items_of (map reached_data relations.now))) }
{
    out.begin_array()?;
    for reached in relations {
        tell_reached(alloc, out, reached)?;
    }
    out.end_array()?;
    Ok(())
}

fn tell_reached(alloc: Global, out: &mut Writer, reached: &Reached) -> Result<(), Cause>
    ensures { Tells result out.old out.new (reached_data reached.now) }
{
    match reached {
        Reached::Nothing => Ok(out.null()?),
        Reached::Object(n) => tell_object(out, *n),
        Reached::Key(key) => tell_key(alloc, out, key.as_slice()),
        Reached::Objects(numbers) => tell_objects(out, numbers.as_slice()),
        Reached::Unread => tell_unread(out),
    }
}

fn tell_key(alloc: Global, out: &mut Writer, parts: &[Value]) -> Result<(), Cause>
    ensures { Tells result out.old out.new (reached_data (reached.Key parts.now)) }
{
    out.begin_object()?;
    out.key("key")?;
    tell_values(alloc, out, parts)?;
    out.end_object()?;
    Ok(())
}

fn tell_unread(out: &mut Writer) -> Result<(), Cause>
    ensures { Tells result out.old out.new (reached_data reached.Unread) }
{
    out.begin_object()?;
    out.key("unread")?;
    out.boolean(true)?;
    out.end_object()?;
    Ok(())
}

fn tell_values(alloc: Global, out: &mut Writer, values: &[Value]) -> Result<(), Cause>
    ensures { Tells result out.old out.new (values_data values.now) }
{
    out.begin_array()?;
    for value in values {
        tell_value(alloc, out, value)?;
    }
    out.end_array()?;
    Ok(())
}

fn tell_dues(out: &mut Writer, events: &[Due]) -> Result<(), Cause>
    ensures { Tells result out.old out.new (array (items_of (map due_data events.now))) }
{
    out.begin_array()?;
    for due in events {
        tell_due(out, *due)?;
    }
    out.end_array()?;
    Ok(())
}

fn tell_due(out: &mut Writer, due: Due) -> Result<(), Cause>
    ensures { Tells result out.old out.new (due_data due) }
{
    out.begin_array()?;
    out.string(due.event.name())?;
    out.u64(due.object)?;
    out.end_array()?;
    Ok(())
}

fn tell_objects(out: &mut Writer, numbers: &[u64]) -> Result<(), Cause>
    ensures { Tells result out.old out.new (array (items_of (map object_data numbers.now))) }
{
    out.begin_array()?;
    for number in numbers {
        tell_object(out, *number)?;
    }
    out.end_array()?;
    Ok(())
}

fn tell_rows(alloc: Global, out: &mut Writer, rows: &[Seq<Item>]) -> Result<(), Cause>
    ensures { Tells result out.old out.new (array (items_of (map row_data rows.now))) }
{
    out.begin_array()?;
    for row in rows {
        tell_row(alloc, out, row.as_slice())?;
    }
    out.end_array()?;
    Ok(())
}

fn tell_row(alloc: Global, out: &mut Writer, items: &[Item]) -> Result<(), Cause>
    ensures { Tells result out.old out.new (row_data items.now) }
{
    match items {
        [item] => tell_item(alloc, out, item),
        _ => tell_items(alloc, out, items),
    }
}

fn tell_items(alloc: Global, out: &mut Writer, items: &[Item]) -> Result<(), Cause>
    ensures { Tells result out.old out.new (array (items_of (map item_data items.now))) }
{
    out.begin_array()?;
    for item in items {
        tell_item(alloc, out, item)?;
    }
    out.end_array()?;
    Ok(())
}

fn tell_item(alloc: Global, out: &mut Writer, item: &Item) -> Result<(), Cause>
    ensures { Tells result out.old out.new (item_data item.now) }
{
    match item {
        Item::Value(value) => tell_value(alloc, out, value),
        Item::Object(n) => tell_object(out, *n),
    }
}

fn tell_object(out: &mut Writer, number: u64) -> Result<(), Cause>
    ensures { Tells result out.old out.new (object_data number) }
{
    out.begin_object()?;
    out.key("object")?;
    out.u64(number)?;
    out.end_object()?;
    Ok(())
}

pub fn tell_value(alloc: Global, out: &mut Writer, value: &Value) -> Result<(), Cause>
    ensures { Tells result out.old out.new (value_data value.now) }
{
    match value {
        Value::Null => Ok(out.null()?),
        Value::Int(n) => Ok(out.i64(*n)?),
        Value::Text(text) => Ok(out.string(text.as_str())?),
        Value::Bytes(bytes) => tell_bytes(alloc, out, bytes.as_slice()),
    }
}

/// Bytes as hex digits.
fn tell_bytes(alloc: Global, out: &mut Writer, bytes: &[u8]) -> Result<(), Cause>
    ensures { Tells result out.old out.new (value_data (values.Bytes bytes.now)) }
{
    let digits = hex::encode(alloc, bytes)?;
    out.begin_object()?;
    out.key("hex")?;
    out.string(digits.as_str())?;
    out.end_object()?;
    Ok(())
}
