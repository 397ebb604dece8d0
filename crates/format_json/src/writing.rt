//! Writing a value.

ghost use Rattle.std.specs.Prelude.{◌≡◌, ◌++◌, OnOk, OnErr, IfErr};
ghost use Rattle.format_json.specs.Documents.{IsDocument};
ghost use Rattle.format_json.specs.Language.{ValueAhead};
ghost use Rattle.format_json.specs.Writing.{written, IsReadBack, IsWhy};
ghost use Rattle.format_json.specs.Appending.{ArrayHere, array_text, MemberHere, member_text};
ghost use Rattle.format_json.specs.Appending.{ObjectHere, object_text};
ghost use Rattle.format_json.specs.Appending.{IsAppended, IsNumberAppended};
ghost use Rattle.format_json.specs.declared.writing.Unwritten.TheVariants.{Refused};

use crate::Value;
use format_json_scalars::{Number, append_string, is_of_text};
use std::alloc::AllocError;

/// Why a value was not written.
#[derive(Clone, Copy, Debug, Drop)]
pub enum Unwritten {
    /// The text of a number in it is none of JSON, or has another integer than the number
    NoNumber,
    /// A value in it stands within more arrays and objects than the limit
    TooDeep,
    /// Memory was refused
    Refused(AllocError),
}

impl From<AllocError> for Unwritten {
    ghost from_gives = { λ refused unwritten. unwritten ≡ Refused refused };

    fn from(refused: AllocError) -> Unwritten {
        Unwritten::Refused(refused)
    }
}

/// Appends the text of a value, without blanks.
///
/// A number is written as its text. In a string a quote, a backslash and the control characters are
/// escaped, by a letter where there is one, and all other characters stand for themselves.
///
/// Each value in it must stand within at most `depth` arrays and objects, as for
/// [`read_value`](crate::read_value), and each number must be the one that its text writes. No text
/// is a value that is refused for either. Of several such faults the answer names the first in the
/// order of the text, which the contract does not say. Where nothing is written, the bytes are what
/// they were.
///
/// Calls are nested as deep as the arrays and objects, so `depth` limits the stack.
pub fn write_value(depth: usize, value: &Value, bytes: &mut Vec<u8>) -> Result<(), Unwritten>
    ensures written { OnOk result (bytes.new.items ≡ bytes.old.items ++ written value.now) }
    ensures read_back { OnOk result (IsReadBack depth value.now) }
    ensures document { OnOk result (IsDocument depth (written value.now) value.now) }
    ensures unwritten { OnErr result (bytes.new.items ≡ bytes.old.items) }
    ensures why { IfErr result (IsWhy depth value.now) }
{
    // The text is made in memory of its own, so a fault leaves the bytes as they were.
    let mut text = Vec::new(*bytes.allocator());
    append_value(depth, value, &mut text)?;
    bytes.extend_from_slice(&text)?;
    Ok(())
}

// Appends the text of a value.
#[cycle(writing)]
fn append_value(depth: usize, value: &Value, bytes: &mut Vec<u8>) -> Result<(), Unwritten>
    ensures { IsAppended ValueAhead written depth value.now bytes.old.items bytes.new.items result }
{
    match value {
        Value::Null => bytes.extend_from_slice(b"null")?,
        Value::Bool(true) => bytes.extend_from_slice(b"true")?,
        Value::Bool(false) => bytes.extend_from_slice(b"false")?,
        Value::Number(number) => append_number(number, bytes)?,
        Value::String(text) => append_string(text, bytes)?,
        Value::Array(values) => append_array(depth, values, bytes)?,
        Value::Object(members) => append_object(depth, members, bytes)?,
    }
    Ok(())
}

// Appends the text of a number.
fn append_number(number: &Number, bytes: &mut Vec<u8>) -> Result<(), Unwritten>
    ensures { IsNumberAppended number.now bytes.old.items bytes.new.items result }
{
    if !is_of_text(number) {
        return Err(Unwritten::NoNumber);
    }
    bytes.extend_from_slice(&number.text)?;
    Ok(())
}

// Appends the elements of an array between brackets.
#[cycle(writing)]
fn append_array(depth: usize, values: &[Value], bytes: &mut Vec<u8>) -> Result<(), Unwritten>
    ensures { IsAppended ArrayHere array_text depth values.now
        bytes.old.items bytes.new.items result }
{
    if values.is_empty() {
        bytes.extend_from_slice(b"[]")?;
        return Ok(());
    }
    if depth == 0 {
        return Err(Unwritten::TooDeep);
    }
    bytes.extend_from_slice(b"[")?;
    append_value(depth - 1, &values[0], bytes)?;
    for value in &values[1..] {
        bytes.extend_from_slice(b",")?;
        append_value(depth - 1, value, bytes)?;
    }
    bytes.extend_from_slice(b"]")?;
    Ok(())
}

// Appends a member of an object, of which the value stands within fewer than `depth` arrays and
// objects.
#[cycle(writing)]
fn append_member(
    depth: usize,
    member: &(String, Value),
    bytes: &mut Vec<u8>,
) -> Result<(), Unwritten>
    ensures { IsAppended MemberHere member_text depth member.now
        bytes.old.items bytes.new.items result }
{
    append_string(&member.0, bytes)?;
    bytes.extend_from_slice(b":")?;
    append_value(depth, &member.1, bytes)?;
    Ok(())
}

// Appends the members of an object between brackets.
#[cycle(writing)]
fn append_object(
    depth: usize,
    members: &[(String, Value)],
    bytes: &mut Vec<u8>,
) -> Result<(), Unwritten>
    ensures { IsAppended ObjectHere object_text depth members.now
        bytes.old.items bytes.new.items result }
{
    if members.is_empty() {
        bytes.extend_from_slice(b"{}")?;
        return Ok(());
    }
    if depth == 0 {
        return Err(Unwritten::TooDeep);
    }
    bytes.extend_from_slice(b"{")?;
    append_member(depth - 1, &members[0], bytes)?;
    for member in &members[1..] {
        bytes.extend_from_slice(b",")?;
        append_member(depth - 1, member, bytes)?;
    }
    bytes.extend_from_slice(b"}")?;
    Ok(())
}
