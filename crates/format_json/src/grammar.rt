//! The grammar of values, nested to a depth.

ghost use Rattle.std.specs.Prelude.{◌≤◌, length, drop, IfOk};
ghost use Rattle.format_lemmas.specs.Bytes.{StartsWith};
ghost use Rattle.format_json_scalars.specs.StringAnswers.{StringHere};
ghost use Rattle.format_json.specs.Language.{Nested, Elements, Bracketed, MemberAhead};
ghost use Rattle.format_json.specs.Language.{after_blanks};
ghost use Rattle.format_json.specs.Language.{ValueHere, ValueAhead};
ghost use Rattle.format_json.specs.Founds.{IsFound};
ghost use Rattle.format_json.specs.Damage.{IsPlaced, BreaksOff, HereBreaksOff, ElementsIn};
ghost use Rattle.format_json.specs.Damage.{MemberIn, MembersIn, ArrayBreaksOff, ObjectBreaksOff};
ghost use Rattle.format_json.specs.Begun.{IsOpen, BeginsValue, BeginsHere, BeginsElementsIn};
ghost use Rattle.format_json.specs.Begun.{BeginsMemberIn, BeginsMembersIn, BeginsArray};
ghost use Rattle.format_json.specs.Begun.{BeginsObject};

use crate::Value;
use crate::found::{Found, Next, blank_count, byte_at, next_at};
use crate::scalars::{scalar_at, string_at};
use std::alloc::{AllocError, Global};

// Reads a value with no blanks before it, within at most `depth` arrays and objects.
// Inlined: an answer that a call hands up goes through memory, which is filled with zeros first.
// So only values, elements and members are read by calls.
#[inline(always)]
#[cycle(value)]
fn value_here(
    alloc: Global,
    bytes: &[u8],
    partial: bool,
    depth: usize,
) -> Result<Found<Value>, AllocError>
    ensures found { IfOk result (IsFound (ValueHere partial depth) partial bytes.now) }
    ensures place { IfOk result (IsPlaced (HereBreaksOff partial depth) bytes.now) }
    ensures begun { IfOk result (IsOpen (BeginsHere partial depth) bytes.now) }
{
    if bytes.is_empty() {
        return scalar_at(alloc, bytes, partial);
    }
    let first = bytes[0];
    if first == b'[' {
        return match array_at(alloc, bytes, partial, depth)? {
            Found::Whole(elements, width) => Ok(Found::Whole(Value::Array(elements), width)),
            Found::Begun => Ok(Found::Begun),
            Found::Damaged(width) => Ok(Found::Damaged(width)),
        };
    }
    if first == b'{' {
        return match object_at(alloc, bytes, partial, depth)? {
            Found::Whole(members, width) => Ok(Found::Whole(Value::Object(members), width)),
            Found::Begun => Ok(Found::Begun),
            Found::Damaged(width) => Ok(Found::Damaged(width)),
        };
    }
    scalar_at(alloc, bytes, partial)
}

/// Reads a value after blanks, within at most `depth` arrays and objects.
#[inline(never)]
#[cycle(value)]
pub(crate) fn value_at(
    alloc: Global,
    bytes: &[u8],
    partial: bool,
    depth: usize,
) -> Result<Found<Value>, AllocError>
    ensures found { IfOk result (IsFound (ValueAhead partial depth) partial bytes.now) }
    ensures place { IfOk result (IsPlaced (BreaksOff partial depth) bytes.now) }
    ensures begun { IfOk result (IsOpen (BeginsValue partial depth) bytes.now) }
{
    let at = blank_count(bytes);
    match value_here(alloc, &bytes[at..], partial, depth)? {
        Found::Whole(value, width) => Ok(Found::Whole(value, at + width)),
        Found::Begun => Ok(Found::Begun),
        Found::Damaged(width) => Ok(Found::Damaged(at + width)),
    }
}

// Reads the elements of an array, of which there is one at least, and its closing bracket. Each
// stands within at most `depth` arrays and objects.
#[inline(never)]
#[cycle(value)]
fn elements_at(
    alloc: Global,
    bytes: &[u8],
    partial: bool,
    depth: usize,
) -> Result<Found<Vec<Value>>, AllocError>
    ensures found { IfOk result (IsFound (λ v. Elements (ValueAhead partial depth) 93 v.items)
        partial bytes.now) }
    ensures place { IfOk result (IsPlaced (ElementsIn partial depth) bytes.now) }
    ensures begun { IfOk result (IsOpen (BeginsElementsIn partial depth) bytes.now) }
{
    let mut elements = Vec::new(alloc);
    let mut at = 0;
    loop {
        match value_at(alloc, &bytes[at..], partial, depth)? {
            Found::Whole(value, width) => {
                elements.push(value)?;
                at += width;
            }
            Found::Begun => return Ok(Found::Begun),
            Found::Damaged(width) => return Ok(Found::Damaged(at + width)),
        }
        match next_at(&bytes[at..], partial, b']') {
            Next::More(width) => at += width,
            Next::Closed(width) => return Ok(Found::Whole(elements, at + width)),
            Next::Begun => return Ok(Found::Begun),
            Next::Damaged(width) => return Ok(Found::Damaged(at + width)),
        }
    }
}

// Reads an array, of which each element stands within fewer than `depth` arrays and objects.
#[inline(always)]
#[cycle(value)]
fn array_at(
    alloc: Global,
    bytes: &[u8],
    partial: bool,
    depth: usize,
) -> Result<Found<Vec<Value>>, AllocError>
    requires { StartsWith 91 bytes.now }
    ensures found { IfOk result (IsFound (λ v. Bracketed (Nested partial depth) 93 91 v.items)
        partial bytes.now) }
    ensures place { IfOk result (IsPlaced (ArrayBreaksOff partial depth) bytes.now) }
    ensures begun { IfOk result (IsOpen (BeginsArray partial depth) bytes.now) }
{
    match byte_at(&bytes[1..], partial, b']') {
        Found::Whole(_, width) => Ok(Found::Whole(Vec::new(alloc), 1 + width)),
        Found::Begun => Ok(Found::Begun),
        Found::Damaged(width) => {
            if depth == 0 {
                return Ok(Found::Damaged(1 + width));
            }
            match elements_at(alloc, &bytes[1..], partial, depth - 1)? {
                Found::Whole(elements, width) => Ok(Found::Whole(elements, 1 + width)),
                Found::Begun => Ok(Found::Begun),
                Found::Damaged(width) => Ok(Found::Damaged(1 + width)),
            }
        }
    }
}

// Reads a member of an object after its name, which ends after `start` bytes. Its value stands
// within at most `depth` arrays and objects.
#[inline(always)]
#[cycle(value)]
fn member_after(
    alloc: Global,
    bytes: &[u8],
    partial: bool,
    depth: usize,
    name: String,
    start: usize,
) -> Result<Found<(String, Value)>, AllocError>
    requires within { start ≤ length bytes.now }
    requires named { StringHere name (after_blanks bytes.now) (drop start bytes.now) }
    ensures found { IfOk result
        (IsFound (MemberAhead (ValueAhead partial depth)) partial bytes.now) }
    ensures place { IfOk result (IsPlaced (MemberIn partial depth) bytes.now) }
    ensures begun { IfOk result (IsOpen (BeginsMemberIn partial depth) bytes.now) }
{
    match byte_at(&bytes[start..], partial, b':') {
        Found::Whole(_, colon) => {
            let at = start + colon;
            match value_at(alloc, &bytes[at..], partial, depth)? {
                Found::Whole(value, width) => Ok(Found::Whole((name, value), at + width)),
                Found::Begun => Ok(Found::Begun),
                Found::Damaged(width) => Ok(Found::Damaged(at + width)),
            }
        }
        Found::Begun => Ok(Found::Begun),
        Found::Damaged(width) => Ok(Found::Damaged(start + width)),
    }
}

// Reads a member of an object, of which the value stands within at most `depth` arrays and objects.
#[inline(always)]
#[cycle(value)]
fn member_at(
    alloc: Global,
    bytes: &[u8],
    partial: bool,
    depth: usize,
) -> Result<Found<(String, Value)>, AllocError>
    ensures found { IfOk result
        (IsFound (MemberAhead (ValueAhead partial depth)) partial bytes.now) }
    ensures place { IfOk result (IsPlaced (MemberIn partial depth) bytes.now) }
    ensures begun { IfOk result (IsOpen (BeginsMemberIn partial depth) bytes.now) }
{
    let at = blank_count(bytes);
    match string_at(alloc, &bytes[at..], partial)? {
        Found::Whole(name, width) => member_after(alloc, bytes, partial, depth, name, at + width),
        Found::Begun => Ok(Found::Begun),
        Found::Damaged(width) => Ok(Found::Damaged(at + width)),
    }
}

// Reads the members of an object, of which there is one at least, and its closing bracket. Each
// value stands within at most `depth` arrays and objects.
#[inline(never)]
#[cycle(value)]
fn members_at(
    alloc: Global,
    bytes: &[u8],
    partial: bool,
    depth: usize,
) -> Result<Found<Vec<(String, Value)>>, AllocError>
    ensures found { IfOk result
        (IsFound (λ v. Elements (MemberAhead (ValueAhead partial depth)) 125 v.items)
        partial bytes.now) }
    ensures place { IfOk result (IsPlaced (MembersIn partial depth) bytes.now) }
    ensures begun { IfOk result (IsOpen (BeginsMembersIn partial depth) bytes.now) }
{
    let mut members = Vec::new(alloc);
    let mut at = 0;
    loop {
        match member_at(alloc, &bytes[at..], partial, depth)? {
            Found::Whole(member, width) => {
                members.push(member)?;
                at += width;
            }
            Found::Begun => return Ok(Found::Begun),
            Found::Damaged(width) => return Ok(Found::Damaged(at + width)),
        }
        match next_at(&bytes[at..], partial, b'}') {
            Next::More(width) => at += width,
            Next::Closed(width) => return Ok(Found::Whole(members, at + width)),
            Next::Begun => return Ok(Found::Begun),
            Next::Damaged(width) => return Ok(Found::Damaged(at + width)),
        }
    }
}

// Reads an object, of which each value stands within fewer than `depth` arrays and objects.
#[inline(always)]
#[cycle(value)]
fn object_at(
    alloc: Global,
    bytes: &[u8],
    partial: bool,
    depth: usize,
) -> Result<Found<Vec<(String, Value)>>, AllocError>
    requires { StartsWith 123 bytes.now }
    ensures found { IfOk result (IsFound
        (λ v. Bracketed (MemberAhead (Nested partial depth)) 125 123 v.items) partial bytes.now) }
    ensures place { IfOk result (IsPlaced (ObjectBreaksOff partial depth) bytes.now) }
    ensures begun { IfOk result (IsOpen (BeginsObject partial depth) bytes.now) }
{
    match byte_at(&bytes[1..], partial, b'}') {
        Found::Whole(_, width) => Ok(Found::Whole(Vec::new(alloc), 1 + width)),
        Found::Begun => Ok(Found::Begun),
        Found::Damaged(width) => {
            if depth == 0 {
                return Ok(Found::Damaged(1 + width));
            }
            match members_at(alloc, &bytes[1..], partial, depth - 1)? {
                Found::Whole(members, width) => Ok(Found::Whole(members, 1 + width)),
                Found::Begun => Ok(Found::Begun),
                Found::Damaged(width) => Ok(Found::Damaged(1 + width)),
            }
        }
    }
}
