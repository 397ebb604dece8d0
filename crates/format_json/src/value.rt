//! `Value`: a text as a value.

use format_json_scalars::Number;

/// A value.
#[derive(Debug, Drop)]
pub enum Value {
    /// `null`
    Null,
    /// `true` or `false`
    Bool(bool),
    /// A number, with its text
    Number(Number),
    /// A string
    String(String),
    /// The elements of an array, in order
    Array(Vec<Value>),
    /// The members of an object, each a name and a value, in the order of the text. Of members with
    /// equal names all are kept.
    Object(Vec<(String, Value)>),
}
