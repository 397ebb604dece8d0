//! What `BStr` and `Bytes` print under each format.
use crate::printed::shown;
use rows::{Fault, Words};
use std::alloc::Global;
use winnow_kinds::BStr;
use winnow_stream_bytes::Bytes;

/// Answers a question about the text that bytes print as.
pub fn answer(alloc: Global, family: &str, question: &str, input: &Words) -> Result<String, Fault> {
    let bytes = input.bytes(0)?;
    match family {
        "BStr" => shown(alloc, question, &BStr::new(bytes)),
        "Bytes" => shown(alloc, question, &Bytes::new(bytes)),
        "upper" => shown(alloc, question, &Bytes::new(bytes).upper()),
        "lower" => shown(alloc, question, &Bytes::new(bytes).lower()),
        _ => Err(Fault::NoSuchCall),
    }
}
