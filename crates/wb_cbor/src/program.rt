//! Printing the items of an input.

use crate::failure::Failure;
use crate::printing::Printing;
use crate::settings::Settings;
use example_base::{drive, new_buffer};
use std::alloc::Global;
use std::io::{Read, Write};

/// Reads the items of an input to its end, and prints each as soon as its piece is there.
pub fn print_items<R: Read, W: Write>(
    alloc: Global,
    settings: Settings,
    input: &mut R,
    output: &mut W,
) -> Result<(), Failure> {
    let mut buffer = match new_buffer(alloc) {
        Ok(buffer) => buffer,
        Err(trouble) => return Err(Failure::Stopped(trouble)),
    };
    let mut printing = match Printing::begin(alloc, settings) {
        Ok(printing) => printing,
        Err(failure) => return Err(failure),
    };
    drive(alloc, input, &mut buffer, &mut printing, output)
}
