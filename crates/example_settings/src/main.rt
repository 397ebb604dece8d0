//! A reader of lines `key = value`. It goes on after a line that is no setting, so that it reports
//! all errors of a text at once.
//!
//! `setting` is the grammar of one line. `reader` reads all lines, from any stream of characters
//! that knows its location, and records the faults. `fault` turns a record into an error that is
//! printed with its line and column.
#![tactic(auto)]

mod fault;
mod reader;
mod setting;

use fault::Fault;
use std::io;
use winnow_recover::Recoverable;
use winnow_wrap::LocatingSlice;

const TEXT: &str = "name = rattle\nwidth 80\nheight = 25\ncolour =\n = red\n";

fn main(rt: HostRuntime) -> io::Result<()> {
    let text = LocatingSlice::new(TEXT);
    let mut input: Recoverable<LocatingSlice<&str>, Fault> = Recoverable::new(rt.alloc(), text);
    let settings = reader::read_settings(rt.alloc(), &mut input)?;
    for setting in &settings {
        println!(rt; "{} is {}", setting.key, setting.value)?;
    }
    for fault in input.into_parts().1 {
        let error = fault.located(rt.alloc(), TEXT)?;
        println!(rt; "{error}")?;
    }
    Ok(())
}
