//! `Printing`: reads items from the pieces of an input, and prints them.

use crate::failure::{Failure, Fault};
use crate::settings::Settings;
use example_base::{Driven, Trouble};
use format_cbor::{Item, items};
use format_cbor_general::{ReadError, Scan, read_item};
use format_cbor_notation::append_item;
use std::alloc::Global;
use std::io::Write;
use winnow_codec::Format;
use winnow_error::EmptyError;
use winnow_parser::{Failure as Unread, ModalResult};

/// The bytes of an input whose items are not printed yet.
#[derive(Drop)]
pub struct Printing {
    settings: Settings,
    scan: Scan,
    // The bytes after the items that were printed, and how many those have.
    kept: Vec<u8>,
    passed: usize,
    // Room for a line.
    text: Vec<u8>,
}

impl Printing {
    /// Returns a printer before an input.
    pub fn begin(alloc: Global, settings: Settings) -> Result<Self, Failure> {
        Ok(Printing {
            settings,
            scan: Scan::new(alloc, settings.limits)?,
            kept: Vec::new(alloc),
            passed: 0,
            text: Vec::new(alloc),
        })
    }

    // Prints the items that are whole, and says what is wrong with one that is not.
    fn print_ready<W: Write>(&mut self, alloc: Global, output: &mut W) -> Result<(), Failure> {
        let mut start = 0;
        // There are more turns than an input can have items.
        for _ in 0..u64::MAX {
            let rest = self.kept.get(start..).unwrap_or(&[]);
            if !self.scan.is_ready(rest)? {
                break;
            }
            let width = print_item(
                alloc,
                self.settings,
                self.passed,
                rest,
                &mut self.text,
                output,
            )?;
            start = start.saturating_add(width);
            self.passed = self.passed.saturating_add(width);
            self.scan = Scan::new(alloc, self.settings.limits)?;
        }
        drop_first(&mut self.kept, start);
        Ok(())
    }
}

// Drops the first bytes.
fn drop_first(bytes: &mut Vec<u8>, count: usize) {
    let length = bytes.len();
    let count = count.min(length);
    bytes.copy_within(count..length, 0);
    bytes.truncate(length - count);
}

// Prints the item with which the bytes begin, of which this number is before them in the input,
// and returns how many bytes it has.
fn print_item<W: Write>(
    alloc: Global,
    settings: Settings,
    passed: usize,
    bytes: &[u8],
    text: &mut Vec<u8>,
    output: &mut W,
) -> Result<usize, Failure> {
    let (item, width) = match read_item(alloc, settings.limits, bytes) {
        Ok(read) => read,
        Err(ReadError::Faulty { offset, cause }) => {
            return Err(Failure::Faulty {
                offset: passed.saturating_add(offset),
                fault: Fault::Malformed(cause),
            });
        }
        Err(ReadError::Refused(refused)) => return Err(Failure::from(refused)),
    };
    if settings.deterministic {
        demand_form(alloc, settings, passed, bytes.get(..width).unwrap_or(bytes))?;
    }
    if !settings.silent {
        print_line(&item, text, output)?;
    }
    Ok(width)
}

// Says where the bytes of an item are not in the deterministic form.
fn demand_form(
    alloc: Global,
    settings: Settings,
    passed: usize,
    bytes: &[u8],
) -> Result<(), Failure> {
    let format = items(settings.limits.longest, settings.limits.depth);
    let mut rest = bytes;
    let read: ModalResult<Item, EmptyError> = format.read(alloc, &mut rest);
    match read {
        Ok(_) => Ok(()),
        Err(Unread::Refused(_)) => Err(Failure::Stopped(Trouble::OutOfMemory)),
        Err(_) => Err(Failure::Faulty {
            offset: passed.saturating_add(bytes.len().saturating_sub(rest.len())),
            fault: Fault::Indeterminate,
        }),
    }
}

// Prints an item on a line.
fn print_line<W: Write>(item: &Item, text: &mut Vec<u8>, output: &mut W) -> Result<(), Failure> {
    text.clear();
    append_item(item, text)?;
    text.extend_from_slice(b"\n")?;
    match output.write_all(text) {
        Ok(()) => Ok(()),
        Err(error) => Err(Failure::Stopped(Trouble::writing(error))),
    }
}

// Flushes the output, and returns the answer, unless that cannot be written.
fn flushed<W: Write>(answer: Result<(), Failure>, output: &mut W) -> Result<(), Failure> {
    match output.flush() {
        Ok(()) => answer,
        Err(error) => Err(Failure::Stopped(Trouble::writing(error))),
    }
}

/// It prints the items that are whole with each piece. Nothing is promised of what it prints.
impl<W: Write> Driven<W> for Printing {
    type Failure = Failure;

    ghost ready = { λ _. Unit {0} };

    ghost follows = { λ _ _ _ _ _. Unit {0} };

    ghost tells = { λ _ _ _ _ _. Unit {0} };

    fn piece(&mut self, alloc: Global, piece: &[u8], output: &mut W) -> Result<(), Failure> {
        if let Err(refused) = self.kept.extend_from_slice(piece) {
            return Err(Failure::from(refused));
        }
        let answer = self.print_ready(alloc, output);
        flushed(answer, output)
    }

    fn end(&mut self, alloc: Global, output: &mut W) -> Result<(), Failure> {
        if self.kept.is_empty() {
            return Ok(());
        }
        let answer = print_item(
            alloc,
            self.settings,
            self.passed,
            &self.kept,
            &mut self.text,
            output,
        );
        flushed(answer.map(|_| ()), output)
    }

    fn trouble(trouble: Trouble) -> Failure {
        Failure::Stopped(trouble)
    }
}
