//! What the program says of a failure.

ghost use Rattle.std.specs.Prelude.{Some};
ghost use Rattle.example_resp.specs.Told.{position_text, told_text};

use std::fmt;
use wb_replies::{Failure, Position};

/// A failure after its place. Its text is what the program says of it.
#[derive(Drop)]
pub struct Told {
    pub failure: Failure,
}

// A place in the input. Its text names the line, the column and the byte.
#[derive(Clone, Copy, Drop)]
struct Place {
    place: Position,
}

impl fmt::Display for Place {
    ghost output = { λ place. Some (position_text place.place) };

    fn fmt<W: fmt::Write>(&self, f: &mut fmt::Formatter<W>) -> fmt::Result {
        let (line, column, byte) = (self.place.line, self.place.column, self.place.byte);
        write!(f, "line {line}, column {column} (byte {byte})")
    }
}

impl fmt::Display for Told {
    ghost output = { λ told. Some (told_text told.failure) };

    fn fmt<W: fmt::Write>(&self, f: &mut fmt::Formatter<W>) -> fmt::Result {
        let failure = &self.failure;
        match failure {
            Failure::NoReply { place, .. } => write!(f, "{}: {failure}", Place { place: *place }),
            Failure::EndsInside { place, .. } => {
                write!(f, "{}: {failure}", Place { place: *place })
            }
            Failure::Stopped(_) => write!(f, "{failure}"),
        }
    }
}
