//! The scan of a token.

ghost use Rattle.std.specs.Prelude.{◌≡◌, ◌∷◌, [], ◌++◌, List, ℕ, false};
ghost use Rattle.winnow_scan.specs.Scanning.{GoesOn};
ghost use Rattle.format_json.specs.TokenAnswers.{OneToken};
ghost use Rattle.format_json.specs.Scan.{IsScanned};

use crate::JsonToken;
use crate::found::is_blank;
use format_json_scalars::{Tail, is_number_byte};
use winnow_scan::Scan;

/// Where the scan of a token is, and the bytes of a character of a string that are not all there.
#[derive(Debug, Drop)]
pub struct TokenScan {
    part: Part,
    tail: Tail,
}

// The part of a token in which a scan is.
#[derive(Clone, Copy, Debug, Drop, PartialEq, Eq)]
enum Part {
    // The blanks before it
    Blanks,
    // A number
    Number,
    // A string
    Text,
}

/// The scan stops at the byte that may end a token, or is wrong in it, and at words, which are
/// short.
impl Scan for JsonToken {
    type State = TokenScan;

    ghost scanned = { λ _ bytes state. IsScanned bytes state };

    fn start(&self) -> TokenScan {
        TokenScan {
            part: Part::Blanks,
            tail: Tail::new(),
        }
    }

    fn scan(&self, state: &mut TokenScan, more: &[u8]) -> bool {
        for byte in more {
            if state.stops_at(*byte) {
                return true;
            }
        }
        false
    }
}

impl TokenScan {
    // Goes over a byte, and returns whether the token may end there.
    fn stops_at(&mut self, byte: u8) -> bool
        ensures { (bytes : List ℕ) → IsScanned bytes self.old → result ≡ false
            → IsScanned (bytes ++ byte ∷ []) self.new }
    {
        match self.part {
            Part::Blanks => {
                if is_blank(byte) {
                    return false;
                }
                if byte == b'"' {
                    self.part = Part::Text;
                    return false;
                }
                if is_number_byte(byte) {
                    self.part = Part::Number;
                    return false;
                }
                true
            }
            Part::Number => !is_number_byte(byte),
            Part::Text => self.tail.stops_at(byte),
        }
    }
}
