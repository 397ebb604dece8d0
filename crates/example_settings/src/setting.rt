//! A `Setting`, which is a key and its value, and `read_setting`, which reads one.

ghost use Rattle.std.specs.Prelude.{◌≡◌, false, IfOk, IfErr, OnOk};
ghost use Rattle.winnow_parser.specs.Answer.{ahead};
ghost use Rattle.example_settings.specs.Lines.{IsSetting, Lacks, behind, is_in_line, from_value};
ghost use Rattle.example_settings.specs.Lines.{told};

use crate::fault::Wanted;
use std::alloc::Global;
use winnow_combinator::opt;
use winnow_error::EmptyError;
use winnow_parser::{ModalResult, Parser};
use winnow_stream::{Stream, StreamIsPartial};
use winnow_token::{one_of, take_till, take_while};

/// A setting: a key and its value, each a slice of the input.
#[derive(Debug, Drop)]
pub struct Setting<T> {
    /// The name that is set
    pub key: T,
    /// The text that it is set to
    pub value: T,
}

/// Reads `key = value`, or returns what was wanted where the stream then stands.
pub fn read_setting<I: StreamIsPartial + Stream<Token = char>>(
    alloc: Global,
    input: &mut I,
) -> Result<Setting<I::Slice>, Wanted>
where
    I::Slice: Drop,
    requires valid { I.valid input.old }
    requires complete { I.expects_more input.old ≡ false }
    ensures setting { IfOk result (λ setting.
        IsSetting I.is_slice (ahead I.location I.remaining input.old) setting) }
    ensures behind { OnOk result (ahead I.location I.remaining input.new
        ≡ behind is_in_line (from_value (ahead I.location I.remaining input.old))) }
    ensures lacks { IfErr result (λ wanted. Lacks (ahead I.location I.remaining input.old) wanted
        (ahead I.location I.remaining input.new)) }
    ensures valid { I.valid input.new }
    ensures kept { I.keeps input.old input.new }
{
    let blanks = take_while(0.., (' ', '\t'));
    let key = (take_while(1.., ('A'..='Z', 'a'..='z')), blanks);
    let sign = (one_of('='), blanks);
    let line = opt((key, opt((sign, opt(take_till(1.., '\n'))))));
    let parts: ModalResult<_, EmptyError> = line.parse_next(alloc, input);
    let Ok(parts) = parts else { unreachable!() };
    told(parts)
}

// Returns the setting that the parts of a line make, or what is wanted after the last part.
fn told<T: Drop>(
    parts: Option<((T, T), Option<((char, T), Option<T>)>)>,
) -> Result<Setting<T>, Wanted>
    ensures { result ≡ told parts }
{
    let (key, after_key) = parts.ok_or(Wanted::Key)?;
    let (_, value) = after_key.ok_or(Wanted::Equals)?;
    let value = value.ok_or(Wanted::Value)?;
    Ok(Setting { key: key.0, value })
}
