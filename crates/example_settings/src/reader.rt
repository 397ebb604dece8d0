//! `read_settings`, which reads lines and records a `Fault` for each line that is no setting.

ghost use Rattle.std.specs.Prelude.{◌≡◌, false, [], IfOk, IfErr, OnOk, IsTrue};
ghost use Rattle.winnow_stream.specs.Location.{IsLocation};
ghost use Rattle.winnow_recover.specs.Recovering.{recoverable_inner, recorded_errors};
ghost use Rattle.winnow_recover.specs.Recovering.{records_errors, KeepsErrors};
ghost use Rattle.winnow_parser.specs.Answer.{ahead};
ghost use Rattle.example_settings.specs.Lines.{AreRead, IsRead, IsSetting, Lacks, behind_line};

use crate::fault::{Fault, Wanted};
use crate::setting::{Setting, read_setting};
use std::alloc::{AllocError, Global};
use winnow_error::EmptyError;
use winnow_error_context::ContextError;
use winnow_parser::{ModalResult, Parser};
use winnow_recover::{Recover, Recoverable};
use winnow_stream::{Location, Stream, StreamIsPartial, taken_law};
use winnow_token::take_till;

/// Reads all remaining lines. Returns the settings, and records a fault for each other line, with
/// what was wanted and where.
pub fn read_settings<I: StreamIsPartial + Stream<Token = char> + Location>(
    alloc: Global,
    input: &mut Recoverable<I, Fault>,
) -> Result<Vec<Setting<I::Slice>>, AllocError>
where
    I::Slice: Drop,
    I::PartialState: Drop,
    requires valid { I.valid (recoverable_inner input.old) }
    requires located { IsLocation I.location I.token_end I.token_start }
    requires records { IsTrue (records_errors input.old) }
    ensures read { IfOk result (λ settings. let stands = ahead I.location I.remaining in
        AreRead I.is_slice (stands (recoverable_inner input.old)) settings.items
        (recorded_errors input.old) (recorded_errors input.new)
        (stands (recoverable_inner input.new))) }
    ensures end { IfOk result (λ _. I.remaining (recoverable_inner input.new) ≡ []) }
{
    taken_law::<char>();
    let _ = input.complete();
    let mut settings = Vec::new(alloc);
    'lines: while input.eof_offset() > 0 {
        if let Some(setting) = read_line(alloc, input)? {
            settings.push(setting)?;
        }
    }
    Ok(settings)
}

// Reads one line and moves past it. Where it is no setting, records its fault and returns `None`.
fn read_line<I: StreamIsPartial + Stream<Token = char> + Location>(
    alloc: Global,
    input: &mut Recoverable<I, Fault>,
) -> Result<Option<Setting<I::Slice>>, AllocError>
where
    I::Slice: Drop,
    requires valid { I.valid (recoverable_inner input.old) }
    requires complete { I.expects_more (recoverable_inner input.old) ≡ false }
    requires located { IsLocation I.location I.token_end I.token_start }
    requires records { IsTrue (records_errors input.old) }
    ensures read { IfOk result (λ found. IsRead I.is_slice
        (ahead I.location I.remaining (recoverable_inner input.old))
        found (recorded_errors input.old) (recorded_errors input.new)) }
    ensures behind { OnOk result (ahead I.location I.remaining (recoverable_inner input.new)
        ≡ behind_line (ahead I.location I.remaining (recoverable_inner input.old))) }
    ensures valid { I.valid (recoverable_inner input.new) }
    ensures complete { I.expects_more (recoverable_inner input.new) ≡ false }
    ensures records { IsTrue (records_errors input.new) }
{
    let start = input.checkpoint();
    let found = match read_inside(alloc, input) {
        Ok(setting) => Some(setting),
        Err(wanted) => {
            let mut error = ContextError::new(alloc);
            error.push(wanted)?;
            let here = input.checkpoint();
            let recorded = input.record_err(&start, &here, error);
            recorded.map_err(|_| AllocError)?;
            None
        }
    };
    input.reset(&start);
    skip_line(alloc, input.inner_mut());
    Ok(found)
}

// Reads a setting from the stream inside, which has no errors to change.
fn read_inside<I: StreamIsPartial + Stream<Token = char>>(
    alloc: Global,
    input: &mut Recoverable<I, Fault>,
) -> Result<Setting<I::Slice>, Wanted>
where
    I::Slice: Drop,
    requires valid { I.valid (recoverable_inner input.old) }
    requires complete { I.expects_more (recoverable_inner input.old) ≡ false }
    ensures setting { IfOk result (λ setting. IsSetting I.is_slice
        (ahead I.location I.remaining (recoverable_inner input.old)) setting) }
    ensures lacks { IfErr result (λ wanted. Lacks
        (ahead I.location I.remaining (recoverable_inner input.old)) wanted
        (ahead I.location I.remaining (recoverable_inner input.new))) }
    ensures valid { I.valid (recoverable_inner input.new) }
    ensures kept { KeepsErrors I.keeps input.old input.new }
{
    read_setting(alloc, input.inner_mut())
}

// Moves past the line. No error is recorded on the way, since the stream has none.
fn skip_line<I: StreamIsPartial + Stream<Token = char>>(alloc: Global, input: &mut I)
where
    I::Slice: Drop,
    requires valid { I.valid input.old }
    requires complete { I.expects_more input.old ≡ false }
    ensures behind { ahead I.location I.remaining input.new
        ≡ behind_line (ahead I.location I.remaining input.old) }
    ensures valid { I.valid input.new }
    ensures complete { I.expects_more input.new ≡ false }
{
    let rest: ModalResult<_, EmptyError> = take_till(0.., '\n').parse_next(alloc, input);
    let Ok(_) = rest else { unreachable!() };
    let _ = input.next_token();
}
