//! `print_answers`, which runs a script on a stream and returns the lines of its answers.

ghost use Rattle.std.specs.Prelude.{◌≡◌, IfOk, string_bytes};
ghost use Rattle.winnow_script_run.specs.Searching.{AreSearchAnswers};
ghost use Rattle.winnow_script_print.specs.AnswerLines.{item_words, answer_lines};
ghost use Rattle.winnow_script_print.specs.HeldNumbers.{HoldsNumber};

use std::alloc::{AllocError, Global};
use winnow_match::{Compare, FindSlice, Needles};
use winnow_script_print::{PushWords, push_answers};
use winnow_script_run::{SearchStep, run_search};
use winnow_sets::{AsChar, CharSet};
use winnow_stream::Stream;

// Runs steps on a stream whose tokens stand for characters, and returns the lines of their
// answers.
pub(crate) fn print_answers<S: Stream + Compare<L> + FindSlice<Needles<L>> + Drop, L: Copy>(
    alloc: Global,
    mut stream: S,
    steps: &[SearchStep<CharSet<'_>, L>],
) -> Result<String, AllocError>
where
    S::Token: AsChar + Copy,
    S::Slice: PushWords + Drop,
    requires { S.valid stream }
    ensures { IfOk result (λ text. (given : _)
        × AreSearchAnswers (HoldsNumber S.Token.code) S.is_slice S.counts_shortage S.compared
        S.found (S.remaining stream) steps.now given
        × (string_bytes text
        ≡ answer_lines S.Token.code S.Slice.words (λ v. item_words S.Token.code v.items) given)) }
{
    let answers = run_search(alloc, &mut stream, steps)?;
    let mut text = String::new(alloc);
    push_answers(&mut text, &answers)?;
    Ok(text)
}
