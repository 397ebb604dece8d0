//! The lines that the program prints for answers: `push_answer`, `push_answers`, and
//! `push_numbered`, which names the piece that made an answer definite.

ghost use Rattle.std.specs.Prelude.{◌≡◌, ◌++◌, codes, string_bytes, OnOk};
ghost use Rattle.winnow_script_print.specs.AnswerLines.{at_words, compared_words, hit_words};
ghost use Rattle.winnow_script_print.specs.AnswerLines.{offset_words};
ghost use Rattle.winnow_script_print.specs.AnswerLines.{token_words, line, call_words, answer_line};
ghost use Rattle.winnow_script_print.specs.AnswerLines.{answer_lines, numbered_line};

use crate::PushWords;
use std::alloc::AllocError;
use std::ops::Range;
use winnow_match::CompareResult;
use winnow_script_run::{Answer, SearchAnswer};
use winnow_sets::AsChar;
use winnow_stream::Needed;

/// Appends the line of each answer, in order.
pub fn push_answers<T: AsChar + Copy, S: PushWords, L: PushWords>(
    text: &mut String,
    answers: &[SearchAnswer<T, S, L>],
) -> Result<(), AllocError>
    ensures { OnOk result (string_bytes text.new
        ≡ string_bytes text.old ++ answer_lines T.code S.words L.words answers.now) }
{
    for answer in answers {
        push_answer(text, answer)?;
    }
    Ok(())
}

/// Appends the line of an answer over pieces: the number of the piece that made it definite, or
/// `end`, then the answer.
pub fn push_numbered<T: AsChar + Copy, S: PushWords, L: PushWords>(
    text: &mut String,
    piece: Option<u64>,
    answer: &SearchAnswer<T, S, L>,
) -> Result<(), AllocError>
    ensures { OnOk result (string_bytes text.new
        ≡ string_bytes text.old ++ numbered_line T.code S.words L.words piece answer.now) }
{
    match piece {
        Some(number) => write!(text, "{number} ")?,
        None => text.push_str("end ")?,
    }
    push_answer(text, answer)
}

/// Appends the line of an answer.
pub fn push_answer<T: AsChar + Copy, S: PushWords, L: PushWords>(
    text: &mut String,
    answer: &SearchAnswer<T, S, L>,
) -> Result<(), AllocError>
    ensures { OnOk result (string_bytes text.new
        ≡ string_bytes text.old ++ answer_line T.code S.words L.words answer.now) }
{
    match answer {
        SearchAnswer::Call(answer) => push_call(text, answer),
        SearchAnswer::Compared(compared) => push_compared(text, compared),
        SearchAnswer::Hit(hit) => push_hit(text, hit),
    }
}

fn push_call<T: AsChar + Copy, S: PushWords, L: PushWords>(
    text: &mut String,
    answer: &Answer<T, S, L>,
) -> Result<(), AllocError>
    ensures { OnOk result (string_bytes text.new
        ≡ string_bytes text.old ++ line (call_words T.code S.words L.words answer.now)) }
{
    match answer {
        Answer::Token(token) => push_token(text, *token),
        Answer::Slice(slice) => push_words(text, "slice", slice),
        Answer::Offset(width) => writeln!(text, "offset {width}"),
        Answer::At(offset) => push_at(text, *offset),
        Answer::Flag(flag) => writeln!(text, "is {flag}"),
        Answer::First(offset) => push_first(text, *offset),
        Answer::Items(items) => push_words(text, "items", items),
        Answer::Marked(number) => writeln!(text, "mark {number}"),
        Answer::Done => writeln!(text, "done"),
        Answer::BadOffset => writeln!(text, "bad offset"),
        Answer::NoMark => writeln!(text, "no mark"),
        Answer::LaterMark => writeln!(text, "later mark"),
    }
}

fn push_words<W: PushWords>(text: &mut String, name: &str, words: &W) -> Result<(), AllocError>
    ensures { OnOk result (string_bytes text.new
        ≡ string_bytes text.old ++ line (name.now ++ W.words words.now)) }
{
    text.push_str(name)?;
    words.push_words(text)?;
    text.push('\n')
}

fn push_token<T: AsChar>(text: &mut String, token: Option<T>) -> Result<(), AllocError>
    ensures { OnOk result (string_bytes text.new
        ≡ string_bytes text.old ++ line (token_words T.code token)) }
{
    match token {
        Some(token) => {
            let number = token.as_char() as u32;
            writeln!(text, "token {number}")
        }
        None => writeln!(text, "token none"),
    }
}

fn push_at(text: &mut String, offset: Result<usize, Needed>) -> Result<(), AllocError>
    ensures { OnOk result (string_bytes text.new
        ≡ string_bytes text.old ++ line (at_words offset)) }
{
    match offset {
        Ok(offset) => writeln!(text, "at {offset}"),
        Err(Needed::Size(missing)) => writeln!(text, "at needs {missing}"),
        Err(Needed::Unknown) => writeln!(text, "at needs more"),
    }
}

fn push_first(text: &mut String, offset: Option<usize>) -> Result<(), AllocError>
    ensures { OnOk result (string_bytes text.new
        ≡ string_bytes text.old ++ line (offset_words offset)) }
{
    match offset {
        Some(offset) => writeln!(text, "first {offset}"),
        None => writeln!(text, "first none"),
    }
}

fn push_compared(text: &mut String, compared: &CompareResult) -> Result<(), AllocError>
    ensures { OnOk result (string_bytes text.new
        ≡ string_bytes text.old ++ line (compared_words compared.now)) }
{
    match compared {
        CompareResult::Ok(width) => writeln!(text, "compare ok {width}"),
        CompareResult::Incomplete => writeln!(text, "compare incomplete"),
        CompareResult::Error => writeln!(text, "compare error"),
    }
}

fn push_hit(text: &mut String, hit: &Option<Range<usize>>) -> Result<(), AllocError>
    ensures { OnOk result (string_bytes text.new
        ≡ string_bytes text.old ++ line (hit_words hit.now)) }
{
    match hit {
        Some(place) => push_words(text, "find", place),
        None => writeln!(text, "find none"),
    }
}
