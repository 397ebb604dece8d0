//! `look_call`, which looks at a call on kept input, with `Seen`, `Settled` and `Standing`.

ghost use Rattle.std.specs.Prelude.{◌≡◌, ◌+◌, ◌<◌, ◌^◌, ◌≤◌, ◌∷◌, ◌++◌, [], false, slice_get};
ghost use Rattle.std.specs.Prelude.{IsTrue, vec_len, vec_capacity, cond, nat_le, is_some};
ghost use Rattle.std.specs.Prelude.{true, unwrap_or};
ghost use Rattle.winnow_stream.specs.Source.{width, first_offset, first_token};
ghost use Rattle.winnow_stream.specs.Front.{is_offset, front_count};
ghost use Rattle.winnow_stream.specs.Shortage.{offset_at};
ghost use Rattle.winnow_script_attempt.specs.Settled.{NoneInSet, AreCounted, IsCallSettled};
ghost use Rattle.winnow_script_attempt.specs.Settled.{nothing_settled};
ghost use Rattle.winnow_script_attempt.specs.Looks.{in_set, first_width, GrowsByOne, call_look};
ghost use Rattle.winnow_script_attempt.specs.Looks.{seen_of, under, placed_since};
ghost use Rattle.winnow_script_run.specs.Script.{slice_answer, reset_answer};
ghost use Rattle.winnow_script_run.specs.declared.script.Answer.TheVariants.{Token, Marked};
ghost use Rattle.winnow_script_run.specs.declared.search_steps.SearchAnswer.TheVariants as
    search_answered;

use crate::Told;
use crate::kept::Kept;
use std::ops::Range;
use winnow_script_run::{Answer, PieceAnswer, SearchAnswer, Step};
use winnow_sets::{AsChar, CharSet};
use winnow_stream::{Needed, ScriptSet, Stream};

/// What a look at a step gives beside its answer: whether the answer is definite, the place to
/// which the step leads, and whether the step marks the place where it stood.
#[derive(Clone, Copy)]
pub struct Seen {
    pub definite: bool,
    pub place: usize,
    pub marks: bool,
}

// Returns the offset of the first token in the set.
fn first_in<S: Stream>(set: &CharSet, rest: &S) -> Option<usize>
where
    S::Token: AsChar,
    requires { S.valid rest.now }
    ensures { result ≡ first_offset (in_set S.Token.code set.now) (S.remaining rest.now) }
{
    rest.offset_for(|token| set.holds(token))
}

// Returns the offset of the first token in the set, where no token of the set is before `settled`.
pub(crate) fn first_from<S: Kept>(set: &CharSet, rest: S, settled: usize) -> Option<usize>
where
    S::Token: AsChar,
    S::Slice: Drop,
    requires valid { S.valid rest }
    requires settled { NoneInSet (in_set S.Token.code set.now) (S.remaining rest) settled }
    ensures { result ≡ first_offset (in_set S.Token.code set.now) (S.remaining rest) }
{
    let _end = rest.eof_offset();
    let mut later = rest;
    later.next_slice(settled);
    match first_in(set, &later) {
        Some(offset) => Some(settled + offset),
        None => None,
    }
}

// Returns the offset after `asked` tokens, of which `counted` stand before `settled`.
pub(crate) fn offset_from<S: Kept>(
    rest: S,
    asked: usize,
    settled: usize,
    counted: usize,
) -> Result<usize, Needed>
where
    S::Slice: Drop,
    requires valid { S.valid rest }
    requires settled { AreCounted asked (S.remaining rest) settled counted }
    ensures { result ≡ offset_at S.counts_shortage (S.remaining rest) asked }
{
    let _end = rest.eof_offset();
    let mut later = rest;
    later.next_slice(settled);
    match later.offset_at(asked - counted) {
        Ok(offset) => Ok(settled + offset),
        Err(needed) => Err(needed),
    }
}

/// What a waiting step has settled.
#[derive(Clone, Copy)]
pub struct Settled {
    /// The width of the front that need not be looked at again. For a search, the first place at
    /// which a needle can come to stand.
    pub width: usize,
    /// The number of tokens in that front, if the step counts them
    pub tokens: usize,
    /// For a search, the number of the first needle listed that can stand at that place
    pub needle: usize,
    /// For a search, the number of bytes at that place that are known to be those of the needle
    pub compared: usize,
}

impl Settled {
    /// Returns what a step has settled before it is attempted.
    pub fn nothing() -> Settled
        ensures { result ≡ nothing_settled }
    {
        Settled {
            width: 0,
            tokens: 0,
            needle: 0,
            compared: 0,
        }
    }
}

/// Where a run stands when it attempts a step: the place of its cursor, the places of its marks,
/// what the step has settled, and the number under which an answer is given out.
#[derive(Clone, Copy)]
pub struct Standing<'m> {
    pub place: usize,
    pub marks: &'m [usize],
    pub settled: Settled,
    pub piece: Option<u64>,
}

/// Appends an answer to the others. There is room for it.
#[inline(always)]
pub(crate) fn tell<T: Drop>(told: &mut Vec<Told<T>>, piece: Option<u64>, answer: PieceAnswer<T>)
    requires { vec_len told.old < vec_capacity told.old }
    ensures items { told.new.items ≡ told.old.items ++ under piece answer ∷ [] }
    ensures grows { GrowsByOne told.old told.new }
{
    let more = Told { piece, answer };
    match told.push(more) {
        Ok(()) => {}
        Err(_) => unreachable!(),
    }
}

// Appends the answer of a call that makes no mark, and returns what was seen.
#[inline(always)]
fn shown<T: Drop>(
    told: &mut Vec<Told<T>>,
    piece: Option<u64>,
    answer: Answer<T, Range<usize>, Range<usize>>,
    definite: bool,
    place: usize,
) -> Seen
    requires { vec_len told.old < vec_capacity told.old }
    ensures seen { result ≡ record { definite = definite; place = place; marks = false } }
    ensures items { told.new.items ≡ told.old.items ++ under piece (search_answered.Call answer)
        ∷ [] }
    ensures grows { GrowsByOne told.old told.new }
{
    tell(told, piece, SearchAnswer::Call(answer));
    Seen {
        definite,
        place,
        marks: false,
    }
}

// Returns the width of the first token, or 0 if there is none.
fn width_of_first<S: Stream + Copy>(rest: S) -> usize
where
    S::Token: Drop,
    requires { S.valid rest }
    ensures { result ≡ first_width (S.remaining rest) }
{
    let mut later = rest;
    let _token = later.next_token();
    rest.eof_offset() - later.eof_offset()
}

// Returns the place of the mark with that number, counted from 0, if it was made.
#[tactic(auto, using(crate::proofs::lemmas::LookLemmas::marks_read))]
fn mark_at(marks: &[usize], number: usize) -> Option<usize>
    ensures { result ≡ slice_get marks.now number }
{
    if number < marks.len() {
        Some(marks[number])
    } else {
        None
    }
}

// Returns whether the offset is valid.
#[tactic(auto, using(crate::proofs::lemmas::LookLemmas::looks))]
fn has_offset<S: Stream>(rest: &S, offset: usize) -> bool
    requires { S.valid rest.now }
    ensures value { result ≡ is_offset (S.remaining rest.now) offset }
    ensures fits { IsTrue result → offset ≤ width (S.remaining rest.now) }
{
    rest.is_offset(offset)
}

// Appends the first token, if there is one, for a call that leads to the place.
#[inline(always)]
fn show_token<S: Kept>(
    told: &mut Vec<Told<S::Token>>,
    piece: Option<u64>,
    rest: S,
    next: usize,
) -> Seen
where
    S::Token: Drop,
    requires valid { S.valid rest }
    requires told_room { vec_len told.old < vec_capacity told.old }
    ensures seen { result ≡ record {
      definite = is_some (first_token (S.remaining rest));
      place = next;
      marks = false;
    } }
    ensures items { told.new.items ≡ told.old.items ++ under piece
        (search_answered.Call (Token (first_token (S.remaining rest)))) ∷ [] }
    ensures grows { GrowsByOne told.old told.new }
{
    let token = rest.peek_token();
    let definite = token.is_some();
    shown(told, piece, Answer::Token(token), definite, next)
}

// Appends the slice of that width, for a call that moves past it or stays, or that the offset is
// not valid.
#[tactic(auto, using(crate::proofs::lemmas::LookLemmas::looks))]
#[inline(always)]
fn show_slice<S: Kept>(
    told: &mut Vec<Told<S::Token>>,
    piece: Option<u64>,
    rest: S,
    place: usize,
    n: usize,
    moves: bool,
) -> Seen
where
    S::Token: Drop,
    requires valid { S.valid rest }
    requires room { place + width (S.remaining rest) < 2 ^ 64 }
    requires told_room { vec_len told.old < vec_capacity told.old }
    ensures seen { result ≡ record {
      definite = nat_le n (width (S.remaining rest));
      place = cond moves (cond (is_offset (S.remaining rest) n) (place + n) place) place;
      marks = false;
    } }
    ensures items { told.new.items ≡ told.old.items ++ under piece
        (search_answered.Call (slice_answer place n (front_count (S.remaining rest) n))) ∷ [] }
    ensures grows { GrowsByOne told.old told.new }
{
    let left = rest.eof_offset();
    if !has_offset(&rest, n) {
        shown(told, piece, Answer::BadOffset, n <= left, place)
    } else if moves {
        let end = place + n;
        shown(told, piece, Answer::Slice(place..end), n <= left, end)
    } else {
        let end = place + n;
        shown(told, piece, Answer::Slice(place..end), n <= left, place)
    }
}

// Appends the number of a mark, which the call makes at the place.
#[inline(always)]
fn show_mark<T: Drop>(
    told: &mut Vec<Told<T>>,
    piece: Option<u64>,
    place: usize,
    number: usize,
) -> Seen
    requires { vec_len told.old < vec_capacity told.old }
    ensures seen { result ≡ record { definite = true; place = place; marks = true } }
    ensures items { told.new.items ≡ told.old.items ++ under piece
        (search_answered.Call (Marked number)) ∷ [] }
    ensures grows { GrowsByOne told.old told.new }
{
    tell(told, piece, SearchAnswer::Call(Answer::Marked(number)));
    Seen {
        definite: true,
        place,
        marks: true,
    }
}

// Appends whether there is a mark to go back to, and goes there.
#[inline(always)]
fn show_reset<T: Drop>(
    told: &mut Vec<Told<T>>,
    piece: Option<u64>,
    place: usize,
    mark: Option<usize>,
) -> Seen
    requires { vec_len told.old < vec_capacity told.old }
    ensures seen { result ≡ record {
      definite = true;
      place = unwrap_or mark place;
      marks = false;
    } }
    ensures items { told.new.items ≡ told.old.items ++ under piece
        (search_answered.Call (reset_answer mark)) ∷ [] }
    ensures grows { GrowsByOne told.old told.new }
{
    match mark {
        Some(mark) => shown(told, piece, Answer::Done, true, mark),
        None => shown(told, piece, Answer::NoMark, true, place),
    }
}

// Appends the offset of the place from a mark, if there is one and it is not after the place.
#[inline(always)]
fn show_since<T: Drop>(
    told: &mut Vec<Told<T>>,
    piece: Option<u64>,
    place: usize,
    mark: Option<usize>,
) -> Seen
    requires { vec_len told.old < vec_capacity told.old }
    ensures seen { result ≡ record { definite = true; place = place; marks = false } }
    ensures items { told.new.items ≡ told.old.items ++ under piece
        (search_answered.Call (placed_since place mark)) ∷ [] }
    ensures grows { GrowsByOne told.old told.new }
{
    match mark {
        Some(mark) => {
            if mark <= place {
                shown(told, piece, Answer::Offset(place - mark), true, place)
            } else {
                shown(told, piece, Answer::LaterMark, true, place)
            }
        }
        None => shown(told, piece, Answer::NoMark, true, place),
    }
}

/// Looks at a call, resuming after what it has settled, and appends its answer with the number of
/// the piece.
// Inlined into the loop over the steps, and each case appends its own answer: each returned value
// would be copied through memory.
#[tactic(auto, using(crate::proofs::lemmas::LookLemmas::looks))]
#[inline(always)]
pub(crate) fn look_call<S: Kept>(
    call: &Step<CharSet>,
    rest: S,
    here: Standing,
    told: &mut Vec<Told<S::Token>>,
) -> Seen
where
    S::Token: AsChar + Drop,
    S::Slice: Drop,
    requires valid { S.valid rest }
    requires room { here.place + width (S.remaining rest) < 2 ^ 64 }
    requires settled { IsCallSettled (in_set S.Token.code) call.now (S.remaining rest)
        here.settled.width here.settled.tokens }
    requires told_room { vec_len told.old < vec_capacity told.old }
    ensures seen { result ≡ seen_of (call_look (in_set S.Token.code) S.counts_shortage
        here.entry.place here.entry.marks.now (S.remaining rest) call.now) }
    ensures items { told.new.items ≡ told.old.items ++ under here.entry.piece (call_look
        (in_set S.Token.code) S.counts_shortage
        here.entry.place here.entry.marks.now (S.remaining rest) call.now).answer ∷ [] }
    ensures grows { GrowsByOne told.old told.new }
{
    let Standing {
        place,
        marks,
        settled,
        piece,
    } = here;
    let left = rest.eof_offset();
    let end = place + left;
    match call {
        Step::Next => show_token(told, piece, rest, place + width_of_first(rest)),
        Step::Peek => show_token(told, piece, rest, place),
        Step::Take(n) => show_slice(told, piece, rest, place, *n, true),
        Step::Look(n) => show_slice(told, piece, rest, place, *n, false),
        Step::Finish => shown(told, piece, Answer::Slice(place..end), false, end),
        Step::PeekFinish => shown(told, piece, Answer::Slice(place..end), false, place),
        Step::Eof => shown(told, piece, Answer::Offset(left), false, place),
        Step::At(n) => {
            let found = offset_from(rest, *n, settled.width, settled.tokens);
            let definite = found.is_ok();
            shown(told, piece, Answer::At(found), definite, place)
        }
        Step::IsOffset(n) => {
            let is_valid = has_offset(&rest, *n);
            shown(told, piece, Answer::Flag(is_valid), *n <= left, place)
        }
        Step::First(set) => {
            let found = first_from(set, rest, settled.width);
            shown(told, piece, Answer::First(found), found.is_some(), place)
        }
        Step::Each => shown(told, piece, Answer::Items(place..end), false, place),
        Step::Mark => show_mark(told, piece, place, marks.len()),
        Step::Reset(k) => show_reset(told, piece, place, mark_at(marks, *k)),
        Step::Since(k) => show_since(told, piece, place, mark_at(marks, *k)),
    }
}
