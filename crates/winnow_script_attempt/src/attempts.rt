//! `attempt_step`, which attempts a step on kept input and returns an `Attempt`.

ghost use Rattle.std.specs.Prelude.{◌≡◌, ℕ, ◌+◌, ◌≤◌, ◌<◌, ◌^◌, ◌∷◌, ◌++◌, [], List, Option, false};
ghost use Rattle.std.specs.Prelude.{length, vec_len, vec_capacity, IfSome};
ghost use Rattle.winnow_stream.specs.Source.{width};
ghost use Rattle.winnow_script_attempt.specs.Settled.{IsSettled, IsSearched, AreCounted};
ghost use Rattle.winnow_script_run.specs.Definite.{is_definite, is_decided};
ghost use Rattle.winnow_script_attempt.specs.Looks.{piece_reading, look_of, seen_of, under};
ghost use Rattle.winnow_script_attempt.specs.Looks.{Attempts, GrowsByOne};
ghost use Rattle.winnow_script_attempt.specs.declared.told.Told.{Told};
ghost use Rattle.winnow_script_run.specs.Searching.{PlacedSearchAnswer};

use crate::Told;
use crate::calls::{Seen, Settled, Standing, look_call, tell};
use crate::kept::Kept;
use crate::searches::{begun_further, compare_from, find_from, needle_bytes, searched};
use winnow_match::{CompareResult, Finders};
use winnow_script_run::{Need, SearchAnswer, SearchStep};
use winnow_sets::{AsChar, CharSet};
use winnow_stream::{AsBStr, Stream, StreamIsPartial};

/// The outcome of an attempt at a step.
#[derive(Clone, Copy)]
pub enum Attempt {
    /// The step is answered: no further input can change the answer, or none may follow.
    Answered(Seen),
    /// The step waits, and has settled this much.
    Waits(Settled),
}

// Returns whether the comparison is decided, so that more input cannot change it.
fn is_decided_now(compared: &CompareResult) -> bool
    ensures { result ≡ is_decided compared.now }
{
    match compared {
        CompareResult::Incomplete => false,
        _ => true,
    }
}

// Returns what a look gives at a step that moves and marks nothing.
#[inline(always)]
fn seen_at(definite: bool, place: usize) -> Seen
    ensures { result ≡ record { definite = definite; place = place; marks = false } }
{
    Seen {
        definite,
        place,
        marks: false,
    }
}

/// Looks at a step, resuming after what it has settled, and appends its answer with the number of
/// the piece. Returns what it saw, and what a search has settled.
#[inline(always)]
pub(crate) fn look<'k, S: Kept, L: AsBStr>(
    step: &'k SearchStep<CharSet<'k>, L>,
    rest: S,
    here: Standing,
    finders: &mut Option<Finders<'k>>,
    told: &mut Vec<Told<S::Token>>,
) -> (Seen, Settled)
where
    S::Token: AsChar + Drop,
    S::Slice: Drop,
    requires valid { S.valid rest }
    requires room { here.place + width (S.remaining rest) < 2 ^ 64 }
    requires settled { IsSettled
        (piece_reading S.Token.code S.counts_shortage S.write L.text_bytes)
        step.now (S.remaining rest) here.settled }
    requires told_room { vec_len told.old < vec_capacity told.old }
    ensures seen { result.0 ≡ seen_of (look_of
        (piece_reading S.Token.code S.counts_shortage S.write L.text_bytes)
        here.entry.place here.entry.marks.now (S.remaining rest) step.now) }
    ensures searched { IsSearched
        (piece_reading S.Token.code S.counts_shortage S.write L.text_bytes)
        step.now (S.remaining rest) result.1 }
    ensures items { told.new.items ≡ told.old.items ++ under here.entry.piece (look_of
        (piece_reading S.Token.code S.counts_shortage S.write L.text_bytes)
        here.entry.place here.entry.marks.now (S.remaining rest) step.now).answer ∷ [] }
    ensures grows { GrowsByOne told.old told.new }
{
    match step {
        SearchStep::Call(call) => {
            let seen = look_call(call, rest, here, told);
            (seen, here.settled)
        }
        SearchStep::Compare(literal) => {
            let compared = compare_from(literal.as_bstr(), rest.bytes(), here.settled.width);
            let definite = is_decided_now(&compared);
            tell(told, here.piece, SearchAnswer::Compared(compared));
            (seen_at(definite, here.place), here.settled)
        }
        SearchStep::Find(needles) => {
            let needles = needle_bytes(needles);
            let found = find_from(&needles, rest.bytes(), here.settled, finders);
            let (definite, settled) = searched(&needles, rest.bytes(), &found, here.settled);
            tell(told, here.piece, SearchAnswer::Hit(found));
            (seen_at(definite, here.place), settled)
        }
    }
}

// Removes the last answer.
fn take_back<T: Drop>(told: &mut Vec<Told<T>>)
    requires { 0 < vec_len told.old }
    ensures items { (before : List (Told T)) → (piece : Option ℕ) → (answer : PlacedSearchAnswer T)
        → told.old.items ≡ before ++ under piece answer ∷ [] → told.new.items ≡ before }
    ensures capacity { vec_capacity told.new ≡ vec_capacity told.old }
{
    let _last = told.pop();
}

/// Returns the number of tokens that remain.
pub(crate) fn tokens_left<S: Stream + Copy>(rest: S) -> usize
where
    S::Token: Drop,
    requires { S.valid rest }
    ensures { result ≡ length (S.remaining rest) }
{
    let _end = rest.eof_offset();
    let mut later = rest;
    let mut tokens = 0;
    while later.next_token().is_some() {
        tokens += 1;
    }
    tokens
}

// Counts the tokens of all that remains.
fn count_on<S: Kept>(rest: S, asked: usize, settled: Settled) -> Settled
where
    S::Token: Drop,
    S::Slice: Drop,
    requires valid { S.valid rest }
    requires settled { AreCounted asked (S.remaining rest) settled.width settled.tokens }
    requires waits { length (S.remaining rest) ≤ asked }
    ensures { AreCounted asked (S.remaining rest) result.width result.tokens }
{
    let mut later = rest;
    later.next_slice(settled.width);
    Settled {
        width: rest.eof_offset(),
        tokens: settled.tokens + tokens_left(later),
        ..settled
    }
}

/// Returns what a waiting step has settled. For a search that is `searched`.
#[tactic(auto, using(crate::proofs::lemmas::AttemptLemmas::passes))]
pub(crate) fn settle<S: Kept, L: AsBStr>(
    step: &SearchStep<CharSet, L>,
    rest: S,
    searched: Settled,
    settled: Settled,
) -> Settled
where
    S::Token: AsChar + Drop,
    S::Slice: Drop,
    requires valid { S.valid rest }
    requires settled { IsSettled
        (piece_reading S.Token.code S.counts_shortage S.write L.text_bytes)
        step.now (S.remaining rest) settled }
    requires searched { IsSearched
        (piece_reading S.Token.code S.counts_shortage S.write L.text_bytes)
        step.now (S.remaining rest) searched }
    requires waits { is_definite
        (piece_reading S.Token.code S.counts_shortage S.write L.text_bytes)
        step.now (S.remaining rest) ≡ false }
    ensures { IsSettled
        (piece_reading S.Token.code S.counts_shortage S.write L.text_bytes)
        step.now (S.remaining rest) result }
{
    match step {
        SearchStep::Call(call) => match call.need() {
            Need::TokenOf(_) => Settled {
                width: rest.eof_offset(),
                ..settled
            },
            Need::Tokens(asked) => count_on(rest, asked, settled),
            _ => settled,
        },
        SearchStep::Compare(_) => Settled {
            width: rest.bytes().len(),
            ..settled
        },
        SearchStep::Find(_) => searched,
    }
}

// Returns what a step has settled if a look at it is of no use: no input makes the step definite,
// or it searches and the bytes still end inside the needle that it has compared so far.
#[tactic(auto, using(crate::proofs::lemmas::AttemptLemmas::attempted))]
#[inline(always)]
fn waits_on<S: Kept, L: AsBStr>(
    step: &SearchStep<CharSet, L>,
    rest: S,
    settled: Settled,
) -> Option<Settled>
where
    S::Token: AsChar + Drop,
    S::Slice: Drop,
    requires valid { S.valid rest }
    requires settled { IsSettled
        (piece_reading S.Token.code S.counts_shortage S.write L.text_bytes)
        step.now (S.remaining rest) settled }
    ensures { IfSome result (λ more. (is_definite
        (piece_reading S.Token.code S.counts_shortage S.write L.text_bytes)
        step.now (S.remaining rest) ≡ false) × IsSettled
        (piece_reading S.Token.code S.counts_shortage S.write L.text_bytes)
        step.now (S.remaining rest) more) }
{
    match step {
        SearchStep::Call(call) => match call.need() {
            Need::End => Some(settled),
            _ => None,
        },
        SearchStep::Compare(_) => None,
        SearchStep::Find(needles) => {
            begun_further(&needle_bytes(needles), rest.bytes(), settled)
        }
    }
}

/// Attempts a step on `rest`, resuming after what it has settled. If its answer is definite or no
/// more may follow, appends the answer with the number of the piece. In other cases the step waits,
/// and nothing is appended. A search that resumes may replace `finders` by those that it sets up;
/// no answer depends on them.
#[tactic(auto, using(crate::proofs::lemmas::AttemptLemmas::attempted))]
#[inline(always)]
pub fn attempt_step<'k, S: Kept, L: AsBStr>(
    step: &'k SearchStep<CharSet<'k>, L>,
    rest: S,
    here: Standing,
    finders: &mut Option<Finders<'k>>,
    told: &mut Vec<Told<S::Token>>,
) -> Attempt
where
    S::Token: AsChar + Drop,
    S::Slice: Drop,
    requires valid { S.valid rest }
    requires room { here.place + width (S.remaining rest) < 2 ^ 64 }
    requires settled { IsSettled
        (piece_reading S.Token.code S.counts_shortage S.write L.text_bytes)
        step.now (S.remaining rest) here.settled }
    requires told_room { vec_len told.old < vec_capacity told.old }
    ensures attempts { Attempts
        (piece_reading S.Token.code S.counts_shortage S.write L.text_bytes)
        here.entry.place here.entry.marks.now (S.remaining rest) step.now (S.expects_more rest)
        here.entry.piece told.old.items told.new.items result }
    ensures capacity { vec_capacity told.old ≤ vec_capacity told.new }
{
    let partial = rest.is_partial();
    if partial {
        if let Some(settled) = waits_on(step, rest, here.settled) {
            return Attempt::Waits(settled);
        }
    }
    let (seen, searched) = look(step, rest, here, finders, told);
    if seen.definite || !partial {
        Attempt::Answered(seen)
    } else {
        take_back(told);
        Attempt::Waits(settle(step, rest, searched, here.settled))
    }
}
