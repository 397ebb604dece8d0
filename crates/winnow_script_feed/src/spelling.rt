//! `is_spelt`, a law: the literals and sets of a step over text hold text.

ghost use Rattle.std.specs.Prelude.{◌≡◌, true, IfSome};
ghost use Rattle.std.specs.List.{AllByRecursion};
ghost use Rattle.std.specs.Str.{is_utf8};
ghost use Rattle.winnow_match.specs.Search.{bytes_of_needles};
ghost use Rattle.winnow_sets.specs.Sets.{char_ranges, least_of_first};
ghost use Rattle.winnow_script_feed.specs.Inputs.{text_input};
ghost use Rattle.winnow_script_feed.specs.Waits.{IsSpelt};

use winnow_match::Needles;
use winnow_script_run::{Need, SearchStep};
use winnow_sets::CharSet;

// States that a text is UTF-8.
fn is_text(text: &str)
    ensures { is_utf8 text.now ≡ true }
{}

// States that each needle is UTF-8.
fn are_needles(needles: &Needles<&str>)
    ensures { AllByRecursion (λ needle. is_utf8 needle ≡ true) (bytes_of_needles needles.now) }
{
    match needles {
        Needles::One(a) => is_text(a),
        Needles::Two(a, b) => {
            is_text(a);
            is_text(b);
        }
        Needles::Three(a, b, c) => {
            is_text(a);
            is_text(b);
            is_text(c);
        }
    }
}

// States that a character is a token of text.
fn is_character(c: char)
    ensures { text_input.is_token c ≡ true }
{}

// States that the character with which the first range of the set begins, if there is one, is a
// token of text.
fn begins_with_one(set: &CharSet)
    ensures { IfSome (least_of_first text_input.greatest (char_ranges set.now))
        (λ c. text_input.is_token c ≡ true) }
{
    if let Some(c) = set.any_char() {
        is_character(c);
    }
}

/// States that the literals and sets of a step over text hold text. The call changes nothing: its
/// contract is what the types say.
pub(crate) fn is_spelt(step: &SearchStep<CharSet, &str>)
    ensures { IsSpelt text_input step.now }
{
    match step {
        SearchStep::Call(call) => match call.need() {
            Need::TokenOf(set) => begins_with_one(&set),
            _ => {}
        },
        SearchStep::Compare(literal) => is_text(literal),
        SearchStep::Find(needles) => are_needles(needles),
    }
}
