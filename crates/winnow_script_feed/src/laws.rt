//! Laws of a feed's answers, of one search, of joined pieces and of equal `Waiting` values.

ghost use Rattle.std.specs.Prelude.{◌≡◌, ℕ, ◌+◌, ◌<◌, [], ◌∷◌, ◌++◌, List, length, take, get_or};
ghost use Rattle.std.specs.Prelude.{map, true};
ghost use Rattle.std.specs.List.{AllByRecursion};
ghost use Rattle.std.specs.Borrow.{Bor};
ghost use Rattle.std.specs.Str.{is_utf8};
ghost use Rattle.winnow_script_feed.specs.Inputs.{InputRules, PieceStep, byte_input, text_input};
ghost use Rattle.winnow_script_feed.specs.Inputs.{joined, pieces_in};
ghost use Rattle.winnow_script_feed.specs.ToldAnswers.{TellsHit, TellsMore, all_answers};
ghost use Rattle.winnow_script_feed.specs.ToldAnswers.{told_to_end};
ghost use Rattle.winnow_script_feed.specs.SameWaiting.{same_waiting};
ghost use Rattle.winnow_script_feed.specs.declared.waiting.Waiting.{Waiting};

use crate::Waiting;

/// The law of a feed's answers: one more piece takes no answer back, and appends its answers with
/// the number of that piece. At the end, the answers are those of the script on the joined pieces.
/// So a reader of input that arrives in pieces may act on an answer at once. A law does nothing
/// when called: its contract is the law.
pub fn told_law()
    ensures bytes { (script : List PieceStep) (pieces : List (List ℕ)) (piece : List ℕ)
        → TellsMore byte_input script pieces piece }
    ensures text { (script : List PieceStep) (pieces : List (List ℕ)) (piece : List ℕ)
        → AllByRecursion (λ bytes. is_utf8 bytes ≡ true) pieces
        → TellsMore text_input script pieces piece }
    ensures all { (input : InputRules) (script : List PieceStep) (pieces : List (List ℕ))
        → map (λ t. t.answer) (told_to_end input script pieces) ≡ all_answers input script pieces }
{}

/// The law of one search: the first answer of a script that searches for one literal is the
/// literal's hit in the joined pieces, as soon as there is one, and there is no answer before. An
/// empty literal occurs at once, so its hit is an answer after the first piece.
pub fn one_search_law()
    ensures bytes { (literal : Bor (List ℕ)) (pieces : List (List ℕ))
        → (literal.now ≡ [] → 0 < length pieces) → TellsHit byte_input literal pieces }
    ensures text { (literal : Bor (List ℕ)) (pieces : List (List ℕ))
        → AllByRecursion (λ bytes. is_utf8 bytes ≡ true) pieces
        → (literal.now ≡ [] → 0 < length pieces) → TellsHit text_input literal pieces }
{}

/// The law of joined pieces: one more piece is appended to what the pieces are joined.
pub fn pieces_law()
    ensures joined { (pieces : List (List ℕ)) (piece : List ℕ)
        → joined (pieces ++ piece ∷ []) ≡ joined pieces ++ piece }
    ensures taken { (pieces : List (Bor (List ℕ))) (i : ℕ) (other : Bor (List ℕ))
        → i < length pieces
        → pieces_in (take (i + 1) pieces)
        ≡ pieces_in (take i pieces) ++ (get_or pieces i other).now ∷ [] }
{}

/// The law of equality: two values of [`Waiting`] are equal exactly if they are of one kind and
/// what they wait for is equal.
pub fn waiting_equality_law<P: PartialEq>()
    ensures { (s t : Waiting P) → ⟦<Waiting<P> as PartialEq>⟧.eq s t ≡ same_waiting P.eq s t }
{}
