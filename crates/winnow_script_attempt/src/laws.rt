//! The law of equality of `Told` answers.

ghost use Rattle.std.specs.Prelude.{◌≡◌, ◌&&◌};
ghost use Rattle.winnow_script_attempt.specs.declared.told.Told.{Told};

use crate::Told;
use winnow_script_run::PieceAnswer;

/// The law of equality: two values of [`Told`] are equal exactly if the numbers of their pieces are
/// equal and their answers are equal. A law does nothing when called: its contract is the law.
pub fn told_equality_law<T: PartialEq>()
    ensures { (s t : Told T) → ⟦<Told<T> as PartialEq>⟧.eq s t
        ≡ (⟦<Option<u64> as PartialEq>⟧.eq s.piece t.piece
        && ⟦<PieceAnswer<T> as PartialEq>⟧.eq s.answer t.answer) }
{}
