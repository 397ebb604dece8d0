//! The laws of replies: how they are spelled, and why one is malformed.

ghost use Rattle.std.specs.Prelude.{◌≡◌, ◌≢◌, ℕ, true, List, ◌++◌, Result, Err};
ghost use Rattle.winnow_stream.specs.Source.{Source};
ghost use Rattle.format_resp.specs.Language.{Spells};
ghost use Rattle.format_resp.specs.Writing.{is_writable, written, TellsLineEnd, IsWithin};
ghost use Rattle.format_resp.specs.Ahead.{IsAhead};
ghost use Rattle.format_resp.specs.Answers.{StandsAhead};
ghost use Rattle.format_resp.specs.Causes.{IsDamaged};
ghost use Rattle.format_resp.specs.declared.causes.Cause.{Cause};
ghost use Rattle.format_resp.specs.declared.causes.Cause.TheVariants.{EndsInside};
ghost use Rattle.format_resp.specs.declared.reply.Reply.{Reply};
ghost use Rattle.format_resp.specs.declared.writing.Unwritten.{Unwritten};
ghost use Rattle.format_resp.specs.declared.writing.Unwritten.TheVariants.{LineEnd};

/// The law of spelling: the bytes that are written of a reply within limits spell it, no others do,
/// and an input that starts with them starts with the reply, whatever follows. And
/// [`write_reply`](crate::write_reply) refuses a reply that some bytes spell only when memory is
/// refused. A law does nothing when called: its contract is the law.
pub fn spelling_law()
    ensures spelled { (longest depth : ℕ) (reply : Reply) → IsWithin longest depth reply
        → Spells longest depth reply (written reply) }
    ensures once { (longest depth : ℕ) (reply : Reply) (bytes : List ℕ)
        → Spells longest depth reply bytes → bytes ≡ written reply }
    ensures writable { (longest depth : ℕ) (reply : Reply) (bytes : List ℕ)
        → Spells longest depth reply bytes → is_writable reply ≡ true }
    ensures never_refused { (longest depth : ℕ) (reply : Reply) (bytes : List ℕ)
        (result : Result (Unit {0}) Unwritten) → Spells longest depth reply bytes
        → TellsLineEnd reply result → result ≢ Err LineEnd }
    ensures read_back { (longest depth : ℕ) (reply : Reply) (whole rest : Source ℕ)
        → IsWithin longest depth reply → IsAhead whole (written reply) rest
        → StandsAhead longest depth whole reply rest }
{}

/// The law of causes: no matter what follows, a reply that breaks off at a place does so for one
/// cause there, unless it is that the input ends. It does nothing when called.
pub fn cause_law()
    ensures { (longest depth : ℕ) (whole rest more : Source ℕ) (cause later : Cause)
        → cause ≢ EndsInside → IsDamaged longest depth cause whole rest
        → IsDamaged longest depth later (whole ++ more) (rest ++ more) → later ≡ cause }
{}
