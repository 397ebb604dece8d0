//! `TextFeed`, which runs a script over text in pieces.

use crate::buffers::forget_text;
use crate::missing::next_missing;
use crate::named_marks::NamedMarks;
use crate::progress::{Progress, advance};
use crate::reach::take_in;
use crate::spelling::is_spelt;
use crate::{Finished, Told, Waiting};
use std::alloc::{AllocError, Global};
use std::marker::Model;
use winnow_match::Finders;
use winnow_script_attempt::Settled;
use winnow_script_run::SearchStep;
use winnow_sets::CharSet;
use winnow_stream::StreamIsPartial;
use winnow_wrap::Partial;

/// A script over text that arrives in pieces.
///
/// However the input is cut, the answers are those of the script on the joined pieces. After each
/// piece, the feed has given out the longest front of answers that are all definite: no further
/// input changes these. It keeps only those bytes of the input that a step without an answer can
/// reach.
#[derive(Drop)]
pub struct TextFeed<'k> {
    run: Progress<'k, char, &'k str>,
    kept: String,
    // The marks that steps without an answer name.
    named: NamedMarks,
    // The searches that were last set up by a step that waited for a distant hit.
    finders: Option<Finders<'k>>,
}

impl<'k> Model for TextFeed<'k> {
    ghost use Rattle.std.specs.String.{string_bytes};
    ghost use Rattle.winnow_script_feed.specs.Feeding.{FeedState, IsSound};
    ghost use Rattle.winnow_script_feed.specs.Inputs.{text_input};

    ghost Value = { FeedState };

    ghost view = { λ f. record { run = f.run; kept = string_bytes f.kept } };

    ghost invariant = { λ f. IsSound text_input
        (record { run = f.run; kept = string_bytes f.kept }) f.named };
}

impl<'k> TextFeed<'k> {
    ghost use Rattle.std.specs.Prelude.{◌≡◌, ℕ, ◌+◌, ◌<◌, ◌^◌, [], List, length};
    ghost use Rattle.std.specs.Prelude.{IfOk, IsOk, OnOk, OnErr};
    ghost use Rattle.winnow_script_feed.specs.Inputs.{text_input, joined};
    ghost use Rattle.winnow_script_feed.specs.ToldAnswers.{told_of, tried_of};
    ghost use Rattle.winnow_script_feed.specs.Feeding.{Fits, FitsWith, LetsOut, IsAnswered};
    ghost use Rattle.winnow_script_feed.specs.Feeding.{Finishes};
    ghost use Rattle.winnow_script_feed.specs.Feeding.{held_after, bytes_fed, script_of};
    ghost use Rattle.std.specs.String.{string_bytes};
    ghost use Rattle.winnow_script_feed.specs.Waits.{GivesWaiting, WantsMore};

    /// Returns a feed that was fed nothing. It has room for each answer and mark, so that `feed`
    /// takes memory only for bytes; no clause says so.
    pub fn new(
        alloc: Global,
        script: &'k [SearchStep<CharSet<'k>, &'k str>],
    ) -> Result<Self, AllocError>
        ensures fits { IfOk result (λ feed. Fits text_input feed []) }
        ensures script { IfOk result (λ feed. script_of feed ≡ script.entry.now) }
        ensures none { IfOk result (λ feed. bytes_fed feed ≡ 0) }
    {
        let told = Vec::with_capacity(alloc, script.len())?;
        let marks = Vec::with_capacity(alloc, script.len())?;
        let named = NamedMarks::new(alloc, script)?;
        Ok(TextFeed {
            run: Progress {
                script,
                told,
                place: 0,
                marks,
                settled: Settled::nothing(),
                base: 0,
                pieces: 0,
                tried: 0,
            },
            kept: String::new(alloc),
            named,
            finders: None,
        })
    }

    /// Returns the length of the joined input so far.
    pub fn fed(&self) -> usize
        ensures fed { (pieces : List (List ℕ)) → Fits text_input self.now pieces
            → result ≡ length (joined pieces) }
        ensures stored { result ≡ bytes_fed self.now }
    {
        self.run.base + self.kept.len()
    }

    /// Returns the number of bytes that are kept.
    pub fn held(&self) -> usize
        ensures { (pieces : List (List ℕ)) → Fits text_input self.now pieces
            → result ≡ held_after text_input (script_of self.now) pieces }
    {
        self.kept.len()
    }

    /// Returns the number of attempts at steps, up to the greatest `u64`.
    pub fn tried(&self) -> u64
        ensures { (pieces : List (List ℕ)) → Fits text_input self.now pieces
            → result ≡ tried_of text_input (script_of self.now) pieces }
    {
        self.run.tried
    }

    /// Returns the answers so far, each with the number of the piece that made it definite.
    pub fn answers(&self) -> &[Told<char>]
        ensures { (pieces : List (List ℕ)) → Fits text_input self.now pieces
            → result.now ≡ told_of text_input (script_of self.now) pieces }
    {
        &self.run.told
    }

    /// Takes a piece, and returns the number of new answers. If memory is refused, nothing changes,
    /// and the same piece may be fed again.
    pub fn feed(&mut self, piece: &str) -> Result<usize, AllocError>
        requires { bytes_fed self.old + length piece.now < 2 ^ 64 }
        ensures fits { OnOk result (FitsWith text_input self.old piece.now self.new) }
        ensures came { IfOk result (LetsOut text_input self.old piece.now) }
        ensures script { script_of self.new ≡ script_of self.old }
        ensures grows { OnOk result (bytes_fed self.new ≡ bytes_fed self.old + length piece.now) }
        ensures refused { OnErr result (self.new ≡ self.old) }
        ensures empty { piece.now ≡ [] → IsOk result }
        ensures answered { IsAnswered text_input self.old → IsOk result }
    {
        let before = self.run.told.len();
        if self.run.script.len() <= before {
            self.run.pieces = self.run.pieces.saturating_add(1);
            self.run.base += piece.len();
            return Ok(0);
        }
        self.kept.push_str(piece)?;
        let unneeded = take_in(
            &mut self.run,
            &mut self.finders,
            &mut self.named,
            Partial::new(self.kept.as_str()),
        );
        forget_text(&mut self.kept, unneeded);
        Ok(self.run.told.len() - before)
    }

    /// Returns what the feed waits for: input that, appended to what was fed, changes the waiting
    /// step's answer, or `ToEnd` if no input does. Only that input takes memory.
    pub fn waits_for(&self) -> Result<Waiting<String>, AllocError>
        ensures waits { IfOk result (GivesWaiting text_input string_bytes self.now) }
        ensures refused { OnErr result (WantsMore text_input self.now) }
    {
        if self.run.pieces == 0 {
            return Ok(Waiting::NotFed);
        }
        if self.run.script.len() <= self.run.told.len() {
            return Ok(Waiting::NotWaiting);
        }
        let script = self.run.script;
        let step = &script[self.run.told.len()];
        is_spelt(step);
        let kept = Partial::new(self.kept.as_str());
        match next_missing(*self.kept.allocator(), &self.run, kept)? {
            Some(more) => match String::from_utf8(more) {
                Ok(more) => Ok(Waiting::Until(more)),
                Err(_) => unreachable!(),
            },
            None => Ok(Waiting::ToEnd),
        }
    }

    /// Ends the input, and returns all answers. The call takes no memory.
    pub fn end(self) -> Finished<char>
        ensures { (pieces : List (List ℕ)) → Fits text_input self.entry pieces
            → Finishes text_input (script_of self.entry) pieces result }
    {
        let TextFeed {
            mut run,
            kept,
            mut finders,
            ..
        } = self;
        let mut rest = Partial::new(kept.as_str());
        rest.complete();
        advance(&mut run, &mut finders, rest, None);
        // A call drops them, so that no proof here has to follow how each is dropped.
        drop(finders);
        let Progress { told, place, .. } = run;
        Finished { told, place }
    }
}
