//! `Finished`, all answers of a script after the end of its input.

ghost use Rattle.std.specs.Prelude.{◌≡◌};
ghost use Rattle.winnow_script_feed.specs.Feeding.{answers_in, place_in};

use crate::Told;

/// All answers of a script over pieces, and the place where the script left the cursor.
#[derive(Debug, Drop)]
pub struct Finished<T> {
    pub(crate) told: Vec<Told<T>>,
    pub(crate) place: usize,
}

impl<T> Finished<T> {
    /// Returns the answers: first those that were given out before the end, then those that only
    /// the end gave out, which have no number of a piece.
    pub fn answers(&self) -> &[Told<T>]
        ensures { result.now ≡ answers_in self.now }
    {
        &self.told
    }

    /// Returns the final place in the joined input.
    pub fn cursor(&self) -> usize
        ensures { result ≡ place_in self.now }
    {
        self.place
    }
}
