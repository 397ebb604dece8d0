//! The spelling of a reference to a parser.

use crate::Spells;
use winnow_stream::StreamIsPartial;

impl<I: StreamIsPartial, E, P: Spells<I, E>> Spells<I, E> for &P {
    ghost spells = { λ p. P.spells p.now };

    ghost spelled = { λ p. P.spelled p.now };
}
