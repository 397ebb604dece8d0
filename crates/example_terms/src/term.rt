//! The format of a term: a value that holds values of its own type.

ghost use Rattle.std.specs.Prelude.{◌≡◌, IfOk, length};
ghost use Rattle.example_terms.specs.Layers.{head_of, held, count_after, CountsAlike-Heads};

use std::alloc::{AllocError, Global};
use winnow_codec::{
    At, Be, BytesAfter, Choice, Count, LastAt, OneByte, Tagged, Unwritten, be_i32, be_u32, by_tag,
    byte, bytes_after, count_of, u8, write_first, write_last_of_four, write_second, write_third,
};
use winnow_codec_nested::{InLayers, Layered, nested};

/// A term.
#[derive(Debug, Drop)]
pub enum Term {
    /// An integer of one byte
    Small(u8),
    /// An integer of four bytes
    Integer(i32),
    /// At most 255 terms
    Tuple(Vec<Term>),
    /// Bytes
    Binary(Vec<u8>),
}

/// The format of the bytes of a binary, after their number.
pub type HeldBytes = BytesAfter<Be<Count<u32>>>;

/// The format of what comes before the terms inside: a tag, and a number, how many terms follow, or
/// bytes.
pub type Heads = Tagged<
    OneByte,
    At<97, Be<u8>, At<98, Be<i32>, At<104, Be<Count<u8>>, LastAt<109, HeldBytes>>>>,
>;

/// How a term holds terms.
#[derive(Clone, Copy, Drop)]
pub struct TermLayers;

impl Layered for TermLayers {
    type Value = Term;

    type Heads = Heads;

    ghost head_of = { head_of };

    ghost held = { held };

    ghost count_after = { count_after };

    ghost counts_alike = { CountsAlike-Heads };

    fn write_head(
        &self,
        heads: &Heads,
        value: &Term,
        bytes: &mut Vec<u8>,
    ) -> Result<(), Unwritten> {
        match value {
            Term::Small(number) => write_first(heads, number, bytes),
            Term::Integer(number) => write_second(heads, number, bytes),
            Term::Tuple(terms) => write_third(heads, &terms.len(), bytes),
            Term::Binary(held) => write_last_of_four(heads, held, bytes),
        }
    }

    fn count_said(&self, value: &Term) -> u128 {
        self.count(value) as u128
    }

    fn count_after(&self, head: &Choice<u8, Choice<i32, Choice<usize, Vec<u8>>>>) -> u128 {
        match head {
            Choice::Other(Choice::Other(Choice::First(count))) => *count as u128,
            _ => 0,
        }
    }

    fn count(&self, value: &Term) -> usize {
        match value {
            Term::Tuple(terms) => terms.len(),
            _ => 0,
        }
    }

    fn inner<'v>(&self, value: &'v Term, index: usize) -> &'v Term {
        match value {
            Term::Tuple(terms) => &terms[index],
            _ => value,
        }
    }

    fn join(
        &self,
        _alloc: Global,
        head: Choice<u8, Choice<i32, Choice<usize, Vec<u8>>>>,
        inners: Vec<Term>,
    ) -> Result<Term, AllocError>
        requires { length inners.items ≡ count_after head }
        ensures head { IfOk result (λ term. head_of term ≡ head) }
        ensures held { IfOk result (λ term. held term ≡ inners.items) }
    {
        match head {
            Choice::First(number) => Ok(Term::Small(number)),
            Choice::Other(Choice::First(number)) => Ok(Term::Integer(number)),
            Choice::Other(Choice::Other(Choice::First(_))) => Ok(Term::Tuple(inners)),
            Choice::Other(Choice::Other(Choice::Other(held))) => Ok(Term::Binary(held)),
        }
    }
}

/// Returns the format of a term in at most this many layers: 1 allows those that hold no others.
pub fn terms(depth: usize) -> InLayers<TermLayers, Heads>
    ensures { result.depth ≡ depth }
{
    let binary = bytes_after(count_of(be_u32()));
    let heads = by_tag(
        byte(),
        At(u8(), At(be_i32(), At(count_of(u8()), LastAt(binary)))),
    );
    nested(TermLayers, heads, depth)
}
