//! A choice of formats by a tag: `by_tag`.

ghost use Rattle.std.specs.Prelude.{◌≡◌, List, ℕ};
ghost use Rattle.winnow_parser.specs.Answer.{ahead, outcome};
ghost use Rattle.winnow_codec.specs.Formats.{Reads};
ghost use Rattle.winnow_codec.specs.Cases.{AreCases, SpellsLast, only_tag, AreCases-Last};
ghost use Rattle.winnow_codec.specs.Cases.{SpellsCase, AreSameCase, case_tag, AreCases-Case};
ghost use Rattle.winnow_codec.specs.Cases.{SpellsTagged, IsFormat-Tagged};
ghost use Rattle.winnow_codec.specs.Writing.{Writes};

use crate::{Choice, Exact, Format, Unwritten};
use std::alloc::Global;
use winnow_error::ParserError;
use winnow_parser::{Failure, ModalResult};
use winnow_stream::StreamIsPartial;

/// What follows a tag, by what the tag is. The tags are those of a format.
pub trait Cases<T: Exact>: Sized {
    /// What follows the tags.
    type Value;

    // Which bytes spell which value, after a tag.
    ghost spells: { Self → T.Value → Self.Value → List ℕ → Type 0 };

    // The two values are the same, as far as their bytes tell.
    ghost same: { Self.Value → Self.Value → Type 0 };

    // The tag of a value.
    ghost tag_of: { Self → Self.Value → T.Value };

    /// Returns the tag of the value.
    fn tag(&self, value: &Self::Value) -> T::Value
        ensures { result ≡ tag_of self.now value.now };

    /// Reads what follows the tag.
    fn read_after<I: StreamIsPartial<Token = u8>, E: ParserError<I>>(
        &self,
        label: T::Value,
        alloc: Global,
        input: &mut I,
    ) -> ModalResult<Self::Value, E>
        requires { I.valid input.old }
        ensures means { Reads (spells self.now label) (I.expects_more input.old)
            (ahead I.location I.remaining input.old)
            (outcome result (ahead I.location I.remaining input.new)) }
        ensures valid { I.valid input.new }
        ensures kept { I.keeps input.old input.new };

    /// Appends what follows the tag of the value.
    fn write_after(&self, value: &Self::Value, bytes: &mut Vec<u8>) -> Result<(), Unwritten>
        ensures { Writes (spells self.now (tag_of self.now value.now)) value.now bytes.old.items
            result bytes.new.items };

    // What follows each tag is a format, and a value has one tag.
    ghost lawful: { (c : Self) → AreCases same (tag_of c) (spells c) };
}

/// The last of the cases; [`last_case`] makes it.
#[derive(Clone, Copy, Drop)]
pub struct LastCase<V, A> {
    own: V,
    format: A,
}

/// Returns the last of the cases: this tag, and then this format.
pub fn last_case<V, A>(own: V, format: A) -> LastCase<V, A>
    ensures { result ≡ record { own = own; format = format } }
{
    LastCase { own, format }
}

impl<V: Copy, T: Exact<Value = V>, A: Format> Cases<T> for LastCase<V, A> {
    type Value = A::Value;

    ghost spells = { λ c. SpellsLast c.own (A.spells c.format) };

    ghost same = { A.same };

    ghost tag_of = { λ c. only_tag c.own };

    ghost lawful = { λ c. AreCases-Last c.own A.same (A.spells c.format) (A.lawful c.format) };

    fn tag(&self, _value: &A::Value) -> V {
        self.own
    }

    fn read_after<I: StreamIsPartial<Token = u8>, E: ParserError<I>>(
        &self,
        label: V,
        alloc: Global,
        input: &mut I,
    ) -> ModalResult<A::Value, E> {
        if T::equal(&label, &self.own) {
            match self.format.read(alloc, input) {
                Ok(value) => Ok(value),
                Err(failure) => Err(failure),
            }
        } else {
            Err(Failure::Backtrack(E::from_input(alloc, input)))
        }
    }

    fn write_after(&self, value: &A::Value, bytes: &mut Vec<u8>) -> Result<(), Unwritten> {
        self.format.write(value, bytes)
    }
}

/// A case and the others; [`first_case`] makes it.
#[derive(Clone, Copy, Drop)]
pub struct Case<V, A, R> {
    own: V,
    format: A,
    others: R,
}

/// Returns a case, this tag and then this format, and the others.
pub fn first_case<V, A, R>(own: V, format: A, others: R) -> Case<V, A, R>
    ensures { result ≡ record { own = own; format = format; others = others } }
{
    Case {
        own,
        format,
        others,
    }
}

impl<V: Copy + Drop, T: Exact<Value = V>, A: Format, R: Cases<T>> Cases<T> for Case<V, A, R> {
    type Value = Choice<A::Value, R::Value>;

    ghost spells = { λ c. SpellsCase c.own (A.spells c.format) (R.spells c.others) };

    ghost same = { AreSameCase A.same R.same };

    ghost tag_of = { λ c. case_tag c.own (R.tag_of c.others) };

    ghost lawful = { λ c. AreCases-Case c.own A.same (A.spells c.format) (A.lawful c.format) R.same
        (R.tag_of c.others) (R.spells c.others) (R.lawful c.others) };

    fn tag(&self, value: &Choice<A::Value, R::Value>) -> V {
        match value {
            Choice::First(_) => self.own,
            Choice::Other(other) => self.others.tag(other),
        }
    }

    fn read_after<I: StreamIsPartial<Token = u8>, E: ParserError<I>>(
        &self,
        label: V,
        alloc: Global,
        input: &mut I,
    ) -> ModalResult<Choice<A::Value, R::Value>, E> {
        if T::equal(&label, &self.own) {
            match self.format.read(alloc, input) {
                Ok(value) => Ok(Choice::First(value)),
                Err(failure) => Err(failure),
            }
        } else {
            match self.others.read_after(label, alloc, input) {
                Ok(value) => Ok(Choice::Other(value)),
                Err(failure) => Err(failure),
            }
        }
    }

    fn write_after(
        &self,
        value: &Choice<A::Value, R::Value>,
        bytes: &mut Vec<u8>,
    ) -> Result<(), Unwritten> {
        match value {
            Choice::First(first) => self.format.write(first, bytes),
            Choice::Other(other) => {
                let label = self.others.tag(other);
                if T::equal(&label, &self.own) {
                    return Err(Unwritten::Unspelled);
                }
                self.others.write_after(other, bytes)
            }
        }
    }
}

/// The format of a tag and of what follows it; [`by_tag`] makes it.
#[derive(Clone, Copy, Drop)]
pub struct Tagged<T, C> {
    tags: T,
    pub(crate) cases: C,
}

/// Returns the format of a tag and of what follows it.
pub fn by_tag<T, C>(tags: T, cases: C) -> Tagged<T, C>
    ensures { result ≡ record { tags = tags; cases = cases } }
{
    Tagged { tags, cases }
}

impl<T: Exact, C: Cases<T>> Format for Tagged<T, C>
where
    T::Value: Copy + Drop,
{
    type Value = C::Value;

    ghost spells = { λ f. SpellsTagged (T.spells f.tags) (C.tag_of f.cases) (C.spells f.cases) };

    ghost same = { C.same };

    ghost lawful = { λ f. IsFormat-Tagged T.same (T.spells f.tags) T.exact (T.lawful f.tags) C.same
        (C.tag_of f.cases) (C.spells f.cases) (C.lawful f.cases) };

    fn read<I: StreamIsPartial<Token = u8>, E: ParserError<I>>(
        &self,
        alloc: Global,
        input: &mut I,
    ) -> ModalResult<C::Value, E> {
        match self.tags.read(alloc, input) {
            Ok(label) => match self.cases.read_after(label, alloc, input) {
                Ok(value) => Ok(value),
                Err(failure) => Err(failure),
            },
            Err(failure) => Err(failure),
        }
    }

    fn write(&self, value: &C::Value, bytes: &mut Vec<u8>) -> Result<(), Unwritten> {
        let start = bytes.len();
        let label = self.cases.tag(value);
        self.tags.write(&label, bytes)?;
        match self.cases.write_after(value, bytes) {
            Ok(()) => Ok(()),
            Err(unwritten) => {
                bytes.truncate(start);
                Err(unwritten)
            }
        }
    }
}
