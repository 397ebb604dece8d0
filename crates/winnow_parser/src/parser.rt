//! The trait `Parser`, with combinators of one parser as its methods.

ghost use Rattle.std.specs.Prelude.{◌≡◌, false, IfOk, IfErr};
ghost use Rattle.winnow_parser.specs.Outcome.{Meaning, Gives, Fails, Refuses, Moves};
ghost use Rattle.winnow_parser.specs.Answer.{outcome, ahead};
ghost use Rattle.winnow_parser.specs.Errors.{Errors, FailsLeaving};
ghost use Rattle.winnow_parser.specs.Laws.{IsParser};
ghost use Rattle.winnow_parser.specs.Whole.{ReadsWhole, StopsAfter, StopsWith, KeepsButFlag};

use crate::whole::read_whole;
use crate::{
    AndThen, Context, ContextWith, DefaultValue, ErrInto, FlatMap, Map, MapErr, ModalResult,
    OutputInto, ParseTo, Span, Taken, TryMap, Value, ValueTest, Verify, VerifyMap, Void,
    WholeResult, WithSpan, WithTaken,
};
use std::alloc::Global;
use winnow_count::ParseSlice;
use winnow_error::ParserError;
use winnow_error_parse::ParseError;
use winnow_stream::StreamIsPartial;

/// Reads a value from the front of a stream.
///
/// A parser of your own says by `means` what it may answer and by `errors` which errors its
/// failures carry (`AnyError` allows each). It keeps the laws that [`IsParser`] lists: a settled
/// answer stays when more input follows, nothing more is needed where nothing more may follow, and
/// the stream only moves on.
///
/// A token with its place, and then the place of the two tokens after it:
///
/// ```
/// let first = any().with_span();
/// let others = (any(), any()).span();
/// (first, others).parse_next(alloc, input)
/// ```
pub trait Parser<I: StreamIsPartial, E>: Sized {
    /// What it reads.
    type Output;

    // What it may answer, by what stands at the front.
    ghost means: { Self → Meaning Self.Output I.Token };

    // Which errors its failures carry.
    ghost errors: { Self → Errors E I I.Token };

    // The parsers that may be asked.
    ghost ready: { Self → Type 0 };

    /// Reads a value from the front, and moves the stream past what was read. Where the parser
    /// fails, the stream stands where the failure was found, and a caller that goes on resets it.
    fn parse_next(&self, alloc: Global, input: &mut I) -> ModalResult<Self::Output, E>
        requires ready { ready self.now }
        requires valid { I.valid input.old }
        ensures means { means self.now (I.expects_more input.old)
            (ahead I.location I.remaining input.old)
            (outcome result (ahead I.location I.remaining input.new)) }
        ensures onward { Moves (ahead I.location I.remaining input.old)
            (ahead I.location I.remaining input.new) }
        ensures error { IfErr result (errors self.now (I.expects_more input.old)
            (ahead I.location I.remaining input.old) input.new) }
        ensures valid { I.valid input.new }
        ensures kept { I.keeps input.old input.new };

    /// Returns the parser of what a function makes of the value.
    final fn map<O, F: Fn(Self::Output) -> O>(self, f: F) -> Map<Self, F, I, E>
        ensures inner { result.inner ≡ self }
        ensures f { result.f ≡ f }
    {
        Map::new(self, f)
    }

    /// Returns the parser that goes on with the parser that a function makes of the value: what
    /// comes first says how to read what comes next.
    final fn flat_map<Q, F: Fn(Self::Output) -> Q>(self, f: F) -> FlatMap<Self, F, I, E>
        ensures first { result.first ≡ self }
        ensures f { result.f ≡ f }
    {
        FlatMap::new(self, f)
    }

    /// Returns the parser that gives this value where the parser gives one.
    final fn value<V>(self, value: V) -> Value<Self, V, I, E>
        ensures inner { result.inner ≡ self }
        ensures value { result.value ≡ value }
    {
        Value::new(self, value)
    }

    /// Returns the parser that gives the default of a type where the parser gives a value.
    final fn default_value<V: Default>(self) -> DefaultValue<Self, V, I, E>
        ensures inner { result.inner ≡ self }
    {
        DefaultValue::new(self)
    }

    /// Returns the parser that converts the value to another type, by `Into`.
    final fn output_into<O2>(self) -> OutputInto<Self, O2, I, E>
    where
        Self::Output: Into<O2>,
        ensures inner { result.inner ≡ self }
    {
        OutputInto::new(self)
    }

    /// Returns the parser that gives nothing where the parser gives a value.
    final fn void(self) -> Void<Self, I, E>
        ensures inner { result.inner ≡ self }
    {
        Void::new(self)
    }

    /// Returns the parser of the values of which the test holds. At another value it backtracks,
    /// from where it began. The test takes a reference to the value, or what the value borrows as:
    /// `verify(|text: &str| ..)` of a parser of `&str`.
    final fn verify<F: ValueTest<Self::Output, By>, By>(self, test: F) -> Verify<Self, F, By, I, E>
        ensures inner { result.inner ≡ self }
        ensures test { result.test ≡ test }
    {
        Verify::new(self, test)
    }

    /// Returns the parser of what a function makes of the value. Where the function makes nothing,
    /// the parser backtracks, from where it began.
    final fn verify_map<O, F: Fn(Self::Output) -> Option<O>>(self, f: F) -> VerifyMap<Self, F, I, E>
        ensures inner { result.inner ≡ self }
        ensures f { result.f ≡ f }
    {
        VerifyMap::new(self, f)
    }

    /// Returns the parser of what a function makes of the value. Where the function fails, the
    /// parser backtracks, from where it began, with an error that is made of the function's.
    final fn try_map<O, X, F: Fn(Self::Output) -> Result<O, X>>(self, f: F) -> TryMap<Self, F, I, E>
        ensures inner { result.inner ≡ self }
        ensures f { result.f ≡ f }
    {
        TryMap::new(self, f)
    }

    /// Returns the parser of what the value reads as: a number, a `bool`, a character, or a value
    /// of your own type that says how it is read. Where the value reads as none, the parser
    /// backtracks, from where it began.
    final fn parse_to<R>(self) -> ParseTo<Self, R, I, E>
    where
        Self::Output: ParseSlice<R>,
        ensures inner { result.inner ≡ self }
    {
        ParseTo::new(self)
    }

    /// Returns the parser of what the parser gives, which another parser reads as an input of its
    /// own: nothing follows it, so that parser never needs more, and it need not read all. Where it
    /// fails, the stream stands where the parser began.
    final fn and_then<Q>(self, inner: Q) -> AndThen<Self, Q, I, E>
        ensures outer { result.outer ≡ self }
        ensures inner { result.inner ≡ inner }
    {
        AndThen::new(self, inner)
    }

    /// Returns the parser of the slice that the parser takes.
    final fn take(self) -> Taken<Self, I, E>
        ensures inner { result.inner ≡ self }
    {
        Taken::new(self)
    }

    /// Returns the parser of the value and of the slice that the parser takes.
    final fn with_taken(self) -> WithTaken<Self, I, E>
        ensures inner { result.inner ≡ self }
    {
        WithTaken::new(self)
    }

    /// Returns the parser of the range that the parser takes, in offsets of the whole input. The
    /// stream must keep its location.
    final fn span(self) -> Span<Self, I, E>
        ensures inner { result.inner ≡ self }
    {
        Span::new(self)
    }

    /// Returns the parser of the value and of the range that the parser takes.
    final fn with_span(self) -> WithSpan<Self, I, E>
        ensures inner { result.inner ≡ self }
    {
        WithSpan::new(self)
    }

    /// Returns the parser that adds to its errors what was being read.
    final fn context<C>(self, context: C) -> Context<Self, C, I, E>
        ensures inner { result.inner ≡ self }
        ensures context { result.context ≡ context }
    {
        Context::new(self, context)
    }

    /// Returns the parser that adds to its errors what a function makes, which is only called where
    /// the parser fails.
    final fn context_with<C, F: Fn() -> C>(self, f: F) -> ContextWith<Self, F, I, E>
        ensures inner { result.inner ≡ self }
        ensures f { result.f ≡ f }
    {
        ContextWith::new(self, f)
    }

    /// Returns the parser whose errors are what a function makes of the errors, where the parser
    /// backtracks or cuts.
    final fn map_err<E2, F: Fn(E) -> E2>(self, f: F) -> MapErr<Self, F, I, E>
        ensures inner { result.inner ≡ self }
        ensures f { result.f ≡ f }
    {
        MapErr::new(self, f)
    }

    /// Returns the parser that converts its errors to another type, by `Into`.
    final fn err_into<E2>(self) -> ErrInto<Self, E2, I, E>
    where
        E: Into<E2>,
        ensures inner { result.inner ≡ self }
    {
        ErrInto::new(self)
    }

    /// Returns a reference, which is a parser too, so that the parser itself is not used up.
    final fn by_ref(&self) -> &Self
        ensures { result.now ≡ self.now }
    {
        self
    }

    /// Reads a whole input to its end. Nothing follows it, even where its flag says that more may.
    /// Where the parser fails, or gives a value before the end, the error has the input and the
    /// place in it. The outer error is refused memory.
    final fn parse(&self, alloc: Global, input: I) -> WholeResult<Self::Output, ParseError<I, E>>
    where
        I: Drop,
        I::PartialState: Drop,
        E: ParserError<I>,
        Self::Output: Drop,
        requires ready { ready self.now }
        requires valid { I.valid input }
        ensures value { IfOk result (λ answer. IfOk answer (ReadsWhole (means self.now)
            (ahead I.location I.remaining input))) }
        ensures stopped { IfOk result (λ answer. IfErr answer (λ error. StopsAfter (means self.now)
            (ahead I.location I.remaining input) error.offset)) }
        ensures error { IfOk result (λ answer. IfErr answer (λ error. StopsWith
            (ahead I.location I.remaining) E.from_input_gives (means self.now) (errors self.now)
            (ahead I.location I.remaining input) error.offset error.inner)) }
        ensures input { IfOk result (λ answer. IfErr answer (λ error.
            ahead I.location I.remaining error.input ≡ ahead I.location I.remaining input)) }
        ensures valid { IfOk result (λ answer. IfErr answer (λ error. I.valid error.input)) }
        ensures kept { IfOk result (λ answer. IfErr answer (λ error.
            KeepsButFlag I.same_but_flag I.keeps input error.input)) }
        ensures refused { IfErr result (λ _. means self.now false
            (ahead I.location I.remaining input) (Fails Refuses)) }
    {
        read_whole(self, alloc, input)
    }

    /// Reads a value from the front of an input, and returns what remains with it.
    final fn parse_peek(&self, alloc: Global, input: I) -> ModalResult<(I, Self::Output), E>
    where
        I: Drop,
        requires ready { ready self.now }
        requires valid { I.valid input }
        ensures value { IfOk result (λ both. means self.now (I.expects_more input)
            (ahead I.location I.remaining input)
            (Gives both.1 (ahead I.location I.remaining both.0))) }
        ensures valid { IfOk result (λ both. I.valid both.0) }
        ensures kept { IfOk result (λ both. I.keeps input both.0) }
        ensures failure { IfErr result (FailsLeaving (ahead I.location I.remaining)
            (means self.now) (errors self.now) (I.expects_more input)
            (ahead I.location I.remaining input)) }
    {
        let mut input = input;
        match self.parse_next(alloc, &mut input) {
            Ok(value) => Ok((input, value)),
            Err(failure) => Err(failure),
        }
    }

    // It keeps the laws of a parser.
    ghost lawful: { (p : Self) → IsParser (means p) };
}
