//! Tests of values: of a reference to the value, or of what the value borrows as.
ghost use Rattle.std.specs.Prelude.{Bool};
ghost use Rattle.std.specs.Fn.{FnReturnsAt};
ghost use Rattle.std.specs.String.{string_bytes};
ghost use Rattle.winnow_parser.specs.ValueTests.{TakesAt};

/// A test of values of type `O`, as [`Parser::verify`](crate::Parser::verify) takes it: a function
/// of a reference to the value ([`ByValue`]), or of what the value borrows as ([`ByBorrow`]). The
/// type of the function's parameter says which of them it is.
///
/// It stands where Rust has `FnMut(&B) -> bool` and `O: Borrow<B>`, whose `B` may have no size.
pub trait ValueTest<O, By> {
    // The values of which the test may be asked.
    ghost may_ask: { Self → O → Type 0 };

    // What the test may say of a value.
    ghost says: { Self → O → Bool → Type 0 };

    /// Returns whether the test holds of the value.
    fn holds_of(&self, value: &O) -> bool
        requires { may_ask self.now value.now }
        ensures { says self.now value.now result };
}

/// The test takes a reference to the value.
#[derive(Clone, Copy)]
pub struct ByValue;

/// The test takes what the value borrows as: `&str` of a `&str` or a `String`, `&[T]` of a `&[T]`
/// or a `Vec<T>`, `&T` of a `&T`.
#[derive(Clone, Copy)]
pub struct ByBorrow;

impl<O, F: Fn(&O) -> bool> ValueTest<O, ByValue> for F {
    ghost may_ask = { TakesAt F.Fn };

    ghost says = { FnReturnsAt F.Fn };

    fn holds_of(&self, value: &O) -> bool {
        self(value)
    }
}

impl<'a, F: Fn(&str) -> bool> ValueTest<&'a str, ByBorrow> for F {
    ghost may_ask = { λ test text. TakesAt F.Fn test text.now };

    ghost says = { λ test text. FnReturnsAt F.Fn test text.now };

    fn holds_of(&self, value: &&'a str) -> bool {
        self(*value)
    }
}

impl<F: Fn(&str) -> bool> ValueTest<String, ByBorrow> for F {
    ghost may_ask = { λ test text. TakesAt F.Fn test (string_bytes text) };

    ghost says = { λ test text. FnReturnsAt F.Fn test (string_bytes text) };

    fn holds_of(&self, value: &String) -> bool {
        self(value.as_str())
    }
}

impl<'a, T, F: Fn(&[T]) -> bool> ValueTest<&'a [T], ByBorrow> for F {
    ghost may_ask = { λ test list. TakesAt F.Fn test list.now };

    ghost says = { λ test list. FnReturnsAt F.Fn test list.now };

    fn holds_of(&self, value: &&'a [T]) -> bool {
        self(*value)
    }
}

impl<T, F: Fn(&[T]) -> bool> ValueTest<Vec<T>, ByBorrow> for F {
    ghost may_ask = { λ test list. TakesAt F.Fn test list.items };

    ghost says = { λ test list. FnReturnsAt F.Fn test list.items };

    fn holds_of(&self, value: &Vec<T>) -> bool {
        self(value.as_slice())
    }
}

impl<'a, T, F: Fn(&T) -> bool> ValueTest<&'a T, ByBorrow> for F {
    ghost may_ask = { λ test value. TakesAt F.Fn test value.now };

    ghost says = { λ test value. FnReturnsAt F.Fn test value.now };

    fn holds_of(&self, value: &&'a T) -> bool {
        self(*value)
    }
}
