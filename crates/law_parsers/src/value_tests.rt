//! The ghost members of the tests that `verify` takes, spelled out.
ghost use Rattle.std.specs.Prelude.{◌↔◌, Bool};
ghost use Rattle.std.specs.Fn.{FnReturnsAt};
ghost use Rattle.std.specs.String.{string_bytes};
ghost use Rattle.winnow_parser.specs.ValueTests.{TakesAt};

use winnow_parser::{ByBorrow, ByValue, ValueTest};

/// A test says of a value what its function returns: of a reference to the value, or of the text,
/// list or value that it borrows as. It may be asked of a value at which the function may be
/// called. It does nothing when called: its contract is the law.
pub fn value_test_law<
    O,
    T: 'static,
    V: Fn(&O) -> bool,
    W: Fn(&str) -> bool,
    L: Fn(&[T]) -> bool,
    B: Fn(&T) -> bool,
>()
    ensures value { (f : V) (x : O) (answer : Bool)
        → ⟦<V as ValueTest<O, ByValue>>⟧.says f x answer ↔ FnReturnsAt V.Fn f x answer }
    ensures text { (f : W) (x : _) (answer : Bool)
        → ⟦<W as ValueTest<&'static str, ByBorrow>>⟧.says f x answer
        ↔ FnReturnsAt W.Fn f x.now answer }
    ensures owned { (f : W) (x : _) (answer : Bool)
        → ⟦<W as ValueTest<String, ByBorrow>>⟧.says f x answer
        ↔ FnReturnsAt W.Fn f (string_bytes x) answer }
    ensures slice { (f : L) (x : _) (answer : Bool)
        → ⟦<L as ValueTest<&'static [T], ByBorrow>>⟧.says f x answer
        ↔ FnReturnsAt L.Fn f x.now answer }
    ensures list { (f : L) (x : _) (answer : Bool)
        → ⟦<L as ValueTest<Vec<T>, ByBorrow>>⟧.says f x answer ↔ FnReturnsAt L.Fn f x.items answer }
    ensures borrowed { (f : B) (x : _) (answer : Bool)
        → ⟦<B as ValueTest<&'static T, ByBorrow>>⟧.says f x answer
        ↔ FnReturnsAt B.Fn f x.now answer }
    ensures asked { (f : V) (x : O)
        → ⟦<V as ValueTest<O, ByValue>>⟧.may_ask f x ↔ TakesAt V.Fn f x }
{}
