//! `Turn`, the end of an expression or one operator more.

// An expression ends here with its value, or an operator was applied, after which no other of a
// power may follow.
#[derive(Drop)]
pub(crate) enum Turn<O> {
    // No operator follows
    Ended(O),
    // The value to which an operator was applied
    Went(O, Option<i64>),
}
