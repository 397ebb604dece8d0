//! `same`, which compares the answers of two ways to make a call.

/// Returns the answer that two ways to make a call give, or `None` if they give two answers.
pub fn same<T: PartialEq + Drop>(first: T, second: T) -> Option<T> {
    if first == second { Some(first) } else { None }
}
