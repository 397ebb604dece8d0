use crate::{Preceded, Terminated};

/// A parser between two others; [`delimited`] makes it.
pub type Delimited<A, B, C> = Preceded<A, Terminated<B, C>>;
