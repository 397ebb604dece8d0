use crate::Preceded;

/// Two parsers with another between them; [`separated_pair`] makes it.
pub type SeparatedPair<A, S, B> = (A, Preceded<S, B>);
