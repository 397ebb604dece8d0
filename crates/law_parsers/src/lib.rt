//! What contracts of parsers say of their failures, put together, records as their users write
//! them, and one call of each law of parsers and readers. Nothing here is part of the library.
#![tactic(auto)]

#[cfg(test)]
mod ascii;
#[cfg(test)]
mod combined;
#[cfg(test)]
mod expressions;
#[cfg(test)]
mod laws;
#[cfg(test)]
mod lines;
#[cfg(test)]
mod liveness;
#[cfg(test)]
mod readers;
#[cfg(test)]
mod text_lines;
#[cfg(test)]
mod value_tests;
