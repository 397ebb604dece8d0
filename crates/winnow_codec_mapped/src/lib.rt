//! Formats of values that stand for those of another format: [`mapped`]. Floats are so spelled by
//! their bits ([`be_f32`] and the functions beside it).
#![tactic(auto)]

mod floats;
mod mapping;

pub use floats::{FloatBits, be_f32, be_f64, le_f32, le_f64};
pub use mapping::{MappedBy, Mapping, mapped};
