//! What each type derives, shown by calls through the bounds, and the ghost members of each type,
//! spelled out for each trait that it implements. Generic code promises only what they say, so a
//! member that says less is refused here. Nothing here is part of the library, and nothing here
//! runs: what each type prints, and which values are equal, stands in `tests/`.
#![tactic(auto)]

pub mod count_members;
pub mod implementations;
pub mod laws;
pub mod literal_members;
pub mod place_members;
pub mod set_members;
pub mod width_members;
