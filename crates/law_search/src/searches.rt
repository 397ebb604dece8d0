//! A call of each law of comparison and search.

use winnow_match::{
    byte_hit_law, compare_law, compare_more_law, definite_hit_law, find_law, find_more_law,
    stretch_law,
};

/// Calls each law of comparison and search.
pub fn search_laws_can_be_called() {
    compare_law();
    compare_more_law();
    find_law();
    find_more_law();
    definite_hit_law();
    stretch_law();
    byte_hit_law();
}
