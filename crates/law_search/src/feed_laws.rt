//! A call of each law of feeds.

use winnow_script_feed::{one_search_law, told_law};

/// Calls each law of feeds.
pub fn feed_laws_can_be_called() {
    told_law();
    one_search_law();
}
