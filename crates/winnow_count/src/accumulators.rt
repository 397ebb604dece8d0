//! The accumulators, one module for each kind, and the room that they make at first.

ghost use Rattle.std.specs.Prelude.{◌≡◌};
ghost use Rattle.winnow_count.specs.Accumulation.{room_of};

mod counts;
mod cows;
mod hashes;
mod strings;
mod trees;
mod vectors;

// The greatest number of items that room is made for: a number that an input names is trusted no
// further.
const MOST: usize = 1024;

fn room(capacity: Option<usize>) -> usize
    ensures { result ≡ room_of capacity }
{
    capacity.unwrap_or(0).min(MOST)
}
