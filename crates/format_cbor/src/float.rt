//! Floats in the shortest form that keeps their value.

ghost use Rattle.std.specs.Prelude.{◌≡◌, ◌↔◌, ◌+◌, ◌-◌, ◌^◌, ◌<◌, ◌≤◌, IsTrue};
ghost use Rattle.format_cbor.specs.Floats.{magnitude, IsMagnitudeOf, HasHalf, HasSingle};
ghost use Rattle.format_cbor.specs.Floats.{IsShortestHalf, IsShortestSingle, IsShortestDouble};

// A width of floats, and how a wider one differs.
#[derive(Clone, Copy, Drop)]
struct Narrower {
    // How many bits the fraction has, and how many more that of the wider one.
    digits: u64,
    lost: u64,
    // The exponent of what is infinite or no number.
    last: u64,
    // The least float above 0 is 2 to this power of the least wider one.
    finer: u64,
}

// Returns a power of two.
fn power(exponent: u64) -> u64
    requires { exponent < 64 }
    ensures { result ≡ 2 ^ exponent }
{
    1_u64 << exponent
}

// Returns how many of the last bits of a significand a narrower float cannot have: those that its
// fraction lacks, and more where the exponent is below that of its normal ones.
fn cut_of(lost: u64, finer: u64, below: u64) -> u64
    requires lost { lost < 2048 }
    requires below { below < 2048 }
    ensures normal { finer ≤ below + lost → result ≡ lost }
    ensures subnormal { below + lost < finer → result ≡ finer - below }
{
    if finer <= below + lost {
        lost
    } else {
        finer - below
    }
}

// Returns whether a finite narrower float has the magnitude of a finite float with this exponent
// and this fraction.
fn has_narrower(to: Narrower, exponent: u64, fraction: u64) -> bool
    requires digits { to.digits + to.lost < 60 }
    requires some { 0 < to.last }
    requires last { to.last < 2048 }
    requires finer { to.finer < 2048 }
    requires apart { to.digits + to.lost ≤ to.finer }
    requires exponent { exponent < 2048 }
    requires fraction { fraction < 2 ^ (to.digits + to.lost) }
    ensures { IsTrue result ↔ IsMagnitudeOf to.digits to.last to.finer
        (magnitude (to.digits + to.lost) exponent fraction) }
{
    if exponent == 0 {
        return fraction == 0;
    }
    let below = exponent - 1;
    let cut = cut_of(to.lost, to.finer, below);
    if to.digits + to.lost < cut {
        return false;
    }
    if to.last + to.finer <= exponent + to.lost {
        return false;
    }
    (power(to.digits + to.lost) + fraction) % power(cut) == 0
}

// Returns whether a finite half has the magnitude of a single.
fn has_half(bits: u32) -> bool
    ensures { IsTrue result ↔ HasHalf bits }
{
    let half = Narrower {
        digits: 10,
        lost: 13,
        last: 31,
        finer: 125,
    };
    let bits = u64::from(bits);
    has_narrower(half, bits / 8_388_608 % 256, bits % 8_388_608)
}

// Returns whether a finite single has the magnitude of a double.
fn has_single(bits: u64) -> bool
    ensures { IsTrue result ↔ HasSingle bits }
{
    let single = Narrower {
        digits: 23,
        lost: 29,
        last: 255,
        finer: 925,
    };
    has_narrower(
        single,
        bits / 4_503_599_627_370_496 % 2048,
        bits % 4_503_599_627_370_496,
    )
}

/// Returns whether a half has no shorter form.
pub(crate) fn is_shortest_half(bits: u16) -> bool
    ensures { IsTrue result ↔ IsShortestHalf bits }
{
    bits % 32768 <= 31744 || bits == 32256
}

/// Returns whether a single has no shorter form.
pub(crate) fn is_shortest_single(bits: u32) -> bool
    ensures { IsTrue result ↔ IsShortestSingle bits }
{
    if bits / 8_388_608 % 256 == 255 {
        return false;
    }
    !has_half(bits)
}

/// Returns whether a double has no shorter form.
pub(crate) fn is_shortest_double(bits: u64) -> bool
    ensures { IsTrue result ↔ IsShortestDouble bits }
{
    if bits / 4_503_599_627_370_496 % 2048 == 2047 {
        return false;
    }
    !has_single(bits)
}
