//! The next bytes of a stream, one to four at a time.

ghost use Rattle.std.specs.Prelude.{◌≡◌, ◌≤◌, ◌<◌, ◌+◌, [], ◌∷◌, length};
ghost use Rattle.winnow_parser.specs.Answer.{ahead};
ghost use Rattle.winnow_codec.specs.Formats.{Takes};

use winnow_stream::Stream;

// Returns the next byte.
#[inline(always)]
pub(crate) fn one<I: Stream<Token = u8>>(input: &mut I) -> u8
    requires valid { I.valid input.old }
    requires enough { 1 ≤ length (I.remaining input.old) }
    ensures taken { Takes (result ∷ [])
        (ahead I.location I.remaining input.old) (ahead I.location I.remaining input.new) }
    ensures byte { result < 256 }
    ensures left { 1 + length (I.remaining input.new) ≡ length (I.remaining input.old) }
    ensures valid { I.valid input.new }
    ensures kept { I.keeps input.old input.new }
{
    match input.next_token() {
        Some(byte) => byte,
        None => unreachable!(),
    }
}

// Returns the next two bytes.
#[inline(always)]
pub(crate) fn two<I: Stream<Token = u8>>(input: &mut I) -> (u8, u8)
    requires valid { I.valid input.old }
    requires enough { 2 ≤ length (I.remaining input.old) }
    ensures taken { Takes (result.0 ∷ result.1 ∷ [])
        (ahead I.location I.remaining input.old) (ahead I.location I.remaining input.new) }
    ensures bytes { (result.0 < 256) × (result.1 < 256) }
    ensures left { 2 + length (I.remaining input.new) ≡ length (I.remaining input.old) }
    ensures valid { I.valid input.new }
    ensures kept { I.keeps input.old input.new }
{
    let first = one(input);
    let second = one(input);
    (first, second)
}

// Returns the next three bytes.
#[inline(always)]
pub(crate) fn three<I: Stream<Token = u8>>(input: &mut I) -> (u8, u8, u8)
    requires valid { I.valid input.old }
    requires enough { 3 ≤ length (I.remaining input.old) }
    ensures taken { Takes (result.0 ∷ result.1 ∷ result.2 ∷ [])
        (ahead I.location I.remaining input.old) (ahead I.location I.remaining input.new) }
    ensures bytes { (result.0 < 256) × (result.1 < 256) × (result.2 < 256) }
    ensures left { 3 + length (I.remaining input.new) ≡ length (I.remaining input.old) }
    ensures valid { I.valid input.new }
    ensures kept { I.keeps input.old input.new }
{
    let (first, second) = two(input);
    let third = one(input);
    (first, second, third)
}

// Returns the next four bytes.
#[inline(always)]
pub(crate) fn four<I: Stream<Token = u8>>(input: &mut I) -> (u8, u8, u8, u8)
    requires valid { I.valid input.old }
    requires enough { 4 ≤ length (I.remaining input.old) }
    ensures taken { Takes (result.0 ∷ result.1 ∷ result.2 ∷ result.3 ∷ [])
        (ahead I.location I.remaining input.old) (ahead I.location I.remaining input.new) }
    ensures bytes { (result.0 < 256) × (result.1 < 256) × (result.2 < 256) × (result.3 < 256) }
    ensures left { 4 + length (I.remaining input.new) ≡ length (I.remaining input.old) }
    ensures valid { I.valid input.new }
    ensures kept { I.keeps input.old input.new }
{
    let (first, second) = two(input);
    let (third, fourth) = two(input);
    (first, second, third, fourth)
}
