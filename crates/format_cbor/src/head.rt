//! A head as a value: `Head`, with its `Kind`.

ghost use Rattle.std.specs.Prelude.{◌≡◌, ◌≤◌, false, MatchOption};
ghost use Rattle.format_cbor.specs.Heads.{rank, rank_in, information, initial_of, is_assigned};
ghost use Rattle.format_cbor.specs.Heads.{IsHeadOf};
ghost use Rattle.format_cbor.specs.declared.head.Head.{Head};

/// What begins with a head: a major type (section 3.1), or one of the four kinds of major type 7
/// (section 3.3).
#[derive(Clone, Copy, Debug, Drop, PartialEq, Eq)]
pub enum Kind {
    /// Major type 0: the argument is the integer
    Unsigned,
    /// Major type 1: the integer is -1 minus the argument
    Negative,
    /// Major type 2: bytes, of which the argument is the number
    Bytes,
    /// Major type 3: a text in UTF-8, of which the argument is the number of bytes
    Text,
    /// Major type 4: an array, of which the argument is the number of items
    Array,
    /// Major type 5: a map, of which the argument is the number of pairs
    Map,
    /// Major type 6: the argument is the number of a tag, and an item follows
    Tag,
    /// Major type 7: the argument is the number of a simple value
    Simple,
    /// Major type 7: the argument is the bits of a float of 16 bits
    Half,
    /// Major type 7: the argument is the bits of a float of 32 bits
    Single,
    /// Major type 7: the argument is the bits of a float of 64 bits
    Double,
}

/// A head: what begins, and its argument.
#[derive(Clone, Copy, Debug, Drop)]
pub struct Head {
    /// What begins
    pub kind: Kind,
    /// The argument
    pub argument: u64,
}

// Returns the place of the kind in the list of kinds.
pub(crate) fn rank(kind: Kind) -> u8
    ensures { result ≡ rank kind }
{
    match kind {
        Kind::Unsigned => 0,
        Kind::Negative => 1,
        Kind::Bytes => 2,
        Kind::Text => 3,
        Kind::Array => 4,
        Kind::Map => 5,
        Kind::Tag => 6,
        Kind::Simple => 7,
        Kind::Half => 8,
        Kind::Single => 9,
        Kind::Double => 10,
    }
}

// Returns the kind of a head with this initial byte.
fn kind_in(first: u8) -> Kind
    ensures { first ≤ 251 → rank result ≡ rank_in first }
{
    match first {
        0..=31 => Kind::Unsigned,
        32..=63 => Kind::Negative,
        64..=95 => Kind::Bytes,
        96..=127 => Kind::Text,
        128..=159 => Kind::Array,
        160..=191 => Kind::Map,
        192..=223 => Kind::Tag,
        224..=248 => Kind::Simple,
        249 => Kind::Half,
        250 => Kind::Single,
        _ => Kind::Double,
    }
}

// Returns the additional information of the shortest head with this argument.
fn information(argument: u64) -> u8
    ensures { result ≡ information argument }
{
    if argument < 24 {
        argument as u8
    } else if argument < 256 {
        24
    } else if argument < 65536 {
        25
    } else if argument < 4_294_967_296 {
        26
    } else {
        27
    }
}

// Returns the initial byte of a head.
fn initial_of(kind: Kind, argument: u64) -> u8
    ensures { result ≡ initial_of kind argument }
{
    match kind {
        Kind::Unsigned => information(argument),
        Kind::Negative => 32 + information(argument),
        Kind::Bytes => 64 + information(argument),
        Kind::Text => 96 + information(argument),
        Kind::Array => 128 + information(argument),
        Kind::Map => 160 + information(argument),
        Kind::Tag => 192 + information(argument),
        Kind::Simple => {
            if argument < 24 {
                224 + argument as u8
            } else {
                248
            }
        }
        Kind::Half => 249,
        Kind::Single => 250,
        Kind::Double => 251,
    }
}

// Returns whether a head may have the argument.
fn is_assigned(kind: Kind, argument: u64) -> bool
    ensures { result ≡ is_assigned kind argument }
{
    match kind {
        Kind::Simple => argument < 24 || 32 <= argument,
        _ => true,
    }
}

// Returns the head that has this initial byte and this argument, if any has.
pub(crate) fn head_in(first: u8, argument: u64) -> Option<Head>
    ensures { MatchOption result ((h : Head) → IsHeadOf first argument h → ⊥)
        (λ h. IsHeadOf first argument h) }
{
    let kind = kind_in(first);
    if !is_assigned(kind, argument) {
        return None;
    }
    if initial_of(kind, argument) != first {
        return None;
    }
    Some(Head { kind, argument })
}

impl Head {
    // Returns the initial byte, or `None` if no bytes spell the head.
    pub(crate) fn first(&self) -> Option<u8>
        ensures { MatchOption result (is_assigned self.now.kind self.now.argument ≡ false)
            (λ first. IsHeadOf first self.now.argument self.now) }
    {
        if is_assigned(self.kind, self.argument) {
            Some(initial_of(self.kind, self.argument))
        } else {
            None
        }
    }
}
