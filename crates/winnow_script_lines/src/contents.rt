//! `Contents` of literals and inputs, as bytes or text, and `Lend`, which lends them for a run.

ghost use Rattle.std.specs.Prelude.{◌≡◌, ◌↔◌, ℕ, List, ⊤, string_bytes, IsSome, IfSome};
ghost use Rattle.std.specs.Str.{IsUtf8};
ghost use Rattle.std.proofs.lemmas.Str.{IsUtf8-string_bytes};

/// The contents of literals and inputs: bytes, or text.
pub trait Contents: Sized + Drop {
    // Its bytes.
    ghost bytes: { Self → List ℕ };

    // Which bytes contents can have.
    ghost IsContents: { List ℕ → Type 0 };

    /// Returns the contents that have these bytes, if such contents exist.
    fn from_bytes(given: Vec<u8>) -> Option<Self>
        ensures found { IsSome result ↔ IsContents given.items }
        ensures bytes { IfSome result (λ found. bytes found ≡ given.items) };

    // The bytes of contents are bytes that contents can have.
    ghost contents_law: { (contents : Self) → IsContents (bytes contents) };
}

impl Contents for Vec<u8> {
    ghost bytes = { λ contents. contents.items };

    ghost IsContents = { λ _. ⊤ };

    ghost contents_law = { λ _. tt };

    fn from_bytes(given: Vec<u8>) -> Option<Self> {
        Some(given)
    }
}

impl Contents for String {
    ghost bytes = { string_bytes };

    ghost IsContents = { IsUtf8 };

    ghost contents_law = { IsUtf8-string_bytes };

    fn from_bytes(given: Vec<u8>) -> Option<Self> {
        match String::from_utf8(given) {
            Ok(text) => Some(text),
            Err(_) => None,
        }
    }
}

/// Contents that can be lent for a run.
pub trait Lend<'k>: Contents {
    /// The type that a run takes.
    type Lent: Copy + Drop;

    // Its bytes.
    ghost lent_bytes: { Self.Lent → List ℕ };

    /// Returns a loan of the same bytes.
    fn lend(&'k self) -> Self::Lent
        ensures { lent_bytes result ≡ Self.bytes self.now };
}

impl<'k> Lend<'k> for Vec<u8> {
    type Lent = &'k [u8];

    ghost lent_bytes = { λ lent. lent.now };

    fn lend(&'k self) -> &'k [u8] {
        self.as_slice()
    }
}

impl<'k> Lend<'k> for String {
    type Lent = &'k str;

    ghost lent_bytes = { λ lent. lent.now };

    fn lend(&'k self) -> &'k str {
        self.as_str()
    }
}
