//! Laws of fields of bits. A law does nothing when called: its contract is the law.

ghost use Rattle.std.specs.Prelude.{◌≡◌, ℕ, ◌*◌, ◌<◌, ◌^◌, Bool, List, length, sum};
ghost use Rattle.winnow_parser.specs.Determined.{IsDetermined};
ghost use Rattle.winnow_token.specs.Prompt.{IsPrompt};
ghost use Rattle.winnow_binary.specs.declared.endianness.Endianness.{Endianness};
ghost use Rattle.winnow_binary.specs.Numerals.{number_in};
ghost use Rattle.winnow_binary.specs.Fields.{fields_in, joined_in, HaveWidths, AreBytes};
ghost use Rattle.winnow_binary.specs.BitFields.{IsBitFields};

/// The laws of a parser of fields of bits. It is deterministic; if it needs k more bytes, no result
/// is definite before k have come. It does nothing when called: its contract is the law.
pub fn determined_bit_fields_law()
    ensures determined { (counts_shortage : Bool) (order : Endianness) (widths : List ℕ)
        → IsDetermined (λ x y. x ≡ y) (IsBitFields counts_shortage order widths) }
    ensures prompt { (counts_shortage : Bool) (order : Endianness) (widths : List ℕ)
        → IsPrompt (IsBitFields counts_shortage order widths) }
{}

/// The laws of fields: there are as many as widths, each is a number of its width, and nothing is
/// lost. The number is joined from its fields, and as many bytes that have the same fields are the
/// same. It does nothing when called: its contract is the law.
pub fn bit_fields_law()
    ensures count { (order : Endianness) (widths : List ℕ) (n : ℕ)
        → length (fields_in order widths n) ≡ length widths }
    ensures widths { (order : Endianness) (widths : List ℕ) (n : ℕ)
        → HaveWidths widths (fields_in order widths n) }
    ensures joined { (order : Endianness) (widths : List ℕ) (n : ℕ) → n < 2 ^ sum widths
        → joined_in order widths (fields_in order widths n) ≡ n }
    ensures told { (order : Endianness) (widths xs ys : List ℕ) → AreBytes xs → AreBytes ys
        → 8 * length xs ≡ sum widths → 8 * length ys ≡ sum widths
        → fields_in order widths (number_in order xs)
        ≡ fields_in order widths (number_in order ys) → xs ≡ ys }
{}
