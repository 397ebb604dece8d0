//! The ghost members of a tree of errors, and of the conversions between bytes and bits, spelled
//! out. Generic code promises only what they say, so a member that says less is refused here.
ghost use Rattle.std.specs.Prelude.{◌≡◌, ℕ, true, None, Some, Ok, string_bytes};
ghost use Rattle.winnow_error.specs.declared.input.InputError.{InputError};
ghost use Rattle.winnow_stream.specs.declared.needed.Needed.{Needed};
ghost use Rattle.winnow_tree.specs.Entries.{IsBase, alternatives, entries_of_both};
ghost use Rattle.winnow_tree.specs.Maps.{TreeMaps};
ghost use Rattle.winnow_tree.specs.TreeContents.{tree_contents, kind, context, PushedAt};
ghost use Rattle.winnow_tree.specs.declared.tree.TreeError.{TreeError};
ghost use Rattle.winnow_views.specs.BitStream.{bits_inner, bits_place};
ghost use Rattle.winnow_views.specs.declared.bits.Bits.{Bits};

use winnow_error::{
    AddContext, ErrorConvert, FromExternalError, FromRecoverableError, InputError, ParserError,
};
use winnow_stream::{Needed, Stream};
use winnow_tree::TreeError;
use winnow_views::Bits;

/// A tree is made at the input, with the text of a cause if there is one, and it lets another
/// alternative be tried.
pub fn made_tree_members<I: Stream + Copy, C: Drop>()
    ensures made { (input : I) (e : TreeError I C)
        → ⟦<TreeError<I, C> as ParserError<I>>⟧.from_input_gives input e → IsBase input None e }
    ensures misused { (input : I) (e : TreeError I C)
        → ⟦<TreeError<I, C> as ParserError<I>>⟧.assert_gives input e → IsBase input None e }
    ensures cut_short { (input : I) (needed : Needed) (e : TreeError I C)
        → ⟦<TreeError<I, C> as ParserError<I>>⟧.incomplete_gives input needed e
        → IsBase input None e }
    ensures caused { (input : I) (cause : _) (e : TreeError I C)
        → ⟦<TreeError<I, C> as FromExternalError<I, String>>⟧.from_external_gives input cause e
        → IsBase input (Some (string_bytes cause)) e }
    ensures backtracks { (e : TreeError I C)
        → ⟦<TreeError<I, C> as ParserError<I>>⟧.backtracks e ≡ true }
    ensures inner { (e : TreeError I C) → ⟦<TreeError<I, C> as ParserError<I>>⟧.inner e ≡ Ok e }
    ensures needs { (e : TreeError I C) → ⟦<TreeError<I, C> as ParserError<I>>⟧.needs e ≡ None }
    ensures recovered { (start place : I.Checkpoint) (input : I) (e : TreeError I C)
        → ⟦<TreeError<I, C> as FromRecoverableError<I, TreeError<I, C>>>⟧.recovered start place
        input e ≡ e }
{}

/// A tree grows by a frame at the input as it stood at the start of a parser. Two trees are joined
/// to one with the entries of both.
pub fn grown_tree_members<I: Stream + Copy, C: Drop>()
    ensures appended { (e r : TreeError I C) (input : I) (start : I.Checkpoint)
        → ⟦<TreeError<I, C> as ParserError<I>>⟧.append_gives e input start r
        → PushedAt I.remaining I.location I.valid I.keeps input (I.remained start)
        (I.Checkpoint.location start) (λ at. kind at None) (tree_contents e) r }
    ensures told { (e r : TreeError I C) (input : I) (start : I.Checkpoint) (about : C)
        → ⟦<TreeError<I, C> as AddContext<I, C>>⟧.add_context_gives e input start about r
        → PushedAt I.remaining I.location I.valid I.keeps input (I.remained start)
        (I.Checkpoint.location start) (λ at. context at about) (tree_contents e) r }
    ensures both { (a b r : TreeError I C)
        → ⟦<TreeError<I, C> as ParserError<I>>⟧.or_gives a b r
        → alternatives r ≡ Some (entries_of_both a b (alternatives a) (alternatives b)) }
{}

/// An error at bytes becomes one at all of their bits. An error at bits becomes one at their bytes,
/// wherever in the first byte the bits began.
pub fn converted_members<I: Drop, C: Drop>()
    ensures to_bits { (e : InputError I) (r : InputError (Bits I))
        → ⟦<InputError<I> as ErrorConvert<InputError<Bits<I>>>>⟧.convert_gives e r
        → (bits_inner r.input ≡ e.input) × (bits_place r.input ≡ 0) }
    ensures bits_granted { ⟦<InputError<I> as ErrorConvert<InputError<Bits<I>>>>⟧.convert_refusable
        → ⊥ }
    ensures to_bytes { (e : InputError (Bits I)) (r : InputError I)
        → ⟦<InputError<Bits<I>> as ErrorConvert<InputError<I>>>⟧.convert_gives e r
        → r.input ≡ bits_inner e.input }
    ensures bytes_granted { ⟦<InputError<Bits<I>> as ErrorConvert<InputError<I>>>⟧.convert_refusable
        → ⊥ }
    ensures tree_to_bits { (e : TreeError I C) (r : TreeError (Bits I) C)
        → ⟦<TreeError<I, C> as ErrorConvert<TreeError<Bits<I>, C>>>⟧.convert_gives e r
        → TreeMaps (λ i j. (bits_inner j ≡ i) × (bits_place j ≡ 0)) (tree_contents e)
        (tree_contents r) }
    ensures tree_to_bytes { (e : TreeError (Bits I) C) (r : TreeError I C)
        → ⟦<TreeError<Bits<I>, C> as ErrorConvert<TreeError<I, C>>>⟧.convert_gives e r
        → TreeMaps (λ i j. j ≡ bits_inner i) (tree_contents e) (tree_contents r) }
{}
