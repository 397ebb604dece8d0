//! What readers of formats share: the bytes that stand at the front of a parser, as lists, and
//! lemmas from the meanings of parsers of bytes to these lists.
//!
//! Nothing here runs. The definitions stand in `specs/Bytes.antt`, the lemmas in `proofs/lemmas/`.
//! `format_csv`, `format_json` and `format_resp` use them, and so can a format of your own.
#![tactic(auto)]
