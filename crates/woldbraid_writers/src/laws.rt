//! The laws of texts: what the calls for a whole JSON text write, those for a record, and those
//! for a reply.

ghost use Rattle.std.specs.Prelude.{◌≡◌, ℕ, true, List, [], ◌∷◌, ◌++◌};
ghost use Rattle.std.specs.List.{All};
ghost use Rattle.format_csv.specs.Writing.{written_record};
ghost use Rattle.format_resp.specs.Writing.{written, is_writable};
ghost use Rattle.woldbraid_writers.specs.Drafts.{Call, Draft, new_draft};
ghost use Rattle.woldbraid_writers.specs.Texts.{Passage, Leads, IsText, whole_draft, preceded};
ghost use Rattle.woldbraid_writers.specs.Replies.{IsWritable};
ghost use Rattle.woldbraid_writers.specs.WholeReplies.{parts_of, parts_text};
ghost use Rattle.format_resp.specs.declared.reply.Reply.{Reply};
ghost use Rattle.woldbraid_writers.specs.declared.due.Due.TheVariants.{Nothing};
ghost use Rattle.woldbraid_writers.specs.Records.{after_entries, entries_of, ended_table};

/// The law of records: after the calls for the fields of a record and for its end, what was written
/// is what it was and then the record, with CR LF after it, as
/// [`write_record`](format_csv::write_record) writes it. A law does nothing when called: its
/// contract is the law.
pub fn record_law()
    ensures { (text field : List ℕ) (fields : List (List ℕ))
        → after_entries (ended_table text) (entries_of (field ∷ fields))
        ≡ ended_table (text ++ (written_record (field ∷ fields) ++ 13 ∷ 10 ∷ [])) }
{}

/// The law of JSON texts: calls that may come one after the other, and lead to a text that is
/// whole, have written one value, within the limit on depth; the calls of each such value may come,
/// and write it; and what is dropped between two calls changes neither which calls may come nor
/// what they write. A law does nothing when called: its contract is the law.
///
/// Names of an object that are the same are no fault.
pub fn whole_text_law()
    ensures whole { (depth : ℕ) (calls : List Call) (d : Draft) → Leads (new_draft depth) calls d
        → d.due ≡ Nothing → IsText depth (record { calls = calls; text = d.text }) }
    ensures comes { (depth : ℕ) (p : Passage) → IsText depth p
        → Leads (new_draft depth) p.calls (whole_draft depth p.text) }
    ensures dropped { (kept : List ℕ) (d e : Draft) (calls : List Call) → Leads d calls e
        → Leads (preceded kept d) calls (preceded kept e) }
{}

/// The law of replies: the calls for a reply, an array by its head and then its replies, write it
/// as [`write_reply`](format_resp::write_reply) does; and where that can write it, none of the
/// calls is refused for a line end. A law does nothing when called: its contract is the law.
pub fn whole_reply_law()
    ensures text { (r : Reply) → parts_text (parts_of r) ≡ written r }
    ensures writable { (r : Reply) → is_writable r ≡ true → All IsWritable (parts_of r) }
{}
