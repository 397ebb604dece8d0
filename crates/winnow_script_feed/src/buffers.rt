//! `forget_bytes` and `forget_text`, which drop a prefix of the kept input.

ghost use Rattle.std.specs.Prelude.{◌≡◌, ◌≤◌, drop, IsTrue, vec_len};
ghost use Rattle.std.specs.String.{string_bytes};
ghost use Rattle.std.specs.String.Boundary.{IsSplitPoint};
ghost use Rattle.winnow_stream.specs.Source.{units};
ghost use Rattle.winnow_stream.specs.Front.{is_offset, back};
ghost use Rattle.winnow_stream.specs.Text.{text_source};

// Drops the first n bytes.
fn drop_bytes(kept: &mut Vec<u8>, n: usize)
    requires { n ≤ vec_len kept.old }
    ensures { kept.new.items ≡ drop n kept.old.items }
{
    // A waiting step drops nothing, so nothing need be copied onto itself.
    if n == 0 {
        return;
    }
    let len = kept.len();
    kept.copy_within(n..len, 0);
    kept.truncate(len - n);
}

/// Drops the front of width n, and keeps the capacity.
pub(crate) fn forget_bytes(kept: &mut Vec<u8>, n: usize)
    requires { IsTrue (is_offset (units kept.old.items) n) }
    ensures items { kept.new.items ≡ drop n kept.old.items }
    ensures source { units kept.new.items ≡ back (units kept.old.items) n }
{
    drop_bytes(kept, n);
}

// Drops the first n bytes of a text.
fn drop_front(kept: &mut String, n: usize)
    requires { IsSplitPoint (string_bytes kept.old) n }
    ensures { string_bytes kept.new ≡ drop n (string_bytes kept.old) }
{
    // A waiting step copies nothing, as above.
    if n == 0 {
        return;
    }
    match kept.replace_range(..n, "") {
        Ok(()) => {}
        Err(_) => unreachable!(),
    }
}

/// Drops the front of width n, and keeps the capacity.
pub(crate) fn forget_text(kept: &mut String, n: usize)
    requires { IsTrue (is_offset (text_source (string_bytes kept.old)) n) }
    ensures bytes { string_bytes kept.new ≡ drop n (string_bytes kept.old) }
    ensures source { text_source (string_bytes kept.new)
        ≡ back (text_source (string_bytes kept.old)) n }
{
    drop_front(kept, n);
}
