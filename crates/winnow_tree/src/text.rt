//! The texts of trees of errors and of their parts.

ghost use Rattle.std.specs.Prelude.{◌≡◌, [], IfOk, IfSome, OnOk, string_bytes};
ghost use Rattle.std.specs.Fmt.{AppendsText};
ghost use Rattle.winnow_tree.specs.TreeText.{at_text, base_text, told_text, frame_text, frame_line};
ghost use Rattle.winnow_tree.specs.TreeText.{frames_text, tree_text};

use crate::abbreviation::write_abbreviated;
use crate::{TreeError, TreeErrorBase, TreeErrorContext, TreeErrorFrame};
use std::alloc::{AllocError, Global};
use std::fmt::Display;

fn write_at<I: Display>(alloc: Global, out: &mut String, input: &I) -> Result<(), AllocError>
    ensures { OnOk result (AppendsText (string_bytes out.old) (string_bytes out.new)
        (at_text I.output input.now)) }
{
    let shown = format!(in alloc; "{input}")?;
    write!(out, " at '")?;
    write_abbreviated(out, shown.as_str())?;
    write!(out, "'")
}

fn write_base<I: Display>(
    alloc: Global,
    out: &mut String,
    base: &TreeErrorBase<I>,
) -> Result<(), AllocError>
    ensures { OnOk result (AppendsText (string_bytes out.old) (string_bytes out.new)
        (base_text I.output base.now)) }
{
    if let Some(cause) = &base.cause {
        write!(out, "caused by {cause}")?;
    }
    write_at(alloc, out, &base.input)
}

fn write_told<I: Display, C: Display>(
    alloc: Global,
    out: &mut String,
    told: &TreeErrorContext<I, C>,
) -> Result<(), AllocError>
    ensures { OnOk result (AppendsText (string_bytes out.old) (string_bytes out.new)
        (told_text I.output C.output told.now)) }
{
    let context = &told.context;
    write!(out, "{context}")?;
    write_at(alloc, out, &told.input)
}

fn write_frame<I: Display, C: Display>(
    alloc: Global,
    out: &mut String,
    frame: &TreeErrorFrame<I, C>,
) -> Result<(), AllocError>
    ensures { OnOk result (AppendsText (string_bytes out.old) (string_bytes out.new)
        (frame_text I.output C.output frame.now)) }
{
    match frame {
        TreeErrorFrame::Kind(base) => write_base(alloc, out, base),
        TreeErrorFrame::Context(told) => write_told(alloc, out, told),
    }
}

fn write_frame_line<I: Display, C: Display>(
    alloc: Global,
    out: &mut String,
    indent: &str,
    level: usize,
    frame: &TreeErrorFrame<I, C>,
) -> Result<(), AllocError>
    ensures { OnOk result (AppendsText (string_bytes out.old) (string_bytes out.new)
        (frame_line I.output C.output indent.now level frame.now)) }
{
    write!(out, "{indent}  {level}: ")?;
    write_frame(alloc, out, frame)?;
    out.push('\n')?;
    Ok(())
}

fn write_frames<I: Display, C: Display>(
    alloc: Global,
    out: &mut String,
    indent: &str,
    frames: &[TreeErrorFrame<I, C>],
) -> Result<(), AllocError>
    ensures { OnOk result (AppendsText (string_bytes out.old) (string_bytes out.new)
        (frames_text I.output C.output indent.now 0 frames.now)) }
{
    for (level, frame) in frames.iter().enumerate() {
        write_frame_line(alloc, out, indent, level, frame)?;
    }
    Ok(())
}

fn write_tree<I: Display, C: Display>(
    alloc: Global,
    out: &mut String,
    indent: &str,
    tree: &TreeError<I, C>,
) -> Result<(), AllocError>
    ensures { OnOk result (AppendsText (string_bytes out.old) (string_bytes out.new)
        (tree_text I.output C.output tree.now indent.now)) }
{
    match tree {
        TreeError::Base(base) => {
            out.push_str(indent)?;
            write_base(alloc, out, base)?;
            out.push('\n')?;
            Ok(())
        }
        TreeError::Stack { base, stack } => {
            write_tree(alloc, out, indent, base)?;
            write_frames(alloc, out, indent, stack)
        }
        TreeError::Alt(entries) => {
            write!(out, "{indent}during one of:\n")?;
            let further = format!(in alloc; "{indent}  ")?;
            for entry in entries {
                write_tree(alloc, out, further.as_str(), entry)?;
            }
            Ok(())
        }
    }
}

impl<I: Display> TreeErrorBase<I> {
    /// Returns the text of the error: the cause, if there is one, and the front of the input.
    pub fn text(&self, alloc: Global) -> Result<String, AllocError>
        ensures { IfOk result (λ s. IfSome (base_text I.output self.now)
            (λ text. string_bytes s ≡ text)) }
    {
        let mut out = String::new(alloc);
        write_base(alloc, &mut out, self)?;
        Ok(out)
    }
}

impl<I: Display, C: Display> TreeErrorContext<I, C> {
    /// Returns the text of what was being read, and the front of the input.
    pub fn text(&self, alloc: Global) -> Result<String, AllocError>
        ensures { IfOk result (λ s. IfSome (told_text I.output C.output self.now)
            (λ text. string_bytes s ≡ text)) }
    {
        let mut out = String::new(alloc);
        write_told(alloc, &mut out, self)?;
        Ok(out)
    }
}

impl<I: Display, C: Display> TreeError<I, C> {
    /// Returns the error as lines of text, each of which ends with a newline.
    pub fn text(&self, alloc: Global) -> Result<String, AllocError>
        ensures { IfOk result (λ s. IfSome (tree_text I.output C.output self.now [])
            (λ text. string_bytes s ≡ text)) }
    {
        let mut out = String::new(alloc);
        write_tree(alloc, &mut out, "", self)?;
        Ok(out)
    }
}
