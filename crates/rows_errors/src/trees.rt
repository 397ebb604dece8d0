//! Texts of trees of errors and of their parts, at texts, at texts that the tree owns, and at the
//! lengths of these.
use crate::made::{TextStream, made, texts};
use crate::printed::quoted;
use rows::{Fault, Words};
use std::alloc::{AllocError, Global};
use winnow_error::ErrMode::Backtrack;
use winnow_error::{
    AddContext, ErrMode, FromExternalError, FromRecoverableError, OrTree, ParserError,
};
use winnow_error_context::StrContext;
use winnow_tree::{TreeError, TreeErrorBase, TreeErrorContext, combine_trees};

type Tree<'w> = TreeError<&'w str, StrContext>;

fn width_of(text: String) -> usize {
    text.len()
}

// Returns the text of a tree, as the question asks for it.
fn text(alloc: Global, question: &str, tree: Tree<'_>) -> Result<String, AllocError> {
    match question {
        "into_owned" => tree.into_owned(alloc)?.text(alloc),
        "map_input" => tree
            .into_owned(alloc)?
            .map_input(alloc, width_of)?
            .text(alloc),
        _ => tree.text(alloc),
    }
}

// What a row asks of a tree, in a trait so that the words are read for any error.
trait Told: Sized {
    fn told(self, alloc: Global, question: &str) -> Result<String, Fault>;

    fn told_together(alloc: Global, errors: OrTree<ErrMode<Self>>) -> Result<String, Fault>;
}

impl<'w> Told for TreeError<&'w str, StrContext> {
    fn told(self, alloc: Global, question: &str) -> Result<String, Fault> {
        Ok(text(alloc, question, self)?)
    }

    fn told_together(alloc: Global, errors: OrTree<ErrMode<Self>>) -> Result<String, Fault> {
        match combine_trees(alloc, errors)? {
            Backtrack(tree) => Ok(text(alloc, "text", tree)?),
            _ => Err(Fault::NoSuchCall),
        }
    }
}

// Returns the text of the tree, or of the alternatives, that the words make.
fn ask<I, E>(alloc: Global, question: &str, input: &Words, texts: &[I]) -> Result<String, Fault>
where
    I: TextStream,
    E: ParserError<I> + AddContext<I, StrContext> + Told,
    E: FromExternalError<I, String> + FromRecoverableError<I, E>,
{
    let mut parts = made::<I, E>(alloc, input, texts)?;
    if question == "combine_trees" {
        return E::told_together(alloc, parts.tree()?);
    }
    parts.error()?.told(alloc, question)
}

// Returns the text of a base at an input with a cause, as the question asks for it.
fn base_text(alloc: Global, question: &str, input: &Words) -> Result<String, Fault> {
    let cause = match input.text(1) {
        Ok(cause) => Some(String::from_str(alloc, cause)?),
        Err(_) => None,
    };
    let base = TreeErrorBase {
        input: input.text(0)?,
        cause,
    };
    Ok(match question {
        "into_owned" => base.into_owned(alloc)?.text(alloc)?,
        "map_input" => base.into_owned(alloc)?.map_input(width_of).text(alloc)?,
        _ => base.text(alloc)?,
    })
}

// Returns the text of a context at an input, as the question asks for it.
fn context_text(alloc: Global, question: &str, input: &Words) -> Result<String, Fault> {
    let told = TreeErrorContext {
        input: input.text(0)?,
        context: StrContext::Label("digits"),
    };
    Ok(match question {
        "into_owned" => told.into_owned(alloc)?.text(alloc)?,
        "map_input" => told.into_owned(alloc)?.map_input(width_of).text(alloc)?,
        _ => told.text(alloc)?,
    })
}

/// Answers a question about a tree or about one of its parts.
pub fn answer(alloc: Global, family: &str, question: &str, input: &Words) -> Result<String, Fault> {
    let texts = texts(alloc, input)?;
    let texts = texts.as_slice();
    let text = match (family, question) {
        ("base", question) => base_text(alloc, question, input)?,
        ("context", question) => context_text(alloc, question, input)?,
        (_, question) => ask::<&str, Tree>(alloc, question, input, texts)?,
    };
    Ok(quoted(alloc, text.as_str())?)
}
