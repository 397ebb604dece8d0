//! The parts of an error that nested words write, read from the last word to the first: so the
//! parts of a call are there when its name comes.
use rows::Fault;
use std::alloc::{AllocError, Global};
use winnow_error::{ErrMode, OrTree};
use winnow_error_context::{StrContext, StrContextValue};
use winnow_stream::Needed;

/// What words have made.
#[derive(Drop)]
pub enum Part<I, E> {
    Text(I),
    Sign(char),
    Number(usize),
    Needed(Needed),
    Value(StrContextValue),
    Context(StrContext),
    Cause(I),
    Error(E),
    Mode(ErrMode<E>),
    Tree(OrTree<ErrMode<E>>),
}

/// The parts that no call has taken yet, the first of them last.
#[derive(Drop)]
pub struct Parts<I, E> {
    alloc: Global,
    parts: Vec<Part<I, E>>,
}

// The texts of contexts: a context holds a text that lives as long as the program.
const NAMES: &[&str] = &[
    "", "`", "a", "a digit", "abc", "b", "d", "digits", "number", "two", "word", "x",
];

/// Returns the name as a text that lives as long as the program.
pub fn name(text: &str) -> Result<&'static str, Fault> {
    for name in NAMES {
        if *name == text {
            return Ok(*name);
        }
    }
    Err(Fault::NoSuchCall)
}

impl<I: Copy, E: Drop> Parts<I, E> {
    pub fn new(alloc: Global) -> Self {
        Parts {
            alloc,
            parts: Vec::new(alloc),
        }
    }

    pub fn alloc(&self) -> Global {
        self.alloc
    }

    pub fn is_empty(&self) -> bool {
        self.parts.is_empty()
    }

    /// Adds a part.
    pub fn put(&mut self, part: Part<I, E>) -> Result<(), Fault> {
        match self.parts.push(part) {
            Ok(()) => Ok(()),
            Err(_) => Err(Fault::OutOfMemory),
        }
    }

    /// Takes the next part, which must be a text.
    pub fn text(&mut self) -> Result<I, Fault> {
        match self.parts.pop() {
            Some(Part::Text(text)) => Ok(text),
            _ => Err(Fault::NoSuchCall),
        }
    }

    /// Takes the next part, which must be a number.
    pub fn number(&mut self) -> Result<usize, Fault> {
        match self.parts.pop() {
            Some(Part::Number(number)) => Ok(number),
            _ => Err(Fault::NoSuchCall),
        }
    }

    /// Takes the next part, which must be a shortage.
    pub fn needed(&mut self) -> Result<Needed, Fault> {
        match self.parts.pop() {
            Some(Part::Needed(needed)) => Ok(needed),
            _ => Err(Fault::NoSuchCall),
        }
    }

    /// Takes the next part, which must be a context.
    pub fn context(&mut self) -> Result<StrContext, Fault> {
        match self.parts.pop() {
            Some(Part::Context(context)) => Ok(context),
            _ => Err(Fault::NoSuchCall),
        }
    }

    /// Takes the next part, which must be a cause or a context.
    pub fn context_or_cause(&mut self) -> Result<Result<StrContext, I>, Fault> {
        match self.parts.pop() {
            Some(Part::Context(context)) => Ok(Ok(context)),
            Some(Part::Cause(cause)) => Ok(Err(cause)),
            _ => Err(Fault::NoSuchCall),
        }
    }

    /// Takes the next part, which must be a value that was expected.
    pub fn value(&mut self) -> Result<StrContextValue, Fault> {
        match self.parts.pop() {
            Some(Part::Value(value)) => Ok(value),
            _ => Err(Fault::NoSuchCall),
        }
    }

    /// Takes the next part, which must be an error.
    pub fn error(&mut self) -> Result<E, Fault> {
        match self.parts.pop() {
            Some(Part::Error(error)) => Ok(error),
            _ => Err(Fault::NoSuchCall),
        }
    }

    /// Takes the next part, which must be a mode of an error.
    pub fn mode(&mut self) -> Result<ErrMode<E>, Fault> {
        match self.parts.pop() {
            Some(Part::Mode(mode)) => Ok(mode),
            _ => Err(Fault::NoSuchCall),
        }
    }

    /// Takes the next part, which must be a group of alternatives.
    pub fn tree(&mut self) -> Result<OrTree<ErrMode<E>>, Fault> {
        match self.parts.pop() {
            Some(Part::Tree(tree)) => Ok(tree),
            _ => Err(Fault::NoSuchCall),
        }
    }

    // Makes a character that was expected.
    fn make_character(&mut self) -> Result<StrContextValue, Fault> {
        match self.parts.pop() {
            Some(Part::Sign(sign)) => Ok(StrContextValue::CharLiteral(sign)),
            _ => Err(Fault::NoSuchCall),
        }
    }

    // Joins two groups of alternatives.
    fn make_both(&mut self) -> Result<OrTree<ErrMode<E>>, Fault> {
        let (first, second) = (self.tree()?, self.tree()?);
        Ok(both(self.alloc, first, second)?)
    }

    /// Makes the part that the name calls for, of the parts after it. The name is none of a call of
    /// errors, and of none that takes a text.
    pub fn make(&mut self, call: &str) -> Result<(), Fault> {
        let part = match call {
            "Unknown" => Part::Needed(Needed::Unknown),
            "Size" => Part::Needed(Needed::new(self.number()?)),
            "CharLiteral" => Part::Value(self.make_character()?),
            "Expected" => Part::Context(StrContext::Expected(self.value()?)),
            "Incomplete" => Part::Mode(ErrMode::Incomplete(self.needed()?)),
            "Backtrack" => Part::Mode(ErrMode::Backtrack(self.error()?)),
            "Cut" => Part::Mode(ErrMode::Cut(self.error()?)),
            "One" => Part::Tree(OrTree::One(self.mode()?)),
            "Both" => Part::Tree(self.make_both()?),
            call => match call.parse::<usize>() {
                Ok(number) => Part::Number(number),
                Err(_) => return Err(Fault::NoSuchCall),
            },
        };
        self.put(part)
    }
}

// Returns two groups of alternatives, joined.
fn both<E: Drop>(
    alloc: Global,
    first: OrTree<E>,
    second: OrTree<E>,
) -> Result<OrTree<E>, AllocError> {
    let first = Box::new(alloc, first)?;
    let second = Box::new(alloc, second)?;
    Ok(OrTree::Both(first, second))
}
