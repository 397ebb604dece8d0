//! `read_tree`, which reads a tree to a limit on depth, and `TreeTo`, its parser.

ghost use Rattle.std.specs.Prelude.{◌≡◌, ◌-◌, ◌<◌};
ghost use Rattle.winnow_parser.specs.Outcome.{Moves};
ghost use Rattle.winnow_parser.specs.Answer.{ahead, outcome};
ghost use Rattle.winnow_parser.specs.Errors.{AnyError};
ghost use Rattle.example_nested.specs.Answers.{IsAnswer, MissesNone};
ghost use Rattle.example_nested.specs.Nested.{Leaf, Around, Nested, IsParser-Nested};

use crate::Tree;
use std::alloc::Global;
use winnow_combinator::{CutErr, Delimited, cut_err, delimited, empty, repeat};
use winnow_error::ParserError;
use winnow_grammar::{Rule, by_rule};
use winnow_parser::{ModalResult, Parser};
use winnow_sets::AsChar;
use winnow_stream::StreamIsPartial;
use winnow_token::{OneOf, one_of};

// Returns the parser of what another reads between brackets. It cuts where the closing one is
// missing.
fn bracketed<P>(inner: P) -> Delimited<OneOf<char>, P, CutErr<OneOf<char>>>
    ensures { result ≡ record {
      first = record { set = 91 };
      second = record { first = inner; second = record { inner = record { set = 93 } } };
    } }
{
    delimited(one_of('['), inner, cut_err(one_of(']')))
}

// Reads a tree without branches.
fn read_leaf<I: StreamIsPartial, E: ParserError<I>>(
    alloc: Global,
    input: &mut I,
) -> ModalResult<Tree, E>
where
    I::Token: AsChar + Copy,
    requires { I.valid input.old }
    ensures means { Leaf I.Token.code (I.expects_more input.old)
        (ahead I.location I.remaining input.old)
        (outcome result (ahead I.location I.remaining input.new)) }
    ensures onward { Moves (ahead I.location I.remaining input.old)
        (ahead I.location I.remaining input.new) }
    ensures valid { I.valid input.new }
    ensures kept { I.keeps input.old input.new }
{
    bracketed(empty()).parse_next(alloc, input)?;
    Ok(Tree {
        branches: Vec::new(alloc),
    })
}

// Reads a tree whose branches the inner parser reads.
fn read_around<I: StreamIsPartial, E: ParserError<I>, P: Parser<I, E, Output = Tree> + Drop>(
    alloc: Global,
    input: &mut I,
    inner: P,
) -> ModalResult<Tree, E>
where
    I::Token: AsChar + Copy,
    requires ready { P.ready inner }
    requires valid { I.valid input.old }
    ensures means { Around I.Token.code (P.means inner) (I.expects_more input.old)
        (ahead I.location I.remaining input.old)
        (outcome result (ahead I.location I.remaining input.new)) }
    ensures onward { Moves (ahead I.location I.remaining input.old)
        (ahead I.location I.remaining input.new) }
    ensures valid { I.valid input.new }
    ensures kept { I.keeps input.old input.new }
{
    match bracketed(repeat(0.., inner)).parse_next(alloc, input) {
        Ok(branches) => Ok(Tree { branches }),
        Err(failure) => Err(failure),
    }
}

/// The parser of a tree of at most this depth: inside its own brackets, at most `depth` others are
/// open at once. The parser cuts at a deeper tree.
#[derive(Clone, Copy, Debug, Drop)]
pub struct TreeTo {
    /// The greatest depth
    pub depth: usize,
}

impl<I: StreamIsPartial> Rule<I> for TreeTo
where
    I::Token: AsChar,
{
    type Output = Tree;

    ghost meaning = { λ rule. Nested I.Token.code rule.depth };

    ghost lawful = { λ rule. IsParser-Nested I.Token.code rule.depth };
}

impl<I: StreamIsPartial, E: ParserError<I>> Parser<I, E> for TreeTo
where
    I::Token: AsChar + Copy,
{
    type Output = Tree;

    ghost means = { λ p. Nested I.Token.code p.depth };

    ghost errors = { λ _. AnyError };

    ghost ready = { λ _. Unit {0} };

    ghost lawful = { λ p. IsParser-Nested I.Token.code p.depth };

    fn parse_next(&self, alloc: Global, input: &mut I) -> ModalResult<Tree, E> {
        read_nested(alloc, input, self.depth)
    }
}

// Reads a tree of at most this depth. It passes itself on, as the parser of the branches, in a
// closure whose contract is its own with one level less. The checker asks that `Inner` has a name.
#[cycle(tree)]
fn read_nested<I: StreamIsPartial, X, E: ParserError<I, Inner = X>>(
    alloc: Global,
    input: &mut I,
    depth: usize,
) -> ModalResult<Tree, E>
where
    I::Token: AsChar + Copy,
    requires { I.valid input.old }
    ensures means { Nested I.Token.code depth (I.expects_more input.old)
        (ahead I.location I.remaining input.old)
        (outcome result (ahead I.location I.remaining input.new)) }
    ensures onward { Moves (ahead I.location I.remaining input.old)
        (ahead I.location I.remaining input.new) }
    ensures valid { I.valid input.new }
    ensures kept { I.keeps input.old input.new }
{
    if depth == 0 {
        return read_leaf(alloc, input);
    }
    let inner = |alloc: Global, input: &mut I| -> ModalResult<Tree, E>
        requires valid { I.valid input.old }
        requires deep { 0 < depth }
        ensures means { Nested I.Token.code (depth - 1) (I.expects_more input.old)
            (ahead I.location I.remaining input.old)
            (outcome result (ahead I.location I.remaining input.new)) }
        ensures onward { Moves (ahead I.location I.remaining input.old)
            (ahead I.location I.remaining input.new) }
        ensures valid { I.valid input.new }
        ensures kept { I.keeps input.old input.new }
    { read_nested(alloc, input, depth - 1) };
    let rule = TreeTo { depth: depth - 1 };
    read_around(alloc, input, by_rule(rule, inner))
}

/// Reads a tree of at most this depth from the front of a stream of bytes or characters.
///
/// It backtracks where no bracket opens. Where an open bracket is not closed, or one opens too
/// deep, it cuts, and the stream stands there.
pub fn read_tree<I: StreamIsPartial, E: ParserError<I>>(
    alloc: Global,
    input: &mut I,
    depth: usize,
) -> ModalResult<Tree, E>
where
    I::Token: AsChar + Copy,
    requires { I.valid input.old }
    ensures answer { IsAnswer I.Token.code depth (I.expects_more input.old) (I.remaining input.old)
        result (I.remaining input.new) }
    ensures onward { Moves (ahead I.location I.remaining input.old)
        (ahead I.location I.remaining input.new) }
    ensures complete { MissesNone I.Token.code depth (I.remaining input.old) result }
    ensures valid { I.valid input.new }
    ensures kept { I.keeps input.old input.new }
{
    TreeTo { depth }.parse_next(alloc, input)
}

#[cfg(test)]
mod tests {
    use super::*;
    use winnow_error::EmptyError;
    use winnow_parser::Failure;
    use winnow_stream::Stream;
    use winnow_wrap::Partial;

    // Returns the number of branches of the tree, or a letter for the failure, and the width of the
    // rest.
    fn told<I: StreamIsPartial + Drop>(alloc: Global, mut input: I, depth: usize) -> (char, usize)
    where
        I::Token: AsChar + Copy,
        requires { I.valid input }
    {
        let answer: ModalResult<Tree, EmptyError> = read_tree(alloc, &mut input, depth);
        let letter = match answer {
            Ok(tree) => match tree.branches.len() {
                0 => '0',
                1 => '1',
                2 => '2',
                _ => 'm',
            },
            Err(Failure::Backtrack(_)) => 'b',
            Err(Failure::Cut(_)) => 'c',
            Err(Failure::Incomplete(_)) => 'n',
            Err(Failure::Refused(_)) => 'r',
        };
        (letter, input.eof_offset())
    }

    const ROWS: &[(&str, usize, (char, usize))] = &[
        ("[]", 0, ('0', 0)),
        ("[[][[]]]?", 2, ('2', 1)),
        ("[[][[]]]?", 1, ('c', 5)),
        ("[[]", 2, ('c', 0)),
        ("[x]", 2, ('c', 2)),
        ("]", 2, ('b', 1)),
    ];

    #[test]
    fn trees_are_read_to_a_depth(rt: HostRuntime) {
        for (text, depth, answer) in ROWS {
            assert_eq!(rt; told(rt.alloc(), *text, *depth), *answer, "{text}");
            assert_eq!(rt;
                told(rt.alloc(), text.as_bytes(), *depth),
                *answer,
                "{text}"
            );
        }
    }

    #[test]
    fn a_piece_of_a_tree_needs_more(rt: HostRuntime) {
        assert_eq!(rt; told(rt.alloc(), Partial::new("[[][["), 2), ('n', 0));
        assert_eq!(rt; told(rt.alloc(), Partial::new("[[][[]]]"), 2), ('2', 0));
        assert_eq!(rt; told(rt.alloc(), Partial::new("[[][[]]]["), 2), ('2', 1));
    }
}
