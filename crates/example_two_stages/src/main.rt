//! A parser in two stages: `example_lexer` makes the tokens of a formula, and the grammar here
//! reads a tree from them, each node with its range in the source. An error is printed with the
//! line of the source and a caret.
//!
//! The program reads texts from standard input, with an empty line between them. Each is a formula,
//! after a label that ends with a colon, if it has one.
#![tactic(auto)]

mod formula;
mod reading;
mod signs;
mod tree;

use crate::reading::read_formula;
use crate::tree::Tree;
use std::io::{self, Read};

fn main(rt: HostRuntime) -> io::Result<()> {
    let mut input = String::new(rt.alloc());
    rt.stdin().read_to_string(&mut input)?;
    for source in input.split_inclusive("\n\n") {
        print_formula(&rt, source)?;
    }
    Ok(())
}

// Prints the tree of the formula after the label, or what is wrong with it.
fn print_formula(rt: &(impl Print + AllocGlobal), source: &str) -> io::Result<()> {
    let start = match source.find(':') {
        Some(colon) => (colon + 1).min(source.len()),
        None => 0,
    };
    println!(rt; "{}", source.trim_end())?;
    match read_formula(rt.alloc(), source, start)? {
        Ok(tree) => print_tree(rt, source, &tree, 1),
        Err(error) => println!(rt; "{error}"),
    }
}

// Prints a node on a line, indented by its depth, and those inside it.
fn print_tree(rt: &impl Print, source: &str, tree: &Tree, depth: usize) -> io::Result<()> {
    for _ in 0..depth {
        print!(rt; "  ")?;
    }
    let deeper = depth.saturating_add(1);
    let span = tree.span();
    let (start, end) = (span.start, span.end);
    print!(rt; "{start}..{end} ")?;
    match tree {
        Tree::Number(_) | Tree::Name(_) => println!(rt; "{}", source.get(span).unwrap_or("")),
        Tree::Group(_, inside) => {
            println!(rt; "()")?;
            print_tree(rt, source, inside, deeper)
        }
        Tree::Negative(_, inside) => {
            println!(rt; "-")?;
            print_tree(rt, source, inside, deeper)
        }
        Tree::Binary(_, operator, left, right) => {
            println!(rt; "{operator}")?;
            print_tree(rt, source, left, deeper)?;
            print_tree(rt, source, right, deeper)
        }
    }
}
