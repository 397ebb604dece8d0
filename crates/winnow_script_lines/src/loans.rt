//! `lend_steps`, which lends the steps of a script to a run.

ghost use Rattle.std.specs.Prelude.{IfOk};
ghost use Rattle.std.specs.List.{AllZip};
ghost use Rattle.winnow_script_lines.specs.Loans.{AreSameNeedles, IsSameStep};

use crate::contents::Lend;
use crate::steps::ScriptStep;
use std::alloc::{AllocError, Global};
use winnow_match::Needles;
use winnow_script_run::{SearchStep, Step};
use winnow_sets::CharSet;

/// Returns the steps of a script in the form that a run takes.
pub fn lend_steps<'k, L: Lend<'k>>(
    alloc: Global,
    steps: &'k [ScriptStep<'k, L>],
) -> Result<Vec<SearchStep<CharSet<'k>, L::Lent>>, AllocError>
    ensures { IfOk result (λ lent. AllZip (IsSameStep L.bytes L.lent_bytes) steps.now lent.items) }
{
    let mut lent = Vec::with_capacity(alloc, steps.len())?;
    for step in steps {
        lent.push(lend_step(step))?;
    }
    Ok(lent)
}

fn lend_step<'k, L: Lend<'k>>(step: &'k ScriptStep<'k, L>) -> SearchStep<CharSet<'k>, L::Lent>
    ensures { IsSameStep L.bytes L.lent_bytes step.now result }
{
    match step {
        ScriptStep::Call(call) => SearchStep::Call(*call),
        ScriptStep::First(ranges) => SearchStep::Call(Step::First(CharSet::new(ranges.as_slice()))),
        ScriptStep::Compare(literal) => SearchStep::Compare(literal.lend()),
        ScriptStep::Find(needles) => SearchStep::Find(lend_needles(needles)),
    }
}

fn lend_needles<'k, L: Lend<'k>>(needles: &'k Needles<L>) -> Needles<L::Lent>
    ensures { AreSameNeedles L.bytes L.lent_bytes needles.now result }
{
    match needles {
        Needles::One(first) => Needles::One(first.lend()),
        Needles::Two(first, second) => Needles::Two(first.lend(), second.lend()),
        Needles::Three(first, second, third) => {
            Needles::Three(first.lend(), second.lend(), third.lend())
        }
    }
}
