//! `Path`: where the next value of a text stands.

ghost use Rattle.std.specs.Prelude.{◌≡◌, ◌+◌, IfOk};

use format_json_events::Event;
use std::alloc::{AllocError, Global};
use std::marker::Model;
use std::mem;

/// A step of a path.
#[derive(Debug, Drop)]
pub enum Step {
    /// To the value that the text is
    Root,
    /// To the element of an array with this index
    Element(usize),
    /// Into an object of which no name was read
    Inside,
    /// To the member of an object with this name
    Member(String),
}

/// The path of the next value of a text.
#[derive(Drop)]
pub struct Path {
    // The steps to the arrays and objects that are open, the outermost first.
    outer: Vec<Step>,
    // The step from there to the next value.
    here: Step,
}

impl Model for Path {
    ghost use Rattle.wb_json.specs.Paths.{Place};

    ghost Value = { Place };

    ghost view = { λ path. record { outer = path.outer.items; here = path.here } };
}

impl Path {
    ghost use Rattle.std.specs.Prelude.{◌≡◌, ◌++◌, ◌∷◌, [], OnOk, length};
    ghost use Rattle.wb_json.specs.Paths.{at_root, passed, entered, closed, moved};

    /// Returns the path of the value that a text is.
    pub fn root(alloc: Global) -> Path
        ensures { result ≡ at_root }
    {
        Path {
            outer: Vec::new(alloc),
            here: Step::Root,
        }
    }

    /// Returns the steps to the arrays and objects that are open, the outermost first.
    pub fn outer(&self) -> &[Step]
        ensures { result.now ≡ self.now.outer }
    {
        &self.outer
    }

    /// Returns the step from there to the next value.
    pub fn here(&self) -> &Step
        ensures { result.now ≡ self.now.here }
    {
        &self.here
    }

    /// Moves past an event.
    pub fn follow(&mut self, event: Event) -> Result<(), AllocError>
        ensures { OnOk result (self.new ≡ moved self.old event) }
    {
        match event {
            Event::StartArray => self.enter(Step::Element(0)),
            Event::StartObject => self.enter(Step::Inside),
            Event::EndArray => self.leave(),
            Event::EndObject => self.leave(),
            Event::Key(name) => {
                self.here = Step::Member(name);
                Ok(())
            }
            _ => self.pass(),
        }
    }

    // Moves into an array or an object.
    fn enter(&mut self, first: Step) -> Result<(), AllocError>
        ensures { OnOk result (self.new ≡ entered self.old first) }
    {
        let here = mem::replace(&mut self.here, first);
        self.outer.push(here)?;
        Ok(())
    }

    // Moves past the innermost array or object.
    fn leave(&mut self) -> Result<(), AllocError>
        ensures { OnOk result (self.new ≡ closed self.old) }
    {
        self.here = match self.outer.pop() {
            Some(step) => step,
            None => Step::Root,
        };
        self.pass()
    }

    // Moves past a value.
    fn pass(&mut self) -> Result<(), AllocError>
        ensures { OnOk result (self.new ≡ passed self.old) }
    {
        if let Step::Element(index) = &mut self.here {
            *index = next_index(*index)?;
        }
        Ok(())
    }
}

// Returns the next index. Each element takes a byte of the input, so there are no more than can be
// counted.
fn next_index(index: usize) -> Result<usize, AllocError>
    ensures { IfOk result (λ next. next ≡ index + 1) }
{
    match index.checked_add(1) {
        Some(next) => Ok(next),
        None => Err(AllocError),
    }
}
