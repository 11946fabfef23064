//! A trace that is made line by line.
ghost use Rattle.std.specs.Prelude.{◌≡◌, ◌++◌, [], IfOk, OnOk};
ghost use Rattle.trace_reader.specs.Steps.{IsReading};
ghost use Rattle.trace_gen.specs.Said.{none_said, said_by, with_line, IsGood};
ghost use Rattle.trace_gen.specs.TraceText.{line_text};

use crate::writing::push_line;
use std::alloc::{AllocError, Global};
use trace_reader::{Form, Reader};

/// The lines so far: their text, and what they say.
#[derive(Drop)]
pub struct Draft {
    pub text: Vec<u8>,
    pub reader: Reader,
    /// The number of the next line.
    line: u32,
}

impl Draft {
    /// No lines.
    pub fn new(alloc: Global) -> Result<Self, AllocError>
        ensures text { IfOk result (λ draft. draft.text.items ≡ []) }
        ensures said { IfOk result (λ draft. said_by draft ≡ none_said) }
        ensures reading { IfOk result (λ draft. IsReading draft.reader) }
    {
        Ok(Draft {
            text: Vec::new(alloc),
            reader: Reader::new(alloc)?,
            line: 1,
        })
    }

    /// Appends the line that says this.
    pub fn push(&mut self, form: Form) -> Result<(), AllocError>
        requires good { IsGood (said_by self.old) form }
        requires reading { IsReading self.old.reader }
        ensures text { OnOk result (self.new.text.items ≡ self.old.text.items ++ line_text form) }
        ensures said { OnOk result (said_by self.new ≡ with_line (said_by self.old) form) }
        ensures reading { OnOk result (IsReading self.new.reader) }
    {
        push_line(&mut self.text, form)?;
        self.reader.add(self.line, form)?;
        self.line += 1;
        Ok(())
    }
}
