// Code that is being written, line by line, with a refusal of memory kept to its end.

ghost use Rattle.std.specs.Prelude.{◌≡◌, ◌+◌, ◌-◌, ◌<◌, ◌^◌, [], ◌∷◌, List, false, length, map, IfOk};
ghost use Rattle.aud_code.specs.Flat.{FlatLine};
ghost use Rattle.aud_code.specs.declared.line.Last.TheVariants.{Concerns, Does};
ghost use Rattle.aud_code.specs.View.{plain_instruction, plain_line};
ghost use Rattle.aud_gen.specs.Writes.{ended, Code, Finds, Instructs, Writes};

use crate::lengths::place_behind;
use aud_code::instruction::Instruction;
use aud_code::line::{Among, EndLine, Ending, Last, Line};
use aud_text::place::Pos;
use std::alloc::{AllocError, Global};
use std::marker::Model;

/// The lines that were written. Once memory was refused, nothing more is.
#[derive(Drop)]
pub struct Writer {
    alloc: Global,
    lines: Vec<Line>,
    refused: bool,
}

impl Model for Writer {
    ghost use Rattle.std.specs.Prelude.{map};
    ghost use Rattle.aud_code.specs.View.{plain_line};
    ghost use Rattle.aud_gen.specs.Writes.{Code};

    ghost Value = { Code };

    ghost view = { λ w. record { refused = w.refused; lines = map plain_line w.lines.items } };
}

impl Writer {
    /// No line is written.
    pub fn new(alloc: Global) -> Self
        ensures refused { result.refused ≡ false }
        ensures lines { result.lines ≡ [] }
    {
        Writer {
            alloc,
            lines: Vec::new(alloc),
            refused: false,
        }
    }

    pub fn alloc(&self) -> Global {
        self.alloc
    }

    /// The place of the next line.
    pub fn place(&self) -> usize
        ensures { result ≡ length self.now.lines }
    {
        self.lines.len()
    }

    /// The place behind so many lines that stand at a place. Memory is refused where it passes the type, since no
    /// memory holds such code.
    pub fn behind(&mut self, place: usize, lines: usize) -> usize
        ensures { Finds self.old self.new ((result ≡ place + lines) × (result < 2 ^ 64 - 1)) }
    {
        match place_behind(place, lines) {
            Ok(behind) => behind,
            Err(_) => {
                self.refused = true;
                place
            }
        }
    }

    /// All lines.
    ///
    /// # Errors
    ///
    /// Where memory was refused.
    pub fn finish(self) -> Result<Vec<Line>, AllocError>
        ensures { IfOk result (λ lines.
            (self.refused ≡ false) × (map plain_line lines.items ≡ self.lines)) }
    {
        if self.refused {
            drop(self);
            return Err(AllocError);
        }
        Ok(self.lines)
    }

    /// Memory is refused, so that nothing more has to be written.
    pub fn refuse(&mut self)
        ensures { (begun : Code) (lines : List FlatLine) → Writes begun self.new lines }
    {
        self.refused = true;
    }

    /// A line more.
    pub fn write(&mut self, line: Line)
        ensures { Writes self.old self.new (plain_line line ∷ []) }
    {
        if self.refused {
            drop(line);
            return;
        }
        self.refused = self.lines.push(line).is_err();
    }

    /// An instruction more.
    pub fn instruct(&mut self, instruction: Instruction)
        ensures { Instructs self.old self.new (plain_instruction instruction ∷ []) }
    {
        self.write(Line::Instruction(instruction));
    }

    /// The ending of a step, which stands at a place of the text. An exception that is pending there goes to the place `out`; the
    /// innermost frame was opened by the step at the place `within`.
    pub fn end(&mut self, last: Last, at: Pos, out: usize, within: Option<usize>)
        ensures { Writes self.old self.new (ended last at out within) }
    {
        self.write(Line::End(EndLine {
            last,
            at,
            out,
            within,
        }));
    }

    /// The ending of a statement's step; the next step begins at the place `next`, unless this one leads elsewhere.
    pub fn end_statement(
        &mut self,
        ending: Ending,
        next: usize,
        at: Pos,
        out: usize,
        within: Option<usize>,
    )
        ensures { Writes self.old self.new (ended (Does ending next) at out within) }
    {
        self.end(Last::Does(ending, next), at, out, within);
    }

    /// The same of a step that concerns others.
    pub fn concern(&mut self, among: Among, next: usize, at: Pos, out: usize, within: Option<usize>)
        ensures { Writes self.old self.new (ended (Concerns among next) at out within) }
    {
        self.end(Last::Concerns(among, next), at, out, within);
    }
}
