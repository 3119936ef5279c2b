// What statements do.

ghost use Rattle.std.specs.Prelude.{◌≡◌, [], OnOk};
ghost use Rattle.aud_code.specs.Sound.{counts_of, EndingFine};
ghost use Rattle.aud_code.specs.View.{plain_ending};
ghost use Rattle.aud_store.specs.Ties.Stored.{plain_purpose, IsInner};
ghost use Rattle.aud_sequential.specs.Shown.{plans_of};
ghost use Rattle.aud_sequential.specs.Steps.{does, opened, looped, continued};

use crate::progress::Progress;
use crate::units::{is_function, level_of, region_of};
use aud_code::line::{Ending, ForLoop};
use aud_code::sound_code::SoundCode;
use aud_expr::operands::Operands;
use aud_meaning::values::nearest_zero;
use aud_store::purpose::Purpose;
use aud_text::int32::Int32;
use aud_text::place::Pos;
use aud_text::raise::Raise;
use aud_typed::program::{Exception, Unit};
use std::alloc::AllocError;

impl Progress {
    /// What a statement does that stands at a place of the text; the next step is the one at the place `next`, unless it leads
    /// elsewhere. Procedures are called by the numbers of their units.
    pub(crate) fn act_by(
        &mut self,
        ending: Ending,
        at: Pos,
        next: usize,
        code: &SoundCode,
        units: &[Unit],
        operands: &mut Operands,
    ) -> Result<(), AllocError>
        requires { EndingFine (plain_ending ending) (counts_of operands.old) }
        ensures { OnOk result (self.new ≡
            does (plans_of units.now) code.now ending at next operands.old self.old) }
    {
        match ending {
            Ending::Declare { up_to, again } => self.declare(operands.pop(), up_to, again, next)?,
            Ending::DeclareArray(subtype, count) => {
                self.declare_all(count, nearest_zero(subtype), next)?;
            }
            Ending::Null => self.go(next),
            Ending::Assign => {
                let value = operands.pop();
                let target = operands.pop_target();
                self.assign(target, value, next);
            }
            Ending::Put => self.put(operands.text(), next)?,
            Ending::If(there) | Ending::While(there) => {
                self.go(if operands.pop_truth() { there } else { next });
            }
            Ending::Loop { control, inside } => {
                let last = operands.pop();
                let first = operands.pop();
                self.enter_loop(control, inside, next, first, last)?;
            }
            Ending::Exit(way) => {
                if operands.pop_truth() {
                    self.exit(way);
                } else {
                    self.go(next);
                }
            }
            Ending::Raise(exception) => self.raise(exception, at),
            Ending::RaiseAgain => {
                let handled = self.store().handled();
                let program_error = Exception::Predefined(Raise::Program);
                self.raise(handled.unwrap_or(program_error), at);
            }
            Ending::Block { region, inside } => {
                self.open(Purpose::Block, region, at, &[], 0, inside)?;
            }
            Ending::Return(way) => self.exit(way),
            Ending::ReturnValue(way) => {
                self.set_value(operands.pop());
                self.exit(way);
            }
            Ending::Call(number) => {
                let level = level_of(units, number);
                let region = region_of(units, number);
                let is_function = is_function(units, number);
                self.call(level, region, is_function, code.start(number), at, operands)?;
            }
            Ending::OwnCall => self.raise(Exception::Predefined(Raise::Program), at),
        }
        Ok(())
    }

    // The frame of a block or loop is opened, if there is room for one more (RM 11.1(6)).
    fn open(
        &mut self,
        purpose: Purpose,
        region: usize,
        at: Pos,
        cells: &[Int32],
        elaborated: usize,
        inside: usize,
    ) -> Result<(), AllocError>
        requires { IsInner purpose }
        ensures { OnOk result (self.new ≡
            opened (plain_purpose purpose []) region at cells.now elaborated inside self.old) }
    {
        if self.store().has_room() {
            self.enter(purpose, region, at, cells, elaborated, inside)?;
        } else {
            self.raise(Exception::Predefined(Raise::Storage), at);
        }
        Ok(())
    }

    // A loop over a range, unless that is empty (RM 5.5(9)). Its frame has the first value and the last one.
    fn enter_loop(
        &mut self,
        control: ForLoop,
        inside: usize,
        next: usize,
        low: Int32,
        high: Int32,
    ) -> Result<(), AllocError>
        ensures { OnOk result (self.new ≡ looped control inside next low high self.old) }
    {
        if high.get() < low.get() {
            self.go(next);
            return Ok(());
        }
        let cells = if control.backward {
            [high, low]
        } else {
            [low, high]
        };
        self.open(Purpose::Loop, control.region, control.at, &cells, 1, inside)
    }

    /// The next value of the innermost loop's parameter, or the loop is left (RM 5.5(9)).
    pub(crate) fn continue_loop(&mut self, control: ForLoop, behind: usize, inside: usize)
        ensures { self.new ≡ continued control behind inside self.old }
    {
        let value = self.store().innermost_cell(0).get();
        let last = self.store().innermost_cell(1).get();
        if control.backward {
            if last < value {
                self.set_loop(Int32::new(value - 1), inside);
                return;
            }
        } else if value < last {
            self.set_loop(Int32::new(value + 1), inside);
            return;
        }
        self.leave(behind);
    }
}
