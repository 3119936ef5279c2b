// One instruction after the other, up to the ending of the step.

ghost use Rattle.std.specs.Prelude.{◌≡◌, ◌+◌, ◌<◌, ◌≤◌, false, true, if◌then◌else◌, is_ok, drop, length, map, IfOk};
ghost use Rattle.aud_code.specs.Flat.{decided_by, instructions_from, no_scene};
ghost use Rattle.aud_code.specs.Sound.{counts_of, IsBarrier, IsStart};
ghost use Rattle.aud_code.specs.View.{plain_instruction, plain_line};
ghost use Rattle.aud_expr.specs.declared.flow.Flow.TheVariants.{Passes, Stops};
ghost use Rattle.aud_expr.specs.Flow.{InSight, FindsOperands, Acts, ended, evaluated_at, evaluated_by, halted};
ghost use Rattle.aud_expr.specs.Flow.{ReachesEnd, FitsEnd, IsMarked, WhereEnds};
ghost use Rattle.aud_expr.specs.Flow.{evaluated_in, ReachesIn, FitsIn, HasTruth, StepFine};
ghost use Rattle.aud_text.specs.declared.limits.TheConstants.{CLOCK};
ghost use Rattle.aud_expr.specs.Size.{instructions_in};
ghost use Rattle.aud_expr.specs.Ticks.{ticks_at, ticks_in};

use crate::arguments::{load_found, pass, pass_copy};
use crate::components::{begin_object, component};
use crate::elements::{find_element, load_element};
use crate::facts::{Facts, count, is_callable, is_terminated};
use crate::flow::Flow;
use crate::integers::{check, on_one, on_two};
use crate::operands::Operands;
use crate::texts::{append_image, append_truth};
use crate::truths::{cell, combine, compare, negate, pass_if, relate, truth};
use crate::variables::{find, load};
use crate::waiting::{
    milliseconds, name, opens_accept, opens_delay, opens_terminate, pass_unless_next, seconds,
    set_time,
};
use aud_code::instruction::Instruction;
use aud_code::line::Line;
use aud_code::sound_code::SoundCode;
use aud_store::frames::Frames;
use aud_text::raise::Raise;
use std::alloc::AllocError;

/// How an evaluation ended, and how many instructions it executed.
#[derive(Clone, Copy)]
pub struct Evaluation {
    pub outcome: Outcome,
    pub ticks: u64,
}

/// How an evaluation ends: at the place of the step's ending, or by an exception.
#[derive(Clone, Copy)]
pub enum Outcome {
    Reaches(usize),
    Fails(Raise),
}

/// What a barrier is, or the exception that its evaluation raises, and how many instructions it executed.
#[derive(Clone, Copy)]
pub struct Decision {
    pub met: Result<bool, Raise>,
    pub ticks: u64,
}

// How an evaluation ends that may stop at the mark, and how many instructions it executed.
#[derive(Clone, Copy)]
struct Halted {
    halt: Halt,
    ticks: u64,
}

/// How an evaluation ends that may stop at the mark: elsewhere, or there.
#[derive(Clone, Copy)]
enum Halt {
    Ends(Outcome),
    Marks,
}

/// One instruction, which is one tick. `stops`: the evaluation ends at the mark.
pub fn eval_step<F: Facts>(
    stops: bool,
    instruction: &Instruction,
    facts: &F,
    clock: u64,
    objects: usize,
    display: &[usize],
    frames: &Frames,
    operands: &mut Operands,
    ticks: &mut u64,
) -> Result<Flow, AllocError>
    requires finds { FindsOperands (plain_instruction instruction.now) (counts_of operands.old) }
    requires room { ticks.old < u64.MAX }
    requires time { clock ≤ CLOCK }
    ensures acts { IfOk result (λ flow.
        Acts stops (F.facts facts.now) clock objects display.now frames.now
        (plain_instruction instruction.now) flow operands.old operands.new) }
    ensures tick { ticks.new ≡ ticks.old + 1 }
{
    *ticks += 1;
    match instruction {
        Instruction::Push(value) => passes(operands.push(*value)),
        Instruction::Load(variable) => passes(load(*variable, display, frames, operands)),
        Instruction::LoadElement(array) => load_element(*array, display, frames, operands),
        Instruction::OnOne(operator) => on_one(*operator, operands),
        Instruction::OnTwo(operator) => on_two(*operator, operands),
        Instruction::Count(variable, entry) => {
            passes(count(*variable, *entry, facts, display, frames, operands))
        }
        Instruction::Check(subtype) => check(*subtype, operands),
        Instruction::Cell => passes(cell(operands)),
        Instruction::PushTruth(value) => passes(operands.push_truth(*value)),
        Instruction::Truth => passes(truth(operands)),
        Instruction::Negate => passes(negate(operands)),
        Instruction::Relate(relation) => passes(relate(*relation, operands)),
        Instruction::Compare(relation) => passes(compare(*relation, operands)),
        Instruction::Combine(operator) => passes(combine(*operator, operands)),
        Instruction::IsCallable => passes(is_callable(facts, operands)),
        Instruction::IsTerminated => passes(is_terminated(facts, operands)),
        Instruction::PassIfFalse(count) => pass_if(false, *count, operands),
        Instruction::PassIfTrue(count) => pass_if(true, *count, operands),
        Instruction::Find(variable, subtype) => {
            passes(find(*variable, *subtype, display, frames, operands))
        }
        Instruction::FindElement(array, subtype) => {
            find_element(*array, *subtype, display, frames, operands)
        }
        Instruction::LoadFound => passes(load_found(frames, operands)),
        Instruction::Pass => passes(pass(operands)),
        Instruction::PassCopy(formal) => passes(pass_copy(*formal, operands)),
        Instruction::AppendText(text) => passes(operands.append(text.as_bytes())),
        Instruction::AppendImage => passes(append_image(operands)),
        Instruction::AppendTruth => passes(append_truth(operands)),
        Instruction::AppendNewLine => passes(operands.append(b"\n")),
        Instruction::Name => passes(name(operands)),
        Instruction::Milliseconds(time) => {
            milliseconds(*time, operands);
            Ok(Flow::Passes(0))
        }
        Instruction::Seconds => {
            seconds(operands);
            Ok(Flow::Passes(0))
        }
        Instruction::BeginObject => passes(begin_object(objects, operands)),
        Instruction::Component => passes(component(operands)),
        Instruction::OpensAccept(accept) => passes(opens_accept(*accept, operands)),
        Instruction::OpensDelay(alternative) => passes(opens_delay(*alternative, operands)),
        Instruction::OpensTerminate => {
            opens_terminate(operands);
            Ok(Flow::Passes(0))
        }
        Instruction::Mark => Ok(at_mark(stops)),
        Instruction::PassUnlessNext(alternative, count) => {
            Ok(pass_unless_next(*alternative, *count, operands))
        }
        Instruction::SetTime(alternative) => passes(set_time(*alternative, clock, operands)),
    }
}

// At the mark.
fn at_mark(stops: bool) -> Flow
    ensures { result ≡ (if stops then Stops else Passes 0) }
{
    if stops { Flow::Stops } else { Flow::Passes(0) }
}

// Behind an instruction that passes no other one.
fn passes(done: Result<(), AllocError>) -> Result<Flow, AllocError>
    ensures passes { IfOk result (λ flow. flow ≡ Passes 0) }
    ensures alike { is_ok result ≡ is_ok done }
{
    done?;
    Ok(Flow::Passes(0))
}

/// From the first place of a step to its ending, or to an exception. Code may end without an ending; then its end is reached.
pub fn evaluate<F: Facts>(
    code: &SoundCode,
    first: usize,
    facts: &F,
    clock: u64,
    objects: usize,
    display: &[usize],
    frames: &Frames,
    operands: &mut Operands,
) -> Result<Evaluation, AllocError>
    requires begins { IsStart code.now.lines first }
    requires time { clock ≤ CLOCK }
    ensures ends { IfOk result (λ evaluation.
        InSight (F.facts facts.now) clock objects display.now frames.now (λ s.
        ended evaluation.outcome operands.new ≡ evaluated_at code.now first s)) }
    ensures reaches { IfOk result (λ evaluation. ReachesEnd evaluation.outcome code.now first) }
    ensures fits { IfOk result (λ evaluation.
        FitsEnd evaluation.outcome code.now first operands.new) }
    ensures ticks { IfOk result (λ evaluation.
        InSight (F.facts facts.now) clock objects display.now frames.now (λ s.
        evaluation.ticks ≡ ticks_at code.now first s)) }
    ensures few { IfOk result (λ evaluation. evaluation.ticks ≤ instructions_in code.now.lines) }
{
    let Halted { halt, ticks } = evaluate_until(
        false,
        code.lines(),
        first,
        facts,
        clock,
        objects,
        display,
        frames,
        operands,
    )?;
    match halt {
        Halt::Ends(outcome) => Ok(Evaluation { outcome, ticks }),
        Halt::Marks => unreachable!(),
    }
}

/// From the first place of a step to its mark. Whether the mark is reached: not where an exception is raised before, or
/// where there is none.
pub fn evaluate_to_mark<F: Facts>(
    code: &SoundCode,
    first: usize,
    facts: &F,
    display: &[usize],
    frames: &Frames,
    operands: &mut Operands,
) -> Result<bool, AllocError>
    requires { IsStart code.now.lines first }
    ensures { IfOk result (λ is_marked. InSight (F.facts facts.now) 0 0 display.now frames.now (λ s.
        IsMarked is_marked operands.new (evaluated_by true code.now first s))) }
{
    let halted = evaluate_until(
        true,
        code.lines(),
        first,
        facts,
        0,
        0,
        display,
        frames,
        operands,
    )?;
    match halted.halt {
        Halt::Ends(_) => Ok(false),
        Halt::Marks => Ok(true),
    }
}

/// Evaluates a barrier that these lines are (RM 9.5.2(7)).
pub fn decide<F: Facts>(
    lines: &[Line],
    facts: &F,
    display: &[usize],
    frames: &Frames,
    operands: &mut Operands,
) -> Result<Decision, AllocError>
    requires { IsBarrier (map plain_line lines.now) }
    ensures met { IfOk result (λ decision.
        InSight (F.facts facts.now) 0 0 display.now frames.now (λ s. decision.met ≡
        decided_by (evaluated_in false (map plain_line lines.now) 0 s))) }
    ensures few { IfOk result (λ decision.
        decision.ticks ≤ length (instructions_from (map plain_line lines.now))) }
{
    let Halted { halt, ticks } = evaluate_until(
        false, lines, 0, facts, 0, 0, display, frames, operands,
    )?;
    match halt {
        Halt::Ends(outcome) => Ok(Decision {
            met: truth_at(outcome, operands),
            ticks,
        }),
        Halt::Marks => unreachable!(),
    }
}

// The newest truth value at an ending, or the exception.
fn truth_at(outcome: Outcome, operands: &mut Operands) -> Result<bool, Raise>
    requires { HasTruth outcome (counts_of operands.old) }
    ensures { result ≡ decided_by (ended outcome operands.old) }
{
    match outcome {
        Outcome::Reaches(_) => Ok(operands.pop_truth()),
        Outcome::Fails(raise) => Err(raise),
    }
}

// To its ending, or to an exception; where it `stops`, to its mark.
fn evaluate_until<F: Facts>(
    stops: bool,
    lines: &[Line],
    first: usize,
    facts: &F,
    clock: u64,
    objects: usize,
    display: &[usize],
    frames: &Frames,
    operands: &mut Operands,
) -> Result<Halted, AllocError>
    requires fine { StepFine (map plain_line lines.now) first }
    requires time { clock ≤ CLOCK }
    ensures ends { IfOk result (λ h.
        InSight (F.facts facts.now) clock objects display.now frames.now (λ s.
        halted h.halt operands.new ≡ evaluated_in stops (map plain_line lines.now) first s)) }
    ensures reaches { IfOk result (λ h.
        WhereEnds h.halt (λ outcome. ReachesIn outcome (map plain_line lines.now) first)) }
    ensures fits { IfOk result (λ h. WhereEnds h.halt (λ outcome.
        FitsIn outcome (map plain_line lines.now) first operands.new)) }
    ensures ticks { IfOk result (λ h.
        InSight (F.facts facts.now) clock objects display.now frames.now (λ s.
        h.ticks ≡ ticks_in stops (map plain_line lines.now) first s)) }
    ensures few { IfOk result (λ h.
        h.ticks ≤ length (instructions_from (drop first (map plain_line lines.now)))) }
{
    operands.clear();
    let mut ticks = 0;
    let mut passed = 0;
    for place in first..lines.len() {
        let instruction = match &lines[place] {
            Line::Instruction(instruction) => instruction,
            Line::End(_) => {
                let halt = Halt::Ends(Outcome::Reaches(place));
                return Ok(Halted { halt, ticks });
            }
        };
        if 0 < passed {
            passed -= 1;
            continue;
        }
        let flow = eval_step(
            stops,
            instruction,
            facts,
            clock,
            objects,
            display,
            frames,
            operands,
            &mut ticks,
        )?;
        match flow {
            Flow::Passes(count) => passed = count,
            Flow::Raises(raise) => {
                let halt = Halt::Ends(Outcome::Fails(raise));
                return Ok(Halted { halt, ticks });
            }
            Flow::Stops => {
                let halt = Halt::Marks;
                return Ok(Halted { halt, ticks });
            }
        }
    }
    let halt = Halt::Ends(Outcome::Reaches(lines.len()));
    Ok(Halted { halt, ticks })
}
