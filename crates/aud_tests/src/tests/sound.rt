// Code that is built by hand: it is sound, or an operand is missing, or other operands or open frames are written than
// stand there.

use aud_code::counts::{Counts, NOTHING};
use aud_code::instruction::Instruction;
use aud_code::line::{
    Among, Barrier, CallKind, Code, EndLine, Ending, ForLoop, Last, Line, Offer, Way,
};
use aud_code::sound_code::verify;
use aud_meaning::state::{Construct, OpenAccept};
use aud_text::place::Pos;
use aud_typed::program::Variable;
use std::alloc::{AllocError, Global};

const AT: Pos = Pos { line: 1, col: 1 };

fn end(last: Last, out: usize, within: Option<usize>) -> Line {
    Line::End(EndLine {
        last,
        at: AT,
        out,
        within,
    })
}

// Without a line. The only body begins at the first one.
fn empty(alloc: Global) -> Result<Code, AllocError> {
    Ok(Code {
        starts: vec![in alloc; 0; 1]?,
        lines: Vec::new(alloc),
        operands: Vec::new(alloc),
        seen: Vec::new(alloc),
        spare: 0,
        tasks: Vec::new(alloc),
        barriers: Vec::new(alloc),
    })
}

// A line, and the operands and open frames that are written before it.
fn add(code: &mut Code, line: Line, operands: Counts, seen: usize) -> Result<(), AllocError> {
    code.lines.push(line)?;
    code.operands.push(operands)?;
    code.seen.push(seen)?;
    Ok(())
}

// Whether the code is sound, once it is written.
fn is_sound(
    alloc: Global,
    code: Code,
    written: Result<(), AllocError>,
) -> Result<bool, AllocError> {
    match written {
        Ok(()) => Ok(verify(alloc, code).is_some()),
        Err(error) => {
            drop(code);
            Err(error)
        }
    }
}

// A step that puts a text, and the end of its body; behind the step's instruction these operands are written.
fn put(code: &mut Code, instruction: Instruction, left: Counts) -> Result<(), AllocError> {
    add(code, Line::Instruction(instruction), NOTHING, 1)?;
    add(code, end(Last::Does(Ending::Put, 2), 2, None), left, 1)?;
    add(
        code,
        end(Last::Ends(Construct::Unit, 0), 2, None),
        NOTHING,
        1,
    )
}

fn puts(alloc: Global, instruction: Instruction, left: Counts) -> Result<bool, AllocError> {
    let mut code = empty(alloc)?;
    let written = put(&mut code, instruction, left);
    is_sound(alloc, code, written)
}

const INTEGER: Counts = Counts {
    integers: 1,
    ..NOTHING
};

const TRUTH: Counts = Counts {
    booleans: 1,
    ..NOTHING
};

#[test]
fn looks_for_operands(rt: HostRuntime) -> Result<(), AllocError> {
    assert!(rt; puts(rt.alloc(), Instruction::AppendNewLine, NOTHING)?);
    assert!(rt; !puts(rt.alloc(), Instruction::AppendImage, NOTHING)?);
    Ok(())
}

#[test]
fn compares_operands_with_those_written(rt: HostRuntime) -> Result<(), AllocError> {
    assert!(rt; puts(rt.alloc(), Instruction::PushTruth(true), TRUTH)?);
    assert!(rt; !puts(rt.alloc(), Instruction::PushTruth(true), NOTHING)?);
    Ok(())
}

// The first variable of the frame at this level, where only the body's own frame is open.
fn reads(alloc: Global, level: usize) -> Result<bool, AllocError> {
    puts(
        alloc,
        Instruction::Load(Variable { level, index: 0 }),
        INTEGER,
    )
}

#[test]
fn reads_variables_of_open_frames(rt: HostRuntime) -> Result<(), AllocError> {
    assert!(rt; reads(rt.alloc(), 0)?);
    assert!(rt; !reads(rt.alloc(), 1)?);
    Ok(())
}

// The barrier that reads the first variable of the frame at this level; so many frames are written for it.
fn barrier(alloc: Global, level: usize, frames: usize) -> Result<Barrier, AllocError> {
    let operands = Vec::from_array(alloc, [NOTHING, INTEGER, TRUTH])?;
    let lines = [
        Line::Instruction(Instruction::Load(Variable { level, index: 0 })),
        Line::Instruction(Instruction::Truth),
        end(Last::Does(Ending::If(0), 0), 0, None),
    ];
    Ok(Barrier {
        lines: Vec::from_array(alloc, lines)?,
        operands,
        frames,
    })
}

// A body that calls the entry with this barrier of an object in its own frame.
fn call(code: &mut Code, barrier: Barrier) -> Result<(), AllocError> {
    code.barriers.push(barrier)?;
    let call = Among::CallObject {
        object: Variable { level: 0, index: 0 },
        entry: 0,
        kind: CallKind::Plain,
        otherwise: 1,
    };
    add(code, end(Last::Concerns(call, 1), 1, None), NOTHING, 1)?;
    add(
        code,
        end(Last::Ends(Construct::Unit, 0), 1, None),
        NOTHING,
        1,
    )
}

fn calls(alloc: Global, level: usize, frames: usize) -> Result<bool, AllocError> {
    let barrier = barrier(alloc, level, frames)?;
    let mut code = empty(alloc)?;
    let written = call(&mut code, barrier);
    is_sound(alloc, code, written)
}

// The object's own frame is the second one that is open for its barriers.
#[test]
fn asks_barriers_of_open_frames(rt: HostRuntime) -> Result<(), AllocError> {
    assert!(rt; calls(rt.alloc(), 1, 2)?);
    assert!(rt; !calls(rt.alloc(), 0, 1)?);
    assert!(rt; !calls(rt.alloc(), 2, 2)?);
    assert!(rt; !calls(rt.alloc(), 2, 3)?);
    Ok(())
}

const LOOP: ForLoop = ForLoop {
    at: AT,
    next_at: AT,
    region: 1,
    backward: false,
};

// The bounds of a loop.
fn bounds(code: &mut Code) -> Result<(), AllocError> {
    let second = Counts {
        booleans: 1,
        ..INTEGER
    };
    for (operands, pushed) in [(NOTHING, TRUTH), (INTEGER, second)] {
        add(
            code,
            Line::Instruction(Instruction::PushTruth(true)),
            operands,
            1,
        )?;
        add(code, Line::Instruction(Instruction::Cell), pushed, 1)?;
    }
    Ok(())
}

// A loop from whose inside a return leads to the end of the body, out of so many loops; so many frames are written inside.
fn return_from(code: &mut Code, loops: usize, inside: usize) -> Result<(), AllocError> {
    bounds(code)?;
    let both = Counts {
        integers: 2,
        ..NOTHING
    };
    let begins = Ending::Loop {
        control: LOOP,
        inside: 6,
    };
    let goes_on = Last::Continues {
        control: LOOP,
        behind: 7,
        inside: 6,
    };
    let returns = Ending::Return(Way { to: 7, loops });
    add(code, end(Last::Does(begins, 7), 7, None), both, 1)?;
    add(code, end(goes_on, 7, Some(0)), NOTHING, inside)?;
    add(
        code,
        end(Last::Does(returns, 5), 7, Some(0)),
        NOTHING,
        inside,
    )?;
    add(
        code,
        end(Last::Ends(Construct::Unit, 0), 7, None),
        NOTHING,
        1,
    )
}

fn returns(alloc: Global, loops: usize, inside: usize) -> Result<bool, AllocError> {
    let mut code = empty(alloc)?;
    let written = return_from(&mut code, loops, inside);
    is_sound(alloc, code, written)
}

#[test]
fn leaves_the_frames_that_are_left(rt: HostRuntime) -> Result<(), AllocError> {
    assert!(rt; returns(rt.alloc(), 1, 2)?);
    assert!(rt; !returns(rt.alloc(), 0, 2)?);
    assert!(rt; !returns(rt.alloc(), 1, 1)?);
    Ok(())
}

// Behind the steps of an accept, its end, within the step that begins at the first line, and that of the body, at the place `last`.
fn end_accept(code: &mut Code, last: usize) -> Result<(), AllocError> {
    let end_of_accept = end(Last::Ends(Construct::Accept, last), last, Some(0));
    add(code, end_of_accept, NOTHING, 2)?;
    add(
        code,
        end(Last::Ends(Construct::Unit, 0), last, None),
        NOTHING,
        1,
    )
}

// An accept with the table of its formals, if it has one; what it does begins at a place.
fn accept(code: &mut Code, region: Option<usize>, body: usize) -> Result<(), AllocError> {
    let accept = Among::Accept {
        entry: 0,
        region,
        body,
    };
    add(code, end(Last::Concerns(accept, 2), 2, None), NOTHING, 1)?;
    end_accept(code, 2)
}

fn accepts(alloc: Global, region: Option<usize>, body: usize) -> Result<bool, AllocError> {
    let mut code = empty(alloc)?;
    let written = accept(&mut code, region, body);
    is_sound(alloc, code, written)
}

// The accept's end is met in its frame, and what is behind it is not.
#[test]
fn enters_the_frame_of_an_accept_that_does_something(rt: HostRuntime) -> Result<(), AllocError> {
    assert!(rt; accepts(rt.alloc(), Some(1), 1)?);
    assert!(rt; !accepts(rt.alloc(), Some(1), 2)?);
    assert!(rt; accepts(rt.alloc(), None, 2)?);
    assert!(rt; !accepts(rt.alloc(), None, 1)?);
    Ok(())
}

// The same of a selective accept with one alternative, whose accept is opened with this number.
fn select(
    alloc: Global,
    code: &mut Code,
    alternative: usize,
    region: Option<usize>,
    body: usize,
) -> Result<(), AllocError> {
    let opens = Instruction::OpensAccept(OpenAccept {
        alternative,
        entry: 0,
        at: AT,
        region,
    });
    let select = Among::Select {
        has_else: false,
        own: 0,
        offers: Vec::from_array(alloc, [Offer { behind: 5, body }])?,
    };
    add(
        code,
        Line::Instruction(Instruction::PushTruth(true)),
        NOTHING,
        1,
    )?;
    add(code, Line::Instruction(opens), TRUTH, 1)?;
    add(code, Line::Instruction(Instruction::Mark), NOTHING, 1)?;
    add(code, end(Last::Concerns(select, 5), 5, None), NOTHING, 1)?;
    end_accept(code, 5)
}

fn selects(
    alloc: Global,
    alternative: usize,
    region: Option<usize>,
    body: usize,
) -> Result<bool, AllocError> {
    let mut code = empty(alloc)?;
    let written = select(alloc, &mut code, alternative, region, body);
    is_sound(alloc, code, written)
}

#[test]
fn enters_the_frame_of_an_alternative_that_does_something(
    rt: HostRuntime,
) -> Result<(), AllocError> {
    assert!(rt; selects(rt.alloc(), 1, Some(1), 4)?);
    assert!(rt; !selects(rt.alloc(), 1, Some(1), 5)?);
    assert!(rt; selects(rt.alloc(), 1, None, 5)?);
    assert!(rt; !selects(rt.alloc(), 1, None, 4)?);
    assert!(rt; !selects(rt.alloc(), 0, Some(1), 4)?);
    assert!(rt; !selects(rt.alloc(), 2, Some(1), 4)?);
    Ok(())
}
