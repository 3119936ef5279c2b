// Steps that a task takes one after the other, without a look at the moves.

use crate::tests::loaded;
use aud_code::sound_code::SoundCode;
use aud_expr::operands::Operands;
use aud_gen::generate;
use aud_machine::machine::opened;
use aud_tasks::compiled::Compiled;
use aud_tasks::run::{run, run_on};
use aud_text::limits::STANDARD;
use aud_typed::program::Program;
use std::alloc::{AllocError, Global};
use std::process::Abort;
use std::test::Fail;

// A program. After its first `before` steps this task takes `ahead` steps without a look at the moves, and `in_all` with the
// ends of blocks and procedures on which no task depends.
struct Shape {
    what: &'static str,
    text: &'static [u8],
    before: u32,
    task: usize,
    ahead: u32,
    in_all: u32,
}

const PRODUCER_AND_CONSUMER: &[u8] =
    b"procedure M is task C is entry Take (N : in Integer); end C; task body C is S : Integer := 0; begin for I in 1 .. 9 loop accept Take (N : in Integer) do S := N; S := S + 1; S := S + 2; end Take; end loop; end C; X : Integer := 0; begin while X < 9 loop X := X + 1; X := X + 0; C.Take (X); end loop; end M;\n";

const SHAPES: [Shape; 16] = [
    Shape {
        what: "a call, and the procedure's statements, up to its end",
        text: b"procedure M is X : Integer := 0; procedure P (N : Integer) is begin X := N; end P; begin P (1); P (2); end M;\n",
        before: 0,
        task: 0,
        ahead: 3,
        in_all: 7,
    },
    Shape {
        what: "a block, up to its end",
        text: b"procedure M is X : Integer := 0; begin declare Y : Integer := 1; begin X := Y; end; X := 2; end M;\n",
        before: 1,
        task: 0,
        ahead: 3,
        in_all: 5,
    },
    Shape {
        what: "a loop from its beginning to its end, and a statement after it",
        text: b"procedure M is begin for I in 1 .. 2 loop null; end loop; null; end M;\n",
        before: 0,
        task: 0,
        ahead: 6,
        in_all: 6,
    },
    Shape {
        what: "an exit out of a loop with a parameter",
        text: b"procedure M is begin for I in 1 .. 9 loop exit when I > 1; end loop; end M;\n",
        before: 0,
        task: 0,
        ahead: 4,
        in_all: 4,
    },
    Shape {
        what: "a block on which a task depends",
        text: b"procedure M is begin declare task T; task body T is begin delay 1.0; end T; begin null; end; end M;\n",
        before: 4,
        task: 0,
        ahead: 1,
        in_all: 1,
    },
    Shape {
        what: "a return, up to the procedure's end",
        text: b"procedure M is procedure P is begin if True then return; end if; null; end P; begin P; end M;\n",
        before: 0,
        task: 0,
        ahead: 3,
        in_all: 4,
    },
    Shape {
        what: "output",
        text: b"procedure M is begin Put_Line (\"a\"); Put (\"b\"); end M;\n",
        before: 0,
        task: 0,
        ahead: 2,
        in_all: 2,
    },
    Shape {
        what: "an exception, up to its handler",
        text: b"procedure M is begin null; raise Constraint_Error; exception when others => null; end M;\n",
        before: 0,
        task: 0,
        ahead: 2,
        in_all: 2,
    },
    Shape {
        what: "an array, and an element of it",
        text: b"procedure M is A : array (1 .. 9) of Natural; begin A (1) := 2; end M;\n",
        before: 0,
        task: 0,
        ahead: 2,
        in_all: 2,
    },
    Shape {
        what: "an array with too many elements",
        text: b"procedure M is A : array (1 .. 1025) of Natural; begin A (1) := 2; end M;\n",
        before: 0,
        task: 0,
        ahead: 0,
        in_all: 0,
    },
    Shape {
        what: "up to a delay",
        text: b"procedure M is begin null; delay 1.0; null; end M;\n",
        before: 0,
        task: 0,
        ahead: 1,
        in_all: 1,
    },
    Shape {
        what: "recursive calls, up to their end",
        text: b"procedure M is R : Integer; procedure F (N : Integer; V : out Integer) is A, B : Integer; begin if N < 2 then V := N; else F (N - 1, A); F (N - 2, B); V := A + B; end if; end F; begin F (3, R); end M;\n",
        before: 0,
        task: 0,
        ahead: 14,
        in_all: 31,
    },
    Shape {
        what: "the first of two tasks, up to its end",
        text: b"procedure M is task type L; task body L is X : Integer := 0; begin while X < 9 loop X := X + 1; end loop; end L; A : array (1 .. 2) of L; begin null; end M;\n",
        before: 4,
        task: 1,
        ahead: 19,
        in_all: 19,
    },
    Shape {
        what: "a producer, up to its entry call",
        text: PRODUCER_AND_CONSUMER,
        before: 5,
        task: 0,
        ahead: 3,
        in_all: 3,
    },
    Shape {
        what: "a consumer in a rendezvous, up to its end",
        text: PRODUCER_AND_CONSUMER,
        before: 11,
        task: 1,
        ahead: 3,
        in_all: 3,
    },
    Shape {
        what: "an entry body of an object, up to its end",
        text: b"procedure M is protected B is entry Put (N : in Integer); private K : Integer := 0; F : Boolean := False; end B; protected body B is entry Put (N : in Integer) when not F is begin K := N; F := True; end Put; end B; begin B.Put (1); end M;\n",
        before: 2,
        task: 0,
        ahead: 2,
        in_all: 2,
    },
];

// Loops whose frames are due to be given back before they end.
const MANY_FRAMES: &[u8] =
    b"procedure M is begin for I in 1 .. 9999 loop for J in 1 .. 1 loop null; end loop; end loop; end M;\n";

fn goes_ahead(
    rt: &impl Abort,
    alloc: Global,
    program: &Program,
    code: &SoundCode,
    shape: &Shape,
    is_leaving: bool,
) -> Result<(), AllocError> {
    let mut state = opened(alloc, code, program, STANDARD)?;
    let compiled = Compiled {
        code,
        program,
        limits: STANDARD,
    };
    let mut operands = Operands::new(alloc);
    assert!(rt; state.steps() <= 1_000 && shape.before <= 1_000);
    run(&mut state, alloc, compiled, &mut operands, shape.before)?;
    assert!(rt; state.steps() <= 1_000 && shape.task < state.len());
    let taken = if is_leaving {
        run_on(&mut state, alloc, compiled, &mut operands, 1_000)?
    } else {
        state.run_ahead(code, &program.units, shape.task, &mut operands, 1_000)?
    };
    let wanted = if is_leaving {
        shape.in_all
    } else {
        shape.ahead
    };
    assert!(rt; taken.steps == wanted, "{}", shape.what);
    Ok(())
}

fn stops_for_frames(
    rt: &impl Abort,
    alloc: Global,
    program: &Program,
    code: &SoundCode,
) -> Result<(), AllocError> {
    let mut state = opened(alloc, code, program, STANDARD)?;
    let mut operands = Operands::new(alloc);
    assert!(rt; state.steps() == 0 && 0 < state.len());
    let taken = state.run_ahead(code, &program.units, 0, &mut operands, 100_000)?;
    assert!(rt; 1_000 < taken.steps && taken.steps < 10_000);
    assert!(rt; state.are_frames_due());
    Ok(())
}

#[test]
fn takes_steps_ahead(rt: HostRuntime) -> Result<(), Fail> {
    for shape in &SHAPES {
        let program = loaded(rt.alloc(), shape.text)?;
        let code = generate(rt.alloc(), &program)?;
        goes_ahead(&rt, rt.alloc(), program.program(), &code, shape, false)?;
        goes_ahead(&rt, rt.alloc(), program.program(), &code, shape, true)?;
    }
    Ok(())
}

#[test]
fn stops_where_frames_are_due(rt: HostRuntime) -> Result<(), Fail> {
    let program = loaded(rt.alloc(), MANY_FRAMES)?;
    let code = generate(rt.alloc(), &program)?;
    stops_for_frames(&rt, rt.alloc(), program.program(), &code)?;
    Ok(())
}
