// Steps by choices for which the moves are listed once.

use crate::tests::loaded;
use aud_expr::operands::Operands;
use aud_gen::generate;
use aud_machine::machine::opened;
use aud_tasks::chosen::run_chosen;
use aud_tasks::compiled::Compiled;
use aud_tasks::run::run;
use aud_text::limits::STANDARD;
use std::alloc::{AllocError, Global};
use std::process::Abort;

// A program, and for how many steps by choices one list is enough once all its tasks stand in their loops.
struct Shape {
    what: &'static str,
    text: &'static [u8],
    steps: u32,
}

// Steps until they do.
const FIRST: u32 = 600;

// Steps by choices that are asked for then.
const MORE: u32 = 50;

const SHAPES: [Shape; 6] = [
    Shape {
        what: "two tasks",
        text: b"procedure M is task type L; task body L is X : Integer := 0; begin while X < 9 loop X := X + 1; X := X - 1; end loop; end L; A : array (1 .. 2) of L; begin null; end M;\n",
        steps: MORE,
    },
    Shape {
        what: "two tasks that put out texts",
        text: b"procedure M is task type L; task body L is begin loop Put (\"a\"); end loop; end L; A : array (1 .. 2) of L; begin null; end M;\n",
        steps: MORE,
    },
    Shape {
        what: "63 tasks",
        text: b"procedure M is task type L; task body L is X : Integer := 0; begin while X < 9 loop X := X + 1; X := X - 1; end loop; end L; A : array (1 .. 63) of L; begin null; end M;\n",
        steps: MORE,
    },
    Shape {
        what: "two tasks beside one that waits",
        text: b"procedure M is task type L; task body L is X : Integer := 0; begin while X < 9 loop X := X + 1; X := X - 1; end loop; end L; A : array (1 .. 2) of L; begin delay 1.0; end M;\n",
        steps: MORE,
    },
    Shape {
        what: "two tasks, one of them within an object, and one that is to begin an action of it",
        text: b"procedure M is protected P is procedure S; end P; protected body P is procedure S is X : Integer := 0; begin while X < 9 loop X := X - X; end loop; end S; end P; task type L; task body L is begin P.S; end L; A : array (1 .. 2) of L; task B; task body B is X : Integer := 0; begin while X < 9 loop X := X - X; end loop; end B; begin null; end M;\n",
        steps: 0,
    },
    Shape {
        what: "one task",
        text: b"procedure M is X : Integer := 0; begin while X < 9 loop X := X - X; end loop; end M;\n",
        steps: 0,
    },
];

fn choices(alloc: Global) -> Result<Vec<u32>, AllocError> {
    let mut choices = Vec::new(alloc);
    for choice in 0..FIRST + MORE {
        choices.push(choice)?;
    }
    Ok(choices)
}

fn steps_of_one_call(
    rt: &impl Abort,
    alloc: Global,
    compiled: Compiled<'_>,
    choices: &[u32],
) -> Result<u32, AllocError> {
    let mut state = opened(alloc, compiled.code, compiled.program, compiled.limits)?;
    assert!(rt; state.choices() == 0 && choices.len() <= 1_000);
    state.choose(choices)?;
    let mut operands = Operands::new(alloc);
    assert!(rt; state.steps() <= 1_000);
    run(&mut state, alloc, compiled, &mut operands, FIRST)?;
    let mut moves = Vec::new(alloc);
    assert!(rt; state.steps() <= 1_000);
    let taken = run_chosen(&mut state, alloc, compiled, &mut operands, &mut moves, MORE)?;
    Ok(taken.steps)
}

#[test]
fn picks_many_in_one_call(rt: HostRuntime) -> Result<(), AllocError> {
    let choices = choices(rt.alloc())?;
    for shape in &SHAPES {
        let program = loaded(rt.alloc(), shape.text)?;
        let code = generate(rt.alloc(), &program)?;
        let compiled = Compiled {
            code: &code,
            program: program.program(),
            limits: STANDARD,
        };
        let steps = steps_of_one_call(&rt, rt.alloc(), compiled, &choices)?;
        assert!(rt; steps == shape.steps, "{}", shape.what);
    }
    Ok(())
}
