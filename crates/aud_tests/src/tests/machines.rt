// Machines: the instructions that their steps take, and what they lend. The rest of what they do the sessions of
// `aud_session_tests` show.

use crate::tests::{finds, loaded};
use aud_machine::machine::{Machine, Ran};
use aud_meaning::state::State;
use aud_text::int32::Int32;
use aud_text::limits::Limits;
use aud_text::raise::Raise;
use aud_typed::program::Exception;
use std::alloc::{AllocError, Global};
use std::process::Abort;

const SUM: &[u8] =
    b"procedure M is X : Integer; begin X := 40 + 2; Put_Line (\"x\" & X'Image); end M;\n";

const FAILING: &[u8] = b"procedure M is X : Integer := 1 / 0; begin null; end M;\n";

// The limits of the machines.
const SMALL: Limits = Limits {
    tasks: 3,
    source: 100,
};

// The steps that are asked for, what comes back, and what is raised and put out by then.
type Row = (u32, Ran, Option<Exception>, &'static [u8]);

const PUTS: [Row; 2] = [
    (
        3,
        // 2 instructions for the declaration, 5 for the assignment, 4 for the output
        Ran {
            steps: 3,
            ticks: 11,
            state: State::More,
        },
        None,
        b"x 42\n",
    ),
    (
        100,
        // none for the end of the body, nor for closing it
        Ran {
            steps: 2,
            ticks: 0,
            state: State::Ended,
        },
        None,
        b"x 42\n",
    ),
];

const RAISES: [Row; 1] = [(
    100,
    // the division is the third instruction, and the other two steps have none
    Ran {
        steps: 3,
        ticks: 3,
        state: State::Ended,
    },
    Some(Exception::Predefined(Raise::Constraint)),
    b"",
)];

const ASSIGNS: [Row; 1] = [(
    2,
    Ran {
        steps: 2,
        ticks: 7,
        state: State::More,
    },
    None,
    b"",
)];

#[test]
fn takes_instructions(rt: HostRuntime) -> Result<(), AllocError> {
    meets(&rt, rt.alloc(), SUM, &PUTS)?;
    meets(&rt, rt.alloc(), FAILING, &RAISES)
}

fn machine_of(alloc: Global, source: &[u8]) -> Result<Machine, AllocError> {
    Machine::new(alloc, loaded(alloc, source)?, SMALL)
}

fn meets(rt: &impl Abort, alloc: Global, source: &[u8], rows: &[Row]) -> Result<(), AllocError> {
    let mut machine = machine_of(alloc, source)?;
    let gone = goes(rt, alloc, &mut machine, rows);
    drop(machine);
    gone
}

fn goes(
    rt: &impl Abort,
    alloc: Global,
    machine: &mut Machine,
    rows: &[Row],
) -> Result<(), AllocError> {
    let mut steps = 0u32;
    tells(rt, machine, steps, State::More, None);
    for &(count, wanted, raised, output) in rows {
        assert!(rt; machine.steps() <= 1_000 && count <= 1_000);
        let ran = machine.slice(alloc, count)?;
        assert!(rt; ran == wanted);
        steps = steps.saturating_add(ran.steps);
        tells(rt, machine, steps, ran.state, raised);
        finds(rt, "output", machine.output(), output);
    }
    Ok(())
}

// Tests what a machine tells of itself that has neither a choice nor a delay.
fn tells(rt: &impl Abort, machine: &Machine, steps: u32, state: State, raised: Option<Exception>) {
    assert!(rt; machine.steps() == steps && machine.state() == state);
    assert!(rt; machine.raised() == raised);
    assert!(rt; machine.choices() == 0 && machine.clock() == 0 && !machine.is_cut());
}

// Once 42 is assigned.
#[test]
fn lends_its_parts(rt: HostRuntime) -> Result<(), AllocError> {
    let mut machine = machine_of(rt.alloc(), SUM)?;
    let gone = goes(&rt, rt.alloc(), &mut machine, &ASSIGNS);
    let lent = lends(&rt, rt.alloc(), &machine);
    drop(machine);
    gone.and(lent)
}

fn lends(rt: &impl Abort, alloc: Global, machine: &Machine) -> Result<(), AllocError> {
    assert!(rt; machine.program().name.is(b"M") && machine.limits() == SMALL);
    let parts = machine.parts();
    assert!(rt; parts.steps() == 2 && parts.clock() == 0 && parts.choices() == 0);
    assert!(rt; parts.len() == 1 && parts.raised().is_none());
    assert!(rt; parts.cells(alloc, 0)?.as_slice() == [Int32::new(42)].as_slice());
    assert!(rt; parts.cells(alloc, 1)?.is_empty());
    tells(rt, machine, 2, State::More, None);
    finds(rt, "output", machine.output(), b"");
    Ok(())
}
