// Entry calls that arrive in a queue, leave it, and are given back.

use crate::tests::loaded;
use aud_calls::calls::NewCall;
use aud_gen::generate;
use aud_meaning::state::{Form, Owner};
use aud_state::state::State;
use aud_text::place::Pos;
use std::alloc::{AllocError, Global};
use std::process::Abort;

const IDLE: &[u8] = b"procedure M is begin null; end M;\n";

// The entry that is called, and the task that has it.
const ENTRY: usize = 2;

const OWNER: usize = 7;

const CALLS: usize = 3;

#[derive(Clone, Copy)]
enum Act {
    Arrive(usize),
    Select(usize),
    Cancel(usize),
}

// What happens to a call, and which one waits for longest then.
const ROWS: [(Act, Option<usize>); 7] = [
    (Act::Arrive(2), Some(2)),
    (Act::Arrive(0), Some(2)),
    (Act::Arrive(1), Some(2)),
    (Act::Select(2), Some(0)),
    // it goes behind the other one
    (Act::Arrive(0), Some(1)),
    (Act::Cancel(1), Some(0)),
    (Act::Select(0), None),
];

// So many are made and cancelled before some are given back.
const CANCELLED: usize = 300;

fn opened(alloc: Global) -> Result<State, AllocError> {
    let program = loaded(alloc, IDLE)?;
    let code = generate(alloc, &program)?;
    let program = program.into_program();
    let state = State::new(alloc, &code, &program.units, &program.name);
    drop(code);
    drop(program);
    state
}

#[test]
fn the_oldest_call_comes_first(rt: HostRuntime) -> Result<(), AllocError> {
    let mut state = opened(rt.alloc())?;
    let met = each_row(&rt, rt.alloc(), &mut state);
    drop(state);
    met
}

fn each_row(rt: &impl Abort, alloc: Global, state: &mut State) -> Result<(), AllocError> {
    for number in 0..CALLS {
        let id = state.make_call(call_of(alloc, number))?;
        assert!(rt; id == number);
    }
    for (act, oldest) in ROWS {
        does(state, act)?;
        assert!(rt; state.first_queued(OWNER, ENTRY) == oldest);
        assert!(rt; state.first_queued(OWNER, ENTRY + 1).is_none());
    }
    Ok(())
}

#[test]
fn calls_that_are_over_are_given_back(rt: HostRuntime) -> Result<(), AllocError> {
    let mut state = opened(rt.alloc())?;
    let met = gives_back(&rt, rt.alloc(), &mut state);
    drop(state);
    met
}

fn gives_back(rt: &impl Abort, alloc: Global, state: &mut State) -> Result<(), AllocError> {
    for number in 0..CANCELLED {
        let id = state.make_call(call_of(alloc, number))?;
        state.cancel_call(id);
    }
    let last = state.make_call(call_of(alloc, CANCELLED))?;
    state.arrive(last)?;
    assert!(rt; state.are_calls_due() && state.caller(CANCELLED - 1) == CANCELLED - 1);
    state.forget_calls(alloc)?;
    assert!(rt; !state.are_calls_due() && state.caller(CANCELLED - 1) == 0);
    assert!(rt; state.caller(last) == CANCELLED && state.first_queued(OWNER, ENTRY) == Some(last));
    Ok(())
}

fn does(state: &mut State, act: Act) -> Result<(), AllocError> {
    match act {
        Act::Arrive(id) => return state.arrive(id),
        Act::Select(id) => state.select_call(id),
        Act::Cancel(id) => state.cancel_call(id),
    }
    Ok(())
}

// A call that a task makes.
fn call_of(alloc: Global, caller: usize) -> NewCall {
    NewCall {
        caller,
        owner: Owner::Task(OWNER),
        entry: ENTRY,
        values: Vec::new(alloc),
        backs: Vec::new(alloc),
        form: Form::Plain,
        at: Pos { line: 1, col: 1 },
    }
}
