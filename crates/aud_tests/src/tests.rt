// What no contract of what runs programs says, and no session of `aud_session_tests` shows: each call that no session
// goes through, once where it succeeds; what is done at once, and taken ahead, of programs worked out by hand; keys of
// frames that are given back. The tests stand here for all crates, since a crate that has tests of its own is proved
// twice.

mod ahead;
mod benches;
mod choosing;
mod frames;
mod fusing;
mod machines;
mod queues;
mod sound;
mod tokens;

use aud_bench::loading::load;
use aud_scoped::ScopedProgram;
use aud_text::limits::STANDARD;
use std::alloc::{AllocError, Global};
use std::process::Abort;

// The program of a source text. A text that has faults fails the test as refused memory does.
fn loaded(alloc: Global, source: &[u8]) -> Result<ScopedProgram, AllocError> {
    match load(alloc, STANDARD, source) {
        Ok(program) => Ok(program),
        Err(_) => Err(AllocError),
    }
}

// Tests that these bytes were found.
fn finds(rt: &impl Abort, name: &str, found: &[u8], wanted: &[u8]) {
    assert_eq!(rt; found, wanted, "{name}");
}
