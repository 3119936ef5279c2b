// The program: its command line, and how it ends. On standard input and output it serves the session of `aud_solo`;
// else it listens, and serves connections at a desk.
#![tactic(auto)]

pub mod host;
mod listen;
mod options;
pub mod program;
mod turnstile;
