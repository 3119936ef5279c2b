// What steps need of a program.

use aud_code::sound_code::SoundCode;
use aud_text::limits::Limits;
use aud_typed::program::Program;

/// A program with its code, and the limits of its machine.
#[derive(Clone, Copy)]
pub struct Compiled<'a> {
    pub code: &'a SoundCode,
    pub program: &'a Program,
    pub limits: Limits,
}
