// A reader that counts what it gives, a writer that tells the count, and one that takes some bytes alone.

use aud_text::digits::push_decimal;
use std::cell::Cell;
use std::io::{self, Read, Write};

// Gives a byte at a time, and counts them.
#[derive(Drop)]
pub struct Counted<'a> {
    pub rest: &'a [u8],
    pub given: &'a Cell<u64>,
}

impl Read for Counted<'_> {
    fn read(&mut self, buf: &mut [u8]) -> io::Result<usize> {
        let count = 1.min(self.rest.len()).min(buf.len());
        buf[..count].copy_from_slice(&self.rest[..count]);
        self.rest = &self.rest[count..];
        self.given
            .set(self.given.get().saturating_add(count as u64));
        Ok(count)
    }
}

// Writes before each piece how many bytes were given then.
#[derive(Drop)]
pub struct Noted<'a> {
    pub written: &'a mut Vec<u8>,
    pub given: &'a Cell<u64>,
}

impl Write for Noted<'_> {
    fn write(&mut self, buf: &[u8]) -> io::Result<usize> {
        push_decimal(self.written, self.given.get())?;
        self.written.extend_from_slice(b": ")?;
        self.written.extend_from_slice(buf)?;
        Ok(buf.len())
    }

    fn flush(&mut self) -> io::Result<()> {
        Ok(())
    }
}

// Takes so many bytes in all, and no more.
#[derive(Drop)]
pub struct Roomy<'a> {
    pub written: &'a mut Vec<u8>,
    pub room: usize,
}

impl Write for Roomy<'_> {
    fn write(&mut self, buf: &[u8]) -> io::Result<usize> {
        let count = buf.len().min(self.room.saturating_sub(self.written.len()));
        self.written.extend_from_slice(&buf[..count])?;
        Ok(count)
    }

    fn flush(&mut self) -> io::Result<()> {
        Ok(())
    }
}
