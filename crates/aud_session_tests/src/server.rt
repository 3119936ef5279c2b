// A server in memory.

use aud_solo::serving::ServeFault;
use aud_solo::solo::solo;
use aud_solo::streams::Stream;
use std::alloc::Global;
use std::io;
use std::io::Read;

// Gives its bytes in pieces, none longer than `most`.
#[derive(Drop)]
struct Pieces<'a> {
    rest: &'a [u8],
    most: usize,
}

impl<'a> Read for Pieces<'a> {
    fn read(&mut self, buf: &mut [u8]) -> io::Result<usize> {
        let count = self.most.min(self.rest.len()).min(buf.len());
        buf[..count].copy_from_slice(&self.rest[..count]);
        self.rest = &self.rest[count..];
        Ok(count)
    }
}

/// What a server writes that reads these bytes in pieces, none longer than `most`.
pub fn answers(alloc: Global, sent: &[u8], most: usize) -> Result<Vec<u8>, ServeFault> {
    let mut reader = Stream::new(Pieces { rest: sent, most });
    let mut written = Vec::new(alloc);
    solo(alloc, &mut reader, &mut Stream::new(&mut written))?;
    Ok(written)
}
