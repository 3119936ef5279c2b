// The requests of a stream that comes in pieces.

ghost use Rattle.std.specs.Prelude.{◌≡◌, ℕ, ◌+◌, List, [], ◌∷◌, ◌++◌, take, IfOk, OnErr};
ghost use Rattle.aud_text.specs.declared.limits.TheConstants.{LINE};
ghost use Rattle.aud_lines.specs.Requests.{load_of, requests};
ghost use Rattle.aud_lines.specs.Ties.Asked.{load_requests};
ghost use Rattle.aud_lines.specs.Ties.Begun.{nothing, requests_behind, IsShort};
ghost use Rattle.aud_lines.specs.Ties.Splits.{Splits};

use crate::commands::{Command, read_command};
use crate::lines::first_line;
use crate::requests::{
    Gathered, Loading, SOURCE, Split, front, gather, lengthen, load_of, split_requests,
};
use aud_bench::request::Request;
use aud_text::limits::LINE;
use std::alloc::{AllocError, Global};
use std::marker::Model;

// So many bytes of a line show that it is too long.
const LONG: usize = LINE as usize + 1;

/// What a stream has begun behind its last whole request: of a LOAD no more source than no journal has room for, and of a line no
/// more than shows that it is too long.
#[derive(Drop)]
pub struct Feed {
    // No line is missing where no LOAD is under way.
    load: Loading,
    // The line that has not ended.
    line: Vec<u8>,
}

impl Model for Feed {
    ghost use Rattle.aud_lines.specs.Ties.Begun.{Begun, reading_of, IsBegun};

    ghost Value = { Begun };

    ghost view = { λ f. record {
      reading = reading_of f.load.missing f.load.source.items f.load.fault;
      line = f.line.items;
    } };

    ghost invariant = { λ f. IsBegun (record {
      reading = reading_of f.load.missing f.load.source.items f.load.fault;
      line = f.line.items;
    }) };
}

impl Feed {
    /// A feed of a stream of which nothing has come.
    pub fn new(alloc: Global) -> Feed
        ensures { result ≡ nothing }
    {
        Feed {
            load: Loading::new(alloc),
            line: Vec::new(alloc),
        }
    }

    /// Takes the next bytes of the stream, however it is cut, and gives the requests that they complete, in order. What they
    /// begin is kept: at most 1,048,577 bytes of the source of a LOAD, and 1,025 of a line. The others change nothing.
    ///
    /// # Errors
    ///
    /// Where memory is refused. The feed is as it was.
    pub fn feed(&mut self, alloc: Global, bytes: &[u8]) -> Result<Vec<Request>, AllocError>
        ensures given { IfOk result (λ given. Splits self.old bytes.now given.items self.new) }
        ensures refused { OnErr result (self.new ≡ self.old) }
        ensures held { IsShort self.new }
    {
        let Some(_) = first_line(bytes) else {
            lengthen(&mut self.line, bytes, LONG)?;
            return Ok(Vec::new(alloc));
        };
        let mut stream = Vec::from_slice(alloc, &self.line)?;
        stream.extend_from_slice(bytes)?;
        if self.load.missing == 0 {
            let (requests, next) = fed(alloc, Vec::new(alloc), &stream)?;
            *self = next;
            return Ok(requests);
        }
        let Gathered {
            load: further,
            rest,
        } = gather(alloc, self.load.missing, self.load.fault, &stream)?;
        if further.missing == 0 {
            let first = completed(alloc, &self.load, further)?;
            let (requests, next) = fed(alloc, first, rest)?;
            *self = next;
            return Ok(requests);
        }
        let line = begun_line(alloc, rest)?;
        lengthen(&mut self.load.source, &further.source, SOURCE)?;
        self.load.missing = further.missing;
        self.load.fault = further.fault;
        self.line = line;
        Ok(Vec::new(alloc))
    }
}

// A LOAD whose last lines have come.
fn completed(alloc: Global, load: &Loading, last: Loading) -> Result<Vec<Request>, AllocError>
    ensures { IfOk result (λ first.
        first.items ≡ load_of (load.now.source.items ++ last.source.items) last.fault ∷ []) }
{
    let mut source = Vec::from_slice(alloc, &load.source)?;
    source.extend_from_slice(&last.source)?;
    let mut first = Vec::new(alloc);
    first.push(load_of(source, last.fault))?;
    Ok(first)
}

// The whole requests of a stream's bytes, behind others, and what they begin.
fn fed(alloc: Global, first: Vec<Request>, bytes: &[u8]) -> Result<(Vec<Request>, Feed), AllocError>
    ensures whole { IfOk result (λ fed. (more : List ℕ) →
        first.items ++ requests (bytes.now ++ more) ≡ fed.0.items ++ requests_behind fed.1 more) }
    ensures none { IfOk result (λ fed. requests_behind fed.1 [] ≡ []) }
    ensures held { IfOk result (λ fed. IsShort fed.1) }
{
    let Split { requests, rest } = split_requests(alloc, first, bytes)?;
    let next = begun(alloc, rest)?;
    Ok((requests, next))
}

// What bytes begin in which no request is whole.
fn begun(alloc: Global, bytes: &[u8]) -> Result<Feed, AllocError>
    requires { requests bytes.now ≡ [] }
    ensures whole { IfOk result (λ feed. (more : List ℕ) →
        requests (bytes.now ++ more) ≡ requests_behind feed more) }
    ensures none { IfOk result (λ feed. requests_behind feed [] ≡ []) }
    ensures held { IfOk result (λ feed. IsShort feed) }
{
    let Some((line, behind)) = first_line(bytes) else {
        let line = begun_line(alloc, bytes)?;
        return Ok(Feed {
            load: Loading::new(alloc),
            line,
        });
    };
    match read_command(alloc, line)? {
        Command::Whole(_) => unreachable!(),
        Command::Loads(lines) => begun_load(alloc, lines, behind),
    }
}

// A LOAD of so many lines that have not all come.
fn begun_load(alloc: Global, lines: u32, bytes: &[u8]) -> Result<Feed, AllocError>
    requires { load_requests lines bytes.now ≡ [] }
    ensures whole { IfOk result (λ feed. (more : List ℕ) →
        load_requests lines (bytes.now ++ more) ≡ requests_behind feed more) }
    ensures none { IfOk result (λ feed. requests_behind feed [] ≡ []) }
    ensures held { IfOk result (λ feed. IsShort feed) }
{
    let Gathered { mut load, rest } = gather(alloc, lines, None, bytes)?;
    let line = begun_line(alloc, rest)?;
    load.source.truncate(SOURCE);
    Ok(Feed { load, line })
}

// Of a line that has not ended, as much as shows whether it is too long.
fn begun_line(alloc: Global, line: &[u8]) -> Result<Vec<u8>, AllocError>
    ensures { IfOk result (λ begun. begun.items ≡ take (LINE + 1) line.now) }
{
    Vec::from_slice(alloc, front(line, LONG))
}
