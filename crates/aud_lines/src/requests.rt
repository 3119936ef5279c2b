// The requests of a stream of bytes.

ghost use Rattle.std.specs.Prelude.{◌≡◌, ℕ, ◌+◌, ◌<◌, ◌≤◌, List, [], ◌∷◌, ◌++◌, length, take, IfOk, OnOk, OnErr, IfSome, None, MatchOption};
ghost use Rattle.aud_text.specs.declared.limits.TheConstants.{REQUEST_BYTES};
ghost use Rattle.aud_lines.specs.Lines.{lines_of};
ghost use Rattle.aud_lines.specs.Requests.{gathered, load_of, requests, requests_from};
ghost use Rattle.aud_lines.specs.Ties.Asked.{load_requests};

use crate::commands::{Command, line_fault, read_command};
use crate::lines::{first_line, trimmed};
use aud_bench::request::{BadRequest, Request};
use aud_text::limits::REQUEST_BYTES;
use aud_text::text::Text;
use std::alloc::{AllocError, Global};

// The whole requests of some bytes, in order, and what follows them.
#[derive(Drop)]
pub(crate) struct Split<'a> {
    pub requests: Vec<Request>,
    pub rest: &'a [u8],
}

// Lines of a LOAD: how many are missing, the source that they are, and the fault of the first bad one.
#[derive(Drop)]
pub(crate) struct Loading {
    pub missing: u32,
    pub source: Vec<u8>,
    pub fault: Option<BadRequest>,
}

impl Loading {
    // Of a LOAD without lines.
    pub fn new(alloc: Global) -> Loading
        ensures { (result.missing ≡ 0) × (result.source.items ≡ []) × (result.fault ≡ None) }
    {
        Loading {
            missing: 0,
            source: Vec::new(alloc),
            fault: None,
        }
    }
}

// The lines of a LOAD that some bytes have, and what follows them.
#[derive(Drop)]
pub(crate) struct Gathered<'a> {
    pub load: Loading,
    pub rest: &'a [u8],
}

// So many bytes of a source no journal has room for.
pub(crate) const SOURCE: usize = REQUEST_BYTES as usize + 1;

// The requests that are whole in the bytes of a stream, whatever follows, behind others.
pub(crate) fn split_requests(
    alloc: Global,
    first: Vec<Request>,
    bytes: &[u8],
) -> Result<Split<'_>, AllocError>
    ensures whole { IfOk result (λ split. (more : List ℕ) → first.items ++ requests (bytes.now ++ more)
        ≡ split.requests.items ++ requests (split.rest.now ++ more)) }
    ensures none { IfOk result (λ split. requests split.rest.now ≡ []) }
{
    let mut read = first;
    let mut rest = bytes;
    while let Some((request, behind)) = first_request(alloc, rest)? {
        read.push(request)?;
        rest = behind;
    }
    Ok(Split {
        requests: read,
        rest,
    })
}

// The first request of the bytes, and what follows it; nothing where no request is whole.
fn first_request(alloc: Global, bytes: &[u8]) -> Result<Option<(Request, &[u8])>, AllocError>
    ensures first { IfOk result (λ found. MatchOption found (requests bytes.now ≡ [])
        (λ f. (more : List ℕ) → requests (bytes.now ++ more) ≡ f.0 ∷ requests (f.1.now ++ more))) }
    ensures shorter { IfOk result (λ found. IfSome found (λ f. length f.1.now < length bytes.now)) }
{
    let Some((line, behind)) = first_line(bytes) else {
        return Ok(None);
    };
    match read_command(alloc, line)? {
        Command::Whole(request) => Ok(Some((request, behind))),
        Command::Loads(lines) => load(alloc, lines, behind),
    }
}

// A LOAD of n lines, with which the bytes begin, and what follows them; nothing where they do not
// all come.
fn load(alloc: Global, lines: u32, bytes: &[u8]) -> Result<Option<(Request, &[u8])>, AllocError>
    ensures first { IfOk result (λ found. MatchOption found (load_requests lines bytes.now ≡ [])
        (λ f. (more : List ℕ) →
        load_requests lines (bytes.now ++ more) ≡ f.0 ∷ requests (f.1.now ++ more))) }
    ensures shorter { IfOk result (λ found. IfSome found (λ f. length f.1.now ≤ length bytes.now)) }
{
    let Gathered { load, rest } = gather(alloc, lines, None, bytes)?;
    let Loading {
        missing,
        source,
        fault,
    } = load;
    if missing > 0 {
        return Ok(None);
    }
    Ok(Some((load_of(source, fault), rest)))
}

// The lines that the bytes have of so many of a LOAD, the lines before which have this fault. All of them are read, and the first
// bad one decides.
pub(crate) fn gather(
    alloc: Global,
    lines: u32,
    fault: Option<BadRequest>,
    bytes: &[u8],
) -> Result<Gathered<'_>, AllocError>
    ensures whole { IfOk result (λ g. (before more : List ℕ) →
        gathered lines before fault (requests_from (lines_of (bytes.now ++ more)))
        ≡ gathered g.load.missing (before ++ g.load.source.items) g.load.fault
        (requests_from (lines_of (g.rest.now ++ more)))) }
    ensures ended { IfOk result (λ g. 0 < g.load.missing → lines_of g.rest.now ≡ []) }
    ensures shorter { IfOk result (λ g. length g.rest.now ≤ length bytes.now) }
{
    let mut source = Vec::new(alloc);
    let mut fault = fault;
    let mut rest = bytes;
    for done in 0..lines {
        let Some((line, behind)) = first_line(rest) else {
            let load = Loading {
                missing: lines - done,
                source,
                fault,
            };
            return Ok(Gathered { load, rest });
        };
        source.extend_from_slice(trimmed(line))?;
        source.push(b'\n')?;
        fault = fault.or(line_fault(line));
        rest = behind;
    }
    let load = Loading {
        missing: 0,
        source,
        fault,
    };
    Ok(Gathered { load, rest })
}

// The LOAD of this source, of which no more is told than that no journal has room for it.
pub(crate) fn load_of(source: Vec<u8>, fault: Option<BadRequest>) -> Request
    ensures { result ≡ load_of source.items fault }
{
    match fault {
        Some(why) => Request::Bad(why),
        None => Request::Load(Text::new(shortened(source))),
    }
}

// As much of a source as no journal has room for.
fn shortened(source: Vec<u8>) -> Vec<u8>
    ensures { result.items ≡ take (REQUEST_BYTES + 1) source.items }
{
    let mut source = source;
    source.truncate(SOURCE);
    source
}

// Adds to bytes as many as they may be.
pub(crate) fn lengthen(bytes: &mut Vec<u8>, more: &[u8], most: usize) -> Result<(), AllocError>
    requires { length bytes.old.items ≤ most }
    ensures longer { OnOk result (bytes.new.items ≡ take most (bytes.old.items ++ more.now)) }
    ensures refused { OnErr result (bytes.new.items ≡ bytes.old.items) }
{
    bytes.extend_from_slice(front(more, most - bytes.len()))
}

// So many of the first bytes.
pub(crate) fn front(bytes: &[u8], count: usize) -> &[u8]
    ensures { result.now ≡ take count bytes.now }
{
    if count < bytes.len() {
        &bytes[..count]
    } else {
        bytes
    }
}
