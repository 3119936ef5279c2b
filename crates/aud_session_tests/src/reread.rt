// Source texts, and what is read from their canonical texts.

use crate::fault::Fault;
use crate::session::Session;
use aud_bench::request::Request;
use aud_lex::fault::LexFault;
use aud_lex::lex;
use aud_lex::token::{Kind, Token};
use aud_lines::feed::Feed;
use aud_parse::{SyntaxFault, parse};
use aud_syntax::print::print;
use aud_text::text::Text;
use std::alloc::Global;

/// How many of the source texts that are sent are programs by the grammar, and how many of these are read otherwise
/// from their canonical texts.
#[derive(Clone, Copy)]
pub struct Reread {
    pub programs: usize,
    pub others: usize,
}

impl Reread {
    /// Both numbers of this and of others.
    pub fn with(self, more: Reread) -> Reread {
        Reread {
            programs: self.programs.saturating_add(more.programs),
            others: self.others.saturating_add(more.others),
        }
    }
}

/// Reads each source text of the requests, and then its canonical text.
///
/// # Errors
///
/// `Memory` where memory is refused.
pub fn read_back(alloc: Global, sent: &[u8]) -> Result<Reread, Fault> {
    let mut all = Reread {
        programs: 0,
        others: 0,
    };
    for request in &Feed::new(alloc).feed(alloc, sent)? {
        if let Request::Load(source) = request {
            all = all.with(read_one_back(alloc, source.as_bytes())?);
        }
    }
    Ok(all)
}

fn read_one_back(alloc: Global, source: &[u8]) -> Result<Reread, Fault> {
    let Some(first) = read(alloc, source)? else {
        return Ok(Reread {
            programs: 0,
            others: 0,
        });
    };
    let is_same = match read(alloc, first.canonical.as_bytes())? {
        Some(second) => is_same(&first, &second),
        None => false,
    };
    Ok(Reread {
        programs: 1,
        others: usize::from(!is_same),
    })
}

/// The canonical text of a row's program, where it is not the one that is written, or of that one, where it is not its own.
///
/// # Errors
///
/// `Memory` where memory is refused.
pub fn look_at(alloc: Global, row: &Session) -> Result<Option<String>, Fault> {
    for text in [&row.sent, &row.written] {
        let found = canonical(alloc, text)?;
        if found.as_bytes() != row.written.as_slice() {
            return Ok(Some(found));
        }
    }
    Ok(None)
}

fn canonical(alloc: Global, text: &[u8]) -> Result<String, Fault> {
    match read(alloc, text)? {
        Some(program) => Ok(String::from_utf8_lossy(alloc, program.canonical.as_bytes())?),
        None => Ok(String::from_str(alloc, "no program")?),
    }
}

// The tokens of a program, and its canonical text.
#[derive(Drop)]
struct Program<'a> {
    tokens: Vec<Token<'a>>,
    canonical: Text,
}

// The program that a text is, if it is one.
fn read<'a>(alloc: Global, source: &'a [u8]) -> Result<Option<Program<'a>>, Fault> {
    let tokens = match lex(alloc, source) {
        Ok(tokens) => tokens,
        Err(LexFault::Memory) => return Err(Fault::Memory),
        Err(LexFault::Lexical(_)) => return Ok(None),
    };
    let unit = match parse(alloc, &tokens) {
        Ok(unit) => unit,
        Err(SyntaxFault::Memory) => return Err(Fault::Memory),
        Err(_) => return Ok(None),
    };
    let canonical = print(alloc, &unit)?;
    Ok(Some(Program { tokens, canonical }))
}

// A tree has a place for each token, so trees are the same but for the places where the tokens are.
fn is_same(first: &Program, second: &Program) -> bool {
    if first.canonical.as_bytes() != second.canonical.as_bytes()
        || first.tokens.len() != second.tokens.len()
    {
        return false;
    }
    for (x, y) in first.tokens.iter().zip(&second.tokens) {
        if !is_same_token(x, y) {
            return false;
        }
    }
    true
}

// Names are written in capitals, and numbers in base ten.
fn is_same_token(x: &Token, y: &Token) -> bool {
    if x.kind() != y.kind() {
        return false;
    }
    match x.kind() {
        Kind::Identifier => x.text().eq_ignore_ascii_case(y.text()),
        Kind::Integer => !is_plain(x.text()) || x.text() == y.text(),
        Kind::Text => x.text() == y.text(),
        _ => true,
    }
}

// Whether a number is written as its canonical text has it, and is an Integer.
fn is_plain(number: &[u8]) -> bool {
    number.len() < 10
        && !number.starts_with(b"0")
        && number.iter().all(|byte| byte.is_ascii_digit())
}
