// From a source text to a typed program.

ghost use Rattle.std.specs.Prelude.{◌≡◌, IfOk, Result, Err};
ghost use Rattle.aud_typed.specs.Why.Scoped.{IsScoped};
ghost use Rattle.aud_typed.specs.Ties.View.{plain_program};
ghost use Rattle.aud_lex.specs.Lexed.{lexed};
ghost use Rattle.aud_syntax.specs.Ties.View.{plain_unit};
ghost use Rattle.aud_bench.specs.Loading.{after_checking, after_lexing, after_parsing, place_of, program_of};
ghost use Rattle.aud_bench.specs.Ties.Loads.{Gives};
ghost use Rattle.aud_check.specs.Checked as rules;
ghost use Rattle.aud_parse.specs.Ties.Gives as parses;
ghost use Rattle.aud_grammar.specs.Parsed as syntax;
ghost use Rattle.aud_syntax.specs.Plain as plain;
ghost use Rattle.aud_bench.specs.declared.loading.LoadFault.TheVariants as fault;
ghost use Rattle.aud_bench.specs.declared.request.Answer.TheVariants as answer;

use crate::request::Answer;
use aud_check::check;
use aud_check::fault::CheckFault;
use aud_lex::fault::LexFault;
use aud_lex::lex;
use aud_lex::token::Token;
use aud_parse::{SyntaxFault, parse};
use aud_scoped::ScopedProgram;
use aud_syntax::tree::Unit;
use aud_text::limits::Limits;
use aud_text::lines::line_count;
use aud_text::place::Pos;
use aud_text::refusal::Refusal;
use std::alloc::Global;

/// Why a source text is not loaded.
#[derive(Drop)]
pub enum LoadFault {
    /// Where memory is refused.
    Memory,
    /// It is no program, and this is answered.
    Refused(Answer),
}

/// The program that a source text is. It is refused where it is longer than the limit, and else at its first lexical
/// fault, at the first place where no program goes on or a level too many is opened, or at its least broken rule. Each
/// variable of the program is elaborated before it is read or assigned (RM 3.3.1).
pub fn load(alloc: Global, limits: Limits, source: &[u8]) -> Result<ScopedProgram, LoadFault>
    ensures answer { Gives (program_of limits source.now) result }
    ensures scoped { IfOk result (λ program. IsScoped (plain_program program)) }
{
    if source.len() > limits.source as usize {
        return Err(LoadFault::Refused(Answer::Refused(Refusal::SourceTooLong)));
    }
    read(alloc, source)
}

fn read(alloc: Global, source: &[u8]) -> Result<ScopedProgram, LoadFault>
    ensures answer { Gives (after_lexing source.now (lexed source.now)) result }
    ensures scoped { IfOk result (λ program. IsScoped (plain_program program)) }
{
    match lex(alloc, source) {
        Ok(tokens) => parsed(alloc, source, &tokens),
        Err(LexFault::Memory) => Err(LoadFault::Memory),
        Err(LexFault::Lexical(at)) => Err(fault_at(Refusal::Lexical, at)),
    }
}

fn parsed(alloc: Global, source: &[u8], tokens: &[Token]) -> Result<ScopedProgram, LoadFault>
    ensures answer { Gives (after_parsing source.now tokens.now (syntax.parsed tokens.now)) result }
    ensures scoped { IfOk result (λ program. IsScoped (plain_program program)) }
{
    match parse(alloc, tokens) {
        Ok(unit) => checked(alloc, &unit),
        Err(fault) => Err(syntax_refusal(source, tokens, fault)),
    }
}

fn syntax_refusal(source: &[u8], tokens: &[Token], fault: SyntaxFault) -> LoadFault
    ensures { (read : Result plain.Unit syntax.Fault) → parses.Gives plain_unit read (Err fault) →
        Gives (after_parsing source.now tokens.now read) (Err result) }
{
    match fault {
        SyntaxFault::Memory => LoadFault::Memory,
        SyntaxFault::Syntax(index) => fault_at(Refusal::Syntax, place_of(source, tokens, index)),
        SyntaxFault::TooDeep(index) => fault_at(Refusal::TooDeep, place_of(source, tokens, index)),
    }
}

fn checked(alloc: Global, unit: &Unit) -> Result<ScopedProgram, LoadFault>
    ensures answer { Gives (after_checking (rules.checked (plain_unit unit.now))) result }
    ensures scoped { IfOk result (λ program. IsScoped (plain_program program)) }
{
    match check(alloc, unit) {
        Ok(program) => Ok(program),
        Err(CheckFault::Memory) => Err(LoadFault::Memory),
        Err(CheckFault::Wrong(fault)) => Err(fault_at(fault.refusal, fault.at)),
    }
}

fn fault_at(refusal: Refusal, at: Pos) -> LoadFault
    ensures { result ≡ fault.Refused (answer.RefusedAt refusal at) }
{
    LoadFault::Refused(Answer::RefusedAt(refusal, at))
}

// Where the token of this index stands; behind the last one, the line after the last line.
fn place_of(source: &[u8], tokens: &[Token], index: usize) -> Pos
    ensures { result ≡ place_of source.now tokens.now index }
{
    match tokens.get(index) {
        Some(token) => token.at(),
        None => Pos {
            line: line_count(source) + 1,
            col: 1,
        },
    }
}
