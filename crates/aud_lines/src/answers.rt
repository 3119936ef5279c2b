// The text of answers.

ghost use Rattle.std.specs.Prelude.{◌≡◌, IfOk, Some, None};
ghost use Rattle.aud_meaning.specs.Listings.{state_words};
ghost use Rattle.aud_text.specs.Ties.Adds.{Adds};
ghost use Rattle.aud_lines.specs.Text.{line_end, head, loaded_text, ran_line, raised_name, report_text, choices_text, clock_text, listed_text, is_open, output_lines, output_text, refusal, refused_text, refused_at_text, answer_text};

use aud_bench::request::{Answer, Lines, Raised, Report};
use aud_meaning::state::State;
use aud_text::digits::push_decimal;
use aud_text::place::Pos;
use aud_text::refusal::Refusal;
use std::alloc::{AllocError, Global};

/// The text of an answer: `+` and the number of its lines, and the lines; or `-`, the code of the
/// refusal and why.
///
/// # Errors
///
/// Where memory is refused.
pub fn answer_text(alloc: Global, answer: &Answer) -> Result<Vec<u8>, AllocError>
    ensures { IfOk result (λ text. text.items ≡ answer_text answer.now) }
{
    let mut out = Vec::new(alloc);
    push_answer(&mut out, answer)?;
    Ok(out)
}

fn push_answer(out: &mut Vec<u8>, answer: &Answer) -> Result<(), AllocError>
    ensures { Adds result out.old out.new (answer_text answer.now) }
{
    match answer {
        Answer::Loaded(name) => push_loaded(out, name.as_bytes()),
        Answer::Ran(report) => push_report(out, report),
        Answer::Choices(waiting) => push_choices(out, *waiting),
        Answer::Clock(milliseconds) => push_clock(out, *milliseconds),
        Answer::Listed(lines) => push_listed(out, lines),
        Answer::Output(bytes) => push_output(out, bytes.as_bytes()),
        Answer::Done => push_head(out, 0),
        Answer::Refused(why) => push_refusal(out, *why),
        Answer::RefusedAt(why, at) => push_refusal_at(out, *why, *at),
    }
}

fn push_loaded(out: &mut Vec<u8>, name: &[u8]) -> Result<(), AllocError>
    ensures { Adds result out.old out.new (loaded_text name.now) }
{
    push_head(out, 1)?;
    out.extend_from_slice(b"loaded ")?;
    out.extend_from_slice(name)?;
    push_line_end(out)
}

// What the answers that are not refusals begin with.
fn push_head(out: &mut Vec<u8>, lines: u64) -> Result<(), AllocError>
    ensures { Adds result out.old out.new (head lines) }
{
    out.extend_from_slice(b"+ ")?;
    push_decimal(out, lines)?;
    push_line_end(out)
}

fn push_line_end(out: &mut Vec<u8>) -> Result<(), AllocError>
    ensures { Adds result out.old out.new line_end }
{
    out.push(b'\n')?;
    Ok(())
}

fn push_report(out: &mut Vec<u8>, report: &Report) -> Result<(), AllocError>
    ensures { Adds result out.old out.new (report_text report.now report.now.raised) }
{
    match &report.raised {
        None => push_ran(out, report),
        Some(raised) => push_raised(out, report, raised),
    }
}

fn push_ran(out: &mut Vec<u8>, report: &Report) -> Result<(), AllocError>
    ensures { Adds result out.old out.new (report_text report.now None) }
{
    push_head(out, 1)?;
    push_ran_line(out, report)
}

fn push_raised(out: &mut Vec<u8>, report: &Report, raised: &Raised) -> Result<(), AllocError>
    ensures { Adds result out.old out.new (report_text report.now (Some raised.now)) }
{
    push_head(out, 2)?;
    push_ran_line(out, report)?;
    out.extend_from_slice(b"main raised ")?;
    out.extend_from_slice(raised_name(raised))?;
    push_line_end(out)
}

fn raised_name(raised: &Raised) -> &[u8]
    ensures { result.now ≡ raised_name raised.now }
{
    match raised {
        Raised::Predefined(raise) => raise.name(),
        Raised::Declared(name) => name.as_bytes(),
    }
}

fn push_ran_line(out: &mut Vec<u8>, report: &Report) -> Result<(), AllocError>
    ensures { Adds result out.old out.new (ran_line report.now) }
{
    out.extend_from_slice(b"ran ")?;
    push_decimal(out, u64::from(report.steps))?;
    out.extend_from_slice(b" ")?;
    push_state(out, report.state)?;
    push_line_end(out)
}

fn push_state(out: &mut Vec<u8>, state: State) -> Result<(), AllocError>
    ensures { Adds result out.old out.new (state_words state) }
{
    match state {
        State::Ended => out.extend_from_slice(b"ended"),
        State::OutputFull => out.extend_from_slice(b"output full"),
        State::More => out.extend_from_slice(b"more"),
        State::Waiting(time) => {
            out.extend_from_slice(b"waiting ")?;
            push_decimal(out, time)
        }
        State::Stuck => out.extend_from_slice(b"stuck"),
    }
}

fn push_choices(out: &mut Vec<u8>, waiting: usize) -> Result<(), AllocError>
    ensures { Adds result out.old out.new (choices_text waiting) }
{
    push_head(out, 1)?;
    out.extend_from_slice(b"choices ")?;
    push_decimal(out, waiting as u64)?;
    push_line_end(out)
}

fn push_clock(out: &mut Vec<u8>, milliseconds: u64) -> Result<(), AllocError>
    ensures { Adds result out.old out.new (clock_text milliseconds) }
{
    push_head(out, 1)?;
    out.extend_from_slice(b"clock ")?;
    push_decimal(out, milliseconds)?;
    push_line_end(out)
}

fn push_listed(out: &mut Vec<u8>, lines: &Lines) -> Result<(), AllocError>
    ensures { Adds result out.old out.new (listed_text lines.now) }
{
    push_head(out, lines.count as u64)?;
    out.extend_from_slice(lines.text.as_bytes())
}

fn push_output(out: &mut Vec<u8>, bytes: &[u8]) -> Result<(), AllocError>
    ensures { Adds result out.old out.new (output_text bytes.now) }
{
    push_head(out, output_lines(bytes) + 1)?;
    out.extend_from_slice(b"bytes ")?;
    push_decimal(out, bytes.len() as u64)?;
    push_line_end(out)?;
    out.extend_from_slice(bytes)?;
    if is_open(bytes) {
        push_line_end(out)?;
    }
    Ok(())
}

// The lines of an output, of which the last one may lack its line feed.
fn output_lines(bytes: &[u8]) -> u64
    ensures { result ≡ output_lines bytes.now }
{
    let ended = bytes.iter().filter(|byte| **byte == b'\n').count() as u64;
    if is_open(bytes) { ended + 1 } else { ended }
}

// Whether the text goes on behind its last line feed.
#[tactic(auto, using(crate::proofs::OutputLaws::open_last))]
fn is_open(bytes: &[u8]) -> bool
    ensures { result ≡ is_open bytes.now }
{
    match bytes.split_last() {
        Some((last, _)) => *last != b'\n',
        None => false,
    }
}

fn push_refusal(out: &mut Vec<u8>, why: Refusal) -> Result<(), AllocError>
    ensures { Adds result out.old out.new (refused_text why) }
{
    push_code(out, why)?;
    out.extend_from_slice(why.words())?;
    push_line_end(out)
}

fn push_refusal_at(out: &mut Vec<u8>, why: Refusal, at: Pos) -> Result<(), AllocError>
    ensures { Adds result out.old out.new (refused_at_text why at) }
{
    push_code(out, why)?;
    push_decimal(out, at.line as u64)?;
    out.extend_from_slice(b":")?;
    push_decimal(out, at.col as u64)?;
    out.extend_from_slice(b" ")?;
    out.extend_from_slice(why.words())?;
    push_line_end(out)
}

// What refusals begin with.
fn push_code(out: &mut Vec<u8>, why: Refusal) -> Result<(), AllocError>
    ensures { Adds result out.old out.new (refusal why) }
{
    out.extend_from_slice(b"- E")?;
    push_decimal(out, u64::from(why.number()))?;
    out.extend_from_slice(b" ")
}
