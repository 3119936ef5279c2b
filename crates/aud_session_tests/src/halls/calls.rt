// The calls of a hall as a text: `hall`, and for each seat whether its limits are `standard` or `large`; then a call a
// line, of which the seat or the parcel comes first: `claim 1`, `submit 1 RUN 5`, `send 1`, `slice 0 9`, `check 0 1`,
// `collect 1 0`, `free 1`. In a request `|` ends a line.

use crate::repeated::TextFault;
use aud_bench::request::Request;
use aud_lines::feed::Feed;
use aud_text::limits::{LARGE, Limits, STANDARD};
use aud_worlds::event::Event;
use std::alloc::Global;

/// The limits of the seats, and the calls.
#[derive(Drop)]
pub struct Calls {
    pub limits: Vec<Limits>,
    pub events: Vec<Event>,
}

/// The calls of a text.
///
/// # Errors
///
/// `Form` where a line is none of these; `Memory` where memory is refused.
pub fn read_calls(alloc: Global, text: &str) -> Result<Calls, TextFault> {
    let mut lines = text.lines();
    let limits = limits(alloc, lines.next().unwrap_or(""))?;
    let mut events = Vec::new(alloc);
    for line in lines {
        let event = event(alloc, line)?;
        events.push(event).map_err(|_| TextFault::Memory)?;
    }
    Ok(Calls { limits, events })
}

fn limits(alloc: Global, line: &str) -> Result<Vec<Limits>, TextFault> {
    let seats = line.strip_prefix("hall ").ok_or(TextFault::Form)?;
    let mut limits = Vec::new(alloc);
    for word in seats.split(' ') {
        let seat = limits_of(word)?;
        limits.push(seat).map_err(|_| TextFault::Memory)?;
    }
    Ok(limits)
}

fn limits_of(word: &str) -> Result<Limits, TextFault> {
    match word {
        "standard" => Ok(STANDARD),
        "large" => Ok(LARGE),
        _ => Err(TextFault::Form),
    }
}

fn event(alloc: Global, line: &str) -> Result<Event, TextFault> {
    let (word, rest) = line.split_once(' ').ok_or(TextFault::Form)?;
    let (first, rest) = rest.split_once(' ').unwrap_or((rest, ""));
    let first = place(first)?;
    match word {
        "claim" => Ok(Event::Claim { seat: first }),
        "submit" => submitted(alloc, first, rest),
        "send" => Ok(Event::SendOut { seat: first }),
        "slice" => Ok(Event::Slice {
            parcel: first,
            units: number(rest)?,
        }),
        "check" => Ok(Event::CheckIn {
            parcel: first,
            seat: place(rest)?,
        }),
        "collect" => Ok(Event::Collect {
            seat: first,
            from: place(rest)?,
        }),
        "free" => Ok(Event::Free { seat: first }),
        _ => Err(TextFault::Form),
    }
}

fn submitted(alloc: Global, seat: usize, text: &str) -> Result<Event, TextFault> {
    let mut lines = Vec::new(alloc);
    for line in text.split('|') {
        lines.extend_from_slice(line.as_bytes())?;
        lines.extend_from_slice(b"\n")?;
    }
    let mut requests = Feed::new(alloc).feed(alloc, &lines)?;
    match requests.pop() {
        Some(request) => Ok(Event::Submit { seat, request }),
        None => Err(TextFault::Form),
    }
}

fn place(text: &str) -> Result<usize, TextFault> {
    Ok(number(text)? as usize)
}

fn number(text: &str) -> Result<u64, TextFault> {
    text.parse::<u64>().map_err(|_| TextFault::Form)
}
