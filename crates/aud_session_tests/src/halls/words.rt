// Replies and answers in words, by which they are told and compared.

use aud_bench::bench::Work;
use aud_bench::request::{Answer, Request};
use aud_bench::session::Session;
use aud_lines::answers::answer_text;
use aud_text::limits::Limits;
use aud_worlds::next::Next;
use aud_worlds::reply::Reply;
use std::alloc::{AllocError, Global};

/// The words of a reply as lines; of answers, their texts.
pub fn words(alloc: Global, reply: &Reply) -> Result<String, AllocError> {
    match reply {
        Reply::Refused(fault) => format!(in alloc; "{fault}\n"),
        Reply::Worked(Work { done, left }) => format!(in alloc; "did {done}, left {left}\n"),
        Reply::Stranger(why) => format!(in alloc; "stranger: {why}\n"),
        Reply::Answers(answers) if !answers.is_empty() => texts(alloc, answers),
        _ => String::from_str(alloc, plain(reply)),
    }
}

// Those of a reply without numbers and answers.
fn plain(reply: &Reply) -> &'static str {
    match reply {
        Reply::Accepted => "accepted\n",
        Reply::Sent(true) => "sent\n",
        Reply::Sent(false) => "stays\n",
        Reply::Taken(Next::More) => "taken in, more\n",
        Reply::Taken(Next::Idle) => "taken in, idle\n",
        Reply::Answers(_) => "no answer\n",
        _ => "nothing\n",
    }
}

/// The texts of answers, one behind the other.
pub fn texts(alloc: Global, answers: &[Answer]) -> Result<String, AllocError> {
    let mut text = Vec::new(alloc);
    for answer in answers {
        text.extend_from_slice(&answer_text(alloc, answer)?)?;
    }
    String::from_utf8_lossy(alloc, &text)
}

/// The texts of the private server's answers to requests, up to that to a QUIT.
pub fn alone(alloc: Global, limits: Limits, requests: &[Request]) -> Result<String, AllocError> {
    let mut server = Session::new(limits);
    let mut answers = Vec::new(alloc);
    for request in requests {
        if let Some(answer) = server.answer(alloc, request)? {
            answers.push(answer)?;
        }
    }
    texts(alloc, &answers)
}
