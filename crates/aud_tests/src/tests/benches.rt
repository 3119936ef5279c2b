// A bench that is closed, with ample memory. What is done with open ones the rows of halls in `aud_session_tests` show.

ghost use Rattle.std.specs.Prelude.{◌≡◌};

use crate::tests::finds;
use aud_bench::bench::Bench;
use aud_bench::request::Answer;
use aud_lines::answers::answer_text;
use aud_text::limits::STANDARD;
use std::alloc::{AllocError, Global};
use std::process::Abort;

#[test]
fn tells_that_memory_is_out(rt: HostRuntime) -> Result<(), AllocError> {
    let mut bench = Bench::new(rt.alloc(), STANDARD)?;
    bench.close();
    let told = tells(&rt, rt.alloc(), &mut bench);
    drop(bench);
    told
}

// Of a bench from which no answer was taken.
fn tells(rt: &impl Abort, alloc: Global, bench: &mut Bench) -> Result<(), AllocError>
    requires { bench.old.taken ≡ 0 }
{
    assert!(rt; bench.is_spent() && bench.left() == 0 && bench.limits() == STANDARD);
    assert!(rt; bench.answered() == 1);
    let mut taken = Vec::with_capacity(alloc, 1)?;
    bench.take_answers(&mut taken, 0);
    assert!(rt; bench.answers().is_empty() && taken.len() == 1);
    let told = are_told(rt, alloc, &taken);
    drop(taken);
    told
}

fn are_told(rt: &impl Abort, alloc: Global, answers: &[Answer]) -> Result<(), AllocError> {
    for answer in answers {
        let text = answer_text(alloc, answer)?;
        finds(rt, "answer", &text, b"- E90 out of memory\n");
    }
    Ok(())
}
