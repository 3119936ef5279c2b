// Frames that are opened and left, one after the other, beside the main procedure's.

use aud_store::purpose::Purpose;
use aud_store::stack::Stack;
use aud_store::store::Store;
use aud_text::int32::Int32;
use aud_text::place::Pos;
use std::alloc::{AllocError, Global};
use std::process::Abort;

const AT: Pos = Pos { line: 1, col: 1 };

// So many are opened and left.
const FRAMES: usize = 1_000;

// All frames are given back that nothing names any more.
fn give_back(alloc: Global, store: &mut Store) -> Result<(), AllocError> {
    let mut named = Vec::new(alloc);
    let mut stack = Stack::new(alloc);
    store.exchange(&mut stack);
    let told = stack.names(&mut named);
    store.exchange(&mut stack);
    drop(stack);
    told?;
    store.forget(&mut named);
    Ok(())
}

// Opens and leaves them; the greatest of their keys. One that lacks its key fails the test as refused memory does.
fn greatest_key(alloc: Global, store: &mut Store) -> Result<usize, AllocError> {
    store.enter(alloc, Purpose::Body, &[], 0, AT, &[Int32::new(1)], 1)?;
    let mut greatest = 0;
    for _ in 0..FRAMES {
        let frame = store.enter(alloc, Purpose::Block, &[], 1, AT, &[Int32::new(2)], 1)?;
        greatest = greatest.max(store.key(frame).ok_or(AllocError)?);
        store.leave();
        if store.is_due() {
            give_back(alloc, store)?;
        }
    }
    Ok(greatest)
}

#[test]
fn gives_keys_out_again(rt: HostRuntime) -> Result<(), AllocError> {
    let mut store = Store::new(rt.alloc());
    let greatest = greatest_key(rt.alloc(), &mut store);
    keeps_frames(&rt, &store);
    drop(store);
    // Keys are numbered from 0.
    assert!(rt; greatest? < FRAMES - 1);
    Ok(())
}

fn keeps_frames(rt: &impl Abort, store: &Store) {
    assert!(rt; store.frames().len() == 1 + FRAMES);
    assert!(rt; store.key(1).is_none() && store.key(FRAMES).is_some());
    assert!(rt; store.innermost_cell(0).get() == 1);
}
