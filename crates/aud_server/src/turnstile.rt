// How many connections there are at once.

use std::sync::{Condvar, Mutex, Wait};

/// The most connections at once.
const MOST: u32 = 64;

/// Lets so many in at once, and has the others wait.
#[derive(Drop)]
pub struct Turnstile {
    inside: Mutex<u32>,
    left: Condvar,
}

impl Turnstile {
    /// With nobody inside.
    pub fn new() -> Turnstile {
        Turnstile {
            inside: Mutex::new(0),
            left: Condvar::new(),
        }
    }

    /// Waits until there is room, and enters.
    pub fn enter<R: Wait>(&self, rt: &R) {
        let mut inside = self
            .left
            .wait_while(rt, self.inside.lock(rt), |inside| MOST <= *inside);
        *inside = inside.saturating_add(1);
    }

    /// Leaves, and lets another one in.
    pub fn leave<R: Wait>(&self, rt: &R) {
        let mut inside = self.inside.lock(rt);
        *inside = inside.saturating_sub(1);
        self.left.notify_one();
    }
}
