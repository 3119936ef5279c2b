// What the threads of the program share.

use aud_connection::serve::serve;
use aud_desk::desk::Desk;
use aud_desk::gate::Gate;
use aud_desk::seating::Seating;
use aud_solo::streams::Stream;
use std::alloc::Global;
use std::net::TcpStream;
use std::sync::Wait;

/// What works, and serves connections, on many threads: a desk. Where threads share a type of which no more is known
/// than this, their closures need no proof of their own that they may.
pub trait Host {
    /// Works until the host has stopped.
    fn work<R: Wait, G: Gate>(&self, rt: &R, alloc: Global, gate: &G);

    /// Serves a connection to its end. What went wrong with it is told to nobody.
    fn attend<R: Wait>(&self, rt: &R, alloc: Global, stream: &TcpStream);

    /// Lets those who work return once nothing is left.
    fn stop<R: Wait>(&self, rt: &R);
}

impl<D: Seating> Host for Desk<D> {
    fn work<R: Wait, G: Gate>(&self, rt: &R, alloc: Global, gate: &G) {
        Desk::work(self, rt, alloc, gate);
    }

    fn attend<R: Wait>(&self, rt: &R, alloc: Global, stream: &TcpStream) {
        let mut reader = Stream::new(stream);
        let mut writer = Stream::new(stream);
        let _ = serve(rt, alloc, self, &mut reader, &mut writer);
    }

    fn stop<R: Wait>(&self, rt: &R) {
        Desk::stop(self, rt);
    }
}
