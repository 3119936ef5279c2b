// The listening program: workers, and a thread for each connection.

ghost use Rattle.std.specs.Prelude.{◌≡◌, ◌-◌, ◌++◌, IfOk, replicate};
ghost use Rattle.aud_hall.specs.Halls.{limits_of};
ghost use Rattle.aud_text.specs.declared.limits.TheConstants.{STANDARD, LARGE};
ghost use Rattle.aud_server.specs.declared.listen.ListenFault.TheVariants as fault;

use crate::host::Host;
use crate::options::Options;
use crate::turnstile::Turnstile;
use aud_desk::desk::Desk;
use aud_desk::gate::Direct;
use aud_desk::seating::Seating;
use aud_hall::hall::Hall;
use aud_text::limits::{LARGE, Limits, STANDARD};
use std::alloc::{AllocError, Global};
use std::io::Read;
use std::marker::Brand;
use std::net::{Ipv4Addr, Net, Shutdown, TcpListener, TcpStream};
use std::sync::Wait;
use std::thread;
use std::thread::Threads;
use std::time::Duration;

/// Why the program listens no longer.
#[derive(Clone, Copy)]
pub enum ListenFault {
    /// The port cannot be listened on, or a connection not be accepted.
    Listen,
    /// Memory is refused, or a worker's thread.
    Memory,
}

impl From<AllocError> for ListenFault {
    ghost from_gives = { λ _ e. e ≡ fault.Memory };

    fn from(_error: AllocError) -> ListenFault {
        ListenFault::Memory
    }
}

/// Listens on 127.0.0.1, serves connections at one desk, and ends after so many of them. Every thread has ended then.
///
/// # Errors
///
/// `Listen` where the port cannot be listened on, or a connection cannot be accepted; `Memory` where it is refused
/// before the first connection, or a worker cannot be started.
pub fn listen<R>(rt: &R, alloc: Global, options: Options) -> Result<(), ListenFault>
where
    R: Net<Listener = TcpListener, Stream = TcpStream> + Threads + Wait + Sync,
{
    let hall = Hall::new(alloc, limits_of_seats(alloc, options.seats, options.large)?)?;
    listen_at::<Brand, R>(rt, alloc, hall, options)
}

// The same, at a desk of this hall.
fn listen_at<D, R>(rt: &R, alloc: Global, hall: Hall, options: Options) -> Result<(), ListenFault>
where
    D: Seating + Send + Sync,
    R: Net<Listener = TcpListener, Stream = TcpStream> + Threads + Wait + Sync,
    requires { limits_of hall ≡ D.limits }
{
    let desk: Desk<D> = Desk::new(alloc, hall)?;
    let Ok(listener) = TcpListener::bind(rt, (Ipv4Addr::LOCALHOST, options.port)) else {
        return Err(ListenFault::Listen);
    };
    host_all(rt, alloc, &desk, &listener, options)
}

// Serves connections with so many workers. Each of these has ended then.
fn host_all<R: Threads + Wait + Sync, H: Host + Sync>(
    rt: &R,
    alloc: Global,
    host: &H,
    listener: &TcpListener,
    options: Options,
) -> Result<(), ListenFault> {
    thread::scope(thread::scope_env(), rt, |scope| {
        for _ in 0..options.workers {
            if scope.spawn(|| host.work(rt, alloc, &Direct)).is_err() {
                host.stop(rt);
                return Err(ListenFault::Memory);
            }
        }
        let served = serve_all(rt, alloc, host, listener, options.connections);
        host.stop(rt);
        served
    })
}

// The limits of so many seats, of which so many of the first are large.
fn limits_of_seats(alloc: Global, seats: usize, large: usize) -> Result<Vec<Limits>, AllocError>
    ensures { IfOk result
        (λ limits. limits.items ≡ replicate large LARGE ++ replicate (seats - large) STANDARD) }
{
    let mut limits = vec![in alloc; LARGE; large]?;
    limits.append(&mut vec![in alloc; STANDARD; seats.saturating_sub(large)]?)?;
    Ok(limits)
}

// Serves so many connections, or any number where that is 0. Each has ended then.
fn serve_all<R: Threads + Wait + Sync, H: Host + Sync>(
    rt: &R,
    alloc: Global,
    host: &H,
    listener: &TcpListener,
    connections: u64,
) -> Result<(), ListenFault> {
    let turnstile = Turnstile::new();
    let turnstile = &turnstile;
    thread::scope(thread::scope_env(), rt, |scope| {
        let mut begun: u64 = 0;
        for stream in listener.incoming() {
            let Ok(stream) = stream else {
                return Err(ListenFault::Listen);
            };
            turnstile.enter(rt);
            if let Err(refused) = scope.spawn(move || connection(
                rt, alloc, host, turnstile, stream,
            )) {
                (refused.value)();
            }
            begun = begun.saturating_add(1);
            if begun == connections {
                break;
            }
        }
        Ok(())
    })
}

// Serves a connection, and lets the next one in.
fn connection<R: Wait, H: Host>(
    rt: &R,
    alloc: Global,
    host: &H,
    turnstile: &Turnstile,
    stream: TcpStream,
) {
    // An answer that is late for being small is served all the same.
    let _ = stream.set_nodelay(true);
    host.attend(rt, alloc, &stream);
    let_go(&stream);
    turnstile.leave(rt);
}

// Drops what the client still sends, for a while: to close before it is read takes back answers that are on their way.
fn let_go(stream: &TcpStream) {
    if stream.shutdown(Shutdown::Write).is_err()
        || stream
            .set_read_timeout(Some(Duration::from_millis(100)))
            .is_err()
    {
        return;
    }
    let mut stream = stream;
    let mut piece = [0; 4_096];
    for _ in 0..64 {
        match stream.read(&mut piece) {
            Ok(count) if 0 < count => {}
            _ => return,
        }
    }
}
