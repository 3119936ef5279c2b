// The size of requests, and the room for them.

ghost use Rattle.std.specs.Prelude.{◌≡◌, ◌+◌, ◌*◌, ◌<◌, ◌≤◌, length, All, true, false};
ghost use Rattle.std.specs.Fmt.{decimal};
ghost use Rattle.aud_bench.specs.Alone.{is_quit, has_room, fits};
ghost use Rattle.aud_bench.specs.Size.{listing_size, numbers_size, size};
ghost use Rattle.aud_bench.specs.Ties.Times.{is_brief};
ghost use Rattle.aud_text.specs.declared.limits.TheConstants.{CHOICE};

use crate::request::Request;
use aud_debug::listing::Listing;
use aud_text::limits::{REQUEST_BYTES, REQUESTS};
use aud_text::lines::line_count;

/// The bytes that a request takes in the journal: those of its text with single spaces, no leading zeros, and line
/// feeds; a malformed one takes one.
pub fn size(request: &Request) -> usize
    ensures size { result ≡ size request.now }
    ensures brief { is_brief request.now ≡ true }
{
    match request {
        Request::Load(source) => {
            let source = source.as_bytes();
            6 + digit_count(line_count(source) as u64) + source.len()
        }
        Request::Reset => 6,
        Request::Run(steps) => 5 + digit_count(u64::from(*steps)),
        Request::Step(nth) => 6 + digit_count(u64::from(*nth)),
        Request::Choose(choices) => 7 + numbers_size(choices.as_slice()),
        Request::Advance(wait) => 9 + digit_count(wait.milliseconds()),
        Request::Clock => 6,
        Request::List(listing) => listing_size(*listing),
        Request::Output => 7,
        Request::Seat(number) => 6 + digit_count(u64::from(*number)),
        Request::Quit => 5,
        Request::Bad(_) => 1,
    }
}

/// Whether the request ends the session.
pub fn is_quit(request: &Request) -> bool
    ensures { result ≡ is_quit request.now }
{
    matches!(request, Request::Quit)
}

/// Whether a request fits behind others, by how many they are and by their bytes; a QUIT always does.
pub fn fits(requests: usize, bytes: usize, request: &Request) -> bool
    ensures answer { result ≡ fits requests bytes request.now }
    ensures room { result ≡ true → is_quit request.now ≡ false →
        (requests < REQUESTS) × (bytes + size request.now ≤ REQUEST_BYTES) }
{
    is_quit(request) || has_room(requests, bytes, size(request))
}

// Whether a request of this size fits.
fn has_room(requests: usize, bytes: usize, size: usize) -> bool
    ensures answer { result ≡ has_room requests bytes size }
    ensures room { result ≡ true → (requests < REQUESTS) × (bytes + size ≤ REQUEST_BYTES) }
{
    requests < REQUESTS as usize
        && size <= REQUEST_BYTES as usize
        && bytes <= REQUEST_BYTES as usize - size
}

fn listing_size(listing: Listing) -> usize
    ensures { result ≡ listing_size listing }
{
    match listing {
        Listing::Moves | Listing::Tasks | Listing::Waits => 6,
        Listing::Queues => 7,
        Listing::Variables(task) => 6 + digit_count(u64::from(task)),
        Listing::Objects => 8,
    }
}

// The bytes of the numbers of choices, with a space before each.
fn numbers_size(numbers: &[u32]) -> usize
    requires { All (λ n. n ≤ CHOICE) numbers.now }
    ensures size { result ≡ numbers_size numbers.now }
    ensures few { result ≤ 5 * length numbers.now }
{
    let mut size = 0;
    for number in numbers {
        size += 1 + digit_count(u64::from(*number));
    }
    size
}

// How many decimal digits a number has.
fn digit_count(number: u64) -> usize
    ensures count { result ≡ length (decimal number) }
    ensures few { result ≤ 20 }
    ensures of_choice { number ≤ CHOICE → result ≤ 4 }
{
    itoa::Buffer::new().format(number).len()
}
