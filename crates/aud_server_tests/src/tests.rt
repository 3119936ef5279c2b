// What no contract of what serves users says, and no session of `aud_session_tests` shows: streams that fail; desks with
// workers, their connections and the listening program; the program's status, and what it says of it.

mod connections;
mod counted;
mod desks;
mod greetings;
mod listening;
mod reading;
mod serving;
mod statuses;
mod surroundings;

use std::process::Abort;

// Tests that these bytes were found.
fn finds(rt: &impl Abort, name: &str, found: &[u8], wanted: &[u8]) {
    assert_eq!(rt; found, wanted, "{name}");
}
