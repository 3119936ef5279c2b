// Where two lists of requests part.

ghost use Rattle.std.specs.Prelude.{◌≡◌, length};
ghost use Rattle.aud_hall.specs.CheckIns.{first_difference};

use aud_bench::request::Request;

/// The first place where a journal parts from the requests, or where these end; none where it is a prefix of them.
pub fn first_difference(journal: &[Request], requests: &[Request]) -> Option<usize>
    ensures { result ≡ first_difference journal.now requests.now }
{
    for place in 0..journal.len() {
        if requests.len() <= place {
            return Some(place);
        }
        if journal[place] != requests[place] {
            return Some(place);
        }
    }
    None
}
