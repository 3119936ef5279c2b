// A hall, and the parcels that are out.

use crate::reply::Reply;
use aud_hall::hall::Hall;
use aud_hall::parcel::Parcel;

/// The hall, the parcels that were sent out, by their numbers, as long as they are out, and the replies.
#[derive(Drop)]
pub struct World {
    pub hall: Hall,
    pub out: Vec<Option<Parcel>>,
    pub replies: Vec<Reply>,
}
