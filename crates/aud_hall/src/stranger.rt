// A parcel that is handed back.

use crate::parcel::Parcel;
use crate::why::Why;
use std::fmt;
use thiserror::Error;

/// A parcel that a seat does not take in, and why. Nothing has changed then.
#[derive(Drop, Error)]
#[error("{why}")]
pub struct Stranger {
    pub parcel: Parcel,
    pub why: Why,
}

impl fmt::Debug for Stranger {
    fn fmt<W: fmt::Write>(&self, f: &mut fmt::Formatter<W>) -> fmt::Result {
        let why = self.why;
        write!(f, "Stranger({why:?})")
    }
}
