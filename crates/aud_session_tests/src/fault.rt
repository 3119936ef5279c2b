// Why the program ends with another status than 0, or does not look at a file.

use crate::session::LineFault;
use aud_solo::serving::ServeFault;
use aud_worlds::fault::HallFault;
use std::alloc::AllocError;
use std::io;
use thiserror::Error;

#[derive(Debug, Drop, Error)]
pub enum Fault {
    #[error("{0}")]
    Stream(io::Error),
    #[error("line {0} is none of a session")]
    Line(usize),
    #[error("line {0} has no form of a line that is sent or written")]
    Form(usize),
    #[error("line {0} names a session that sends nothing")]
    Silent(usize),
    #[error("there is no session")]
    NoSession,
    #[error("a server ended: {0}")]
    Server(ServeFault),
    #[error("{0}: a line is no call")]
    Call(String),
    /// A call that must succeed was refused.
    #[error("refused: {0}")]
    Refused(HallFault),
    /// A hall does not take in what it sent out.
    #[error("a parcel that is a stranger where it comes from")]
    Stranger,
    #[error("a slice did not do what was left")]
    Undone,
    #[error("bad arguments")]
    Arguments,
    #[error("out of memory")]
    Memory,
}

impl Fault {
    /// The status with which the program ends.
    pub fn status(&self) -> u8 {
        match self {
            Fault::Arguments => 2,
            Fault::Stream(_) => 3,
            Fault::Memory => 4,
            _ => 1,
        }
    }
}

impl From<AllocError> for Fault {
    fn from(_error: AllocError) -> Fault {
        Fault::Memory
    }
}

impl From<HallFault> for Fault {
    fn from(fault: HallFault) -> Fault {
        match fault {
            HallFault::Memory => Fault::Memory,
            _ => Fault::Refused(fault),
        }
    }
}

impl From<ServeFault> for Fault {
    fn from(fault: ServeFault) -> Fault {
        Fault::Server(fault)
    }
}

impl From<LineFault> for Fault {
    fn from(fault: LineFault) -> Fault {
        match fault {
            LineFault::Memory => Fault::Memory,
            LineFault::Line(number) => Fault::Line(number),
            LineFault::Form(number) => Fault::Form(number),
            LineFault::Silent(number) => Fault::Silent(number),
            LineFault::NoSession => Fault::NoSession,
        }
    }
}

impl From<io::Error> for Fault {
    fn from(error: io::Error) -> Fault {
        match error.kind() {
            io::ErrorKind::OutOfMemory => Fault::Memory,
            _ => Fault::Stream(error),
        }
    }
}
