// Halls of many users: sessions of calls, and measures.

mod calls;
pub mod compared;
pub mod speed;
mod words;
