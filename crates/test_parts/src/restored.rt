//! The tests of restoring tables. One validator plays each history of a file. After every so many events (an argument gives the number)
//! its tables are taken apart, and a second validator is restored from them. Both then take as many further events, and have to answer
//! them alike.

mod alike;
mod counts;
mod member;
mod playing;

pub use counts::Counts;
pub use playing::play_cases;
