//! The tests of a disk over a file, of the simulator, of running nodes, and of the node that threads share with its flusher.

mod answers;
mod crowd;
mod disks;
mod ending;
mod failing;
mod file_runs;
mod folder;
mod holding;
mod journals;
mod left;
mod makers;
mod rounds;
mod runs;
mod script_ends;
mod scripts;
mod streams;
mod subjects;
mod threads;
mod trial;
mod words;

pub use subjects::Case;
