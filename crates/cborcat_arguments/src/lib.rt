//! Reads the arguments of `cborcat` as the job that they ask for. `cborcat --help` says what each
//! argument means. `show_of` is what a job asks to write of items.
//!
//! Nothing here opens a file. If the arguments are wrong, or ask for help or the version, the
//! message is printed here.
#![tactic(auto)]

mod changes;
mod command;
mod help;
mod job;
mod mistakes;
mod outputs;
mod shown;
mod values;
mod words;

pub use changes::Change;
pub use job::{Color, Job, View, Wanted};
pub use shown::show_of;
pub use words::{Asked, read_words};
