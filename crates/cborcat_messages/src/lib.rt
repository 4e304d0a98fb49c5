//! Writes the messages of `cborcat` on standard error: what is wrong with an input, where, and what
//! to do.
//!
//! `Origin` has the name, form and text of the input that a message is about. A message returns the
//! `Status` that the run ends with, if that depends on what is said. Nothing here opens a file.
#![tactic(auto)]

mod files;
mod items;
mod lines;
mod lost;
mod origin;
mod path;
mod shape;
mod status;
mod text;

pub use files::Files;
pub use items::{
    report_byte, report_end, report_few, report_large_page, report_long, report_message,
    report_none_left, say_byte,
};
pub use lines::{label, say, say_no_memory, say_out_of_memory};
pub use lost::{Refused, report_lost, report_unchanged, report_undeleted};
pub use origin::{Hole, Origin};
pub use path::{path_to, push_steps};
pub use shape::say_shape;
pub use status::Status;
pub use text::{
    report_refusal, say_line_feed, say_named_bytes, say_no_form, say_no_text, say_none,
    say_notation, say_other_shape, say_pasted, say_printed, say_taken,
};
