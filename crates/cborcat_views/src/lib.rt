//! Shows items as the arguments of `cborcat` ask: as EDN, JSON, contents, dumps, lines of paths,
//! differences, or a page; with colours, long strings cut, or without widths.
//!
//! What is shown goes to an `Output`, which the program supplies. Why an item is not shown is
//! returned as a `NotShown`. Nothing here opens a file or writes a message.
#![tactic(auto)]

mod checks;
mod compared;
mod diff;
mod dumps;
mod encode;
mod encoded;
mod index;
mod item;
mod output;
mod page;
mod part;
mod plain;
mod screen;
mod views;
mod window;

pub use checks::Checks;
pub use compared::Compared;
pub use dumps::Dumps;
pub use encode::Encoding;
pub use encoded::{encoded_in, inside_of};
pub use index::Indexed;
pub use item::{NotShown, ShowsItem};
pub use output::{Output, Written};
pub use page::{Page, megabytes};
pub use part::{PartOf, parts_in};
pub use plain::Plain;
pub use screen::Screen;
pub use views::Views;
