//! `ShowsItem`: what shows one item after the other, as dumps, JSON, contents or encoded again.
//! `NotShown`: why an item, or a part of it, is not shown.

use cbor_grammar::Error;
use cbor_messages::Message;
use cbor_places::Piece;

/// Why an item, or a part of it, is not shown.
#[derive(Drop)]
pub enum NotShown {
    /// The path leads nowhere in the item.
    Lost,
    /// Something at a byte of the item keeps it from being shown in this form.
    Refused(Message),
    /// The content that begins at this byte of the item is not for a terminal.
    NoTerminal(usize),
}

/// What shows an item.
pub trait ShowsItem {
    /// Shows an item, and appends why it or a part of it is not shown.
    fn show_one(
        &self,
        item: Piece,
        out: &mut Vec<u8>,
        not_shown: &mut Vec<NotShown>,
    ) -> Result<(), Error>;
}
