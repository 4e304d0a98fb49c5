//! `Plain`: writes items, or the parts that a path leads to, as JSON (`-t json`) or as the content
//! of a string (`-t raw`). Returns why an item cannot be written so.

use crate::item::{NotShown, ShowsItem};
use crate::part::{PartOf, parts_in};
use cbor_grammar::Error;
use cbor_grammar::head::ItemHead;
use cbor_grammar::strings::StringKind;
use cbor_inspect::{Naming, RawError, raw_content};
use cbor_json::{JsonError, JsonStyle, NamedJson, bytes_to_json_named};
use cbor_marks::Marks;
use cbor_messages::{Message, not_json};
use cbor_notes::Note;
use cbor_places::Piece;
use cbor_tokens::is_shown;
use cbor_trace::head_at;
use cborcat_arguments::{Job, View};
use std::io::IsTerminal;

/// How the items of an input, or their parts, are written as JSON or as their content.
#[derive(Clone, Copy)]
pub struct Plain<'a> {
    pub(crate) rt: &'a HostRuntime,
    pub(crate) job: &'a Job<'a>,
    /// The names that stand in place of keys, if they do.
    pub(crate) tables: Option<Naming<'a>>,
    /// Where the tokens of JSON are marked, if they are to be.
    pub(crate) marks: Option<&'a Marks>,
}

impl ShowsItem for Plain<'_> {
    /// Writes an item, or the parts of it that the path leads to.
    fn show_one(
        &self,
        item: Piece,
        out: &mut Vec<u8>,
        not_shown: &mut Vec<NotShown>,
    ) -> Result<(), Error> {
        let parts = parts_in(self.rt.alloc(), (self.job, self.tables), item)?;
        if parts.is_empty() {
            not_shown.push(NotShown::Lost)?;
        }
        for part in &parts {
            self.write(*part, out, not_shown)?;
        }
        Ok(())
    }
}

impl Plain<'_> {
    /// Writes a part.
    fn write(
        self,
        part: PartOf,
        out: &mut Vec<u8>,
        not_shown: &mut Vec<NotShown>,
    ) -> Result<(), Error> {
        let refused = match self.job.view {
            View::Raw => self.write_raw(part, out)?,
            _ => self.write_json(part, out)?,
        };
        if let Some(why) = refused {
            not_shown.push(why)?;
        }
        Ok(())
    }

    /// Writes a part as JSON, and a line feed.
    fn write_json(self, part: PartOf, out: &mut Vec<u8>) -> Result<Option<NotShown>, Error> {
        if let Some(marks) = self.marks {
            marks.begin(out.len());
        }
        match self.json(part) {
            Ok(text) => {
                out.extend_from_slice(text.as_bytes())?;
                out.push(b'\n')?;
                Ok(None)
            }
            Err(error) => {
                let message = not_json(self.rt.alloc(), part.piece(), error)?;
                Ok(Some(part.refused(message)))
            }
        }
    }

    /// The JSON of a part.
    fn json(self, part: PartOf) -> Result<String, JsonError> {
        let alloc = self.rt.alloc();
        let bytes = part.piece().bytes;
        let style = JsonStyle {
            embedded: self.job.show.style.embedded,
            strict: self.job.strict,
        };
        let naming = match part.naming {
            Some(naming) if self.job.shows_names() && naming.may_name(bytes) => naming,
            _ => return bytes_to_json_named(alloc, bytes, named(style, &[], self.marks)),
        };
        let found = naming.notes(alloc, bytes)?;
        let names = found.list(alloc)?;
        bytes_to_json_named(alloc, bytes, named(style, &names, self.marks))
    }

    /// Writes the content of a string.
    fn write_raw(self, part: PartOf, out: &mut Vec<u8>) -> Result<Option<NotShown>, Error> {
        let bytes = part.piece().bytes;
        let head = head_below_tags(bytes);
        let content = match raw_content(self.rt.alloc(), bytes) {
            Ok(content) => content,
            Err(RawError::Cbor(error)) => return Err(error),
            Err(RawError::NoString) => {
                let noun = noun_of(head);
                let text = format!(in self.rt.alloc();
                    "{noun} has no raw content; a byte or text string has"
                )?;
                let message = Message::new(self.rt.alloc(), 0, text);
                return Ok(Some(part.refused(message)));
            }
        };
        if self.job.output.is_none() && self.rt.stdout().is_terminal() {
            let is_text = matches!(head, Some(ItemHead::String(StringKind::Text, _)));
            if !(is_text && is_shown(true, &content)) {
                return Ok(Some(NotShown::NoTerminal(part.span.start)));
            }
        }
        out.extend_from_slice(&content)?;
        Ok(None)
    }
}

/// How JSON with these names is written, and where its tokens are marked, if they are to be.
fn named<'a>(style: JsonStyle, names: &'a [Note<'a>], marks: Option<&'a Marks>) -> NamedJson<'a> {
    NamedJson {
        style,
        names,
        marks,
    }
}

/// The head of an item, below its tags.
fn head_below_tags(bytes: &[u8]) -> Option<ItemHead> {
    let mut at = 0;
    for _ in 0..=u8::MAX {
        let (head, end) = head_at(bytes, at)?;
        let ItemHead::Tag(..) = head else {
            return Some(head);
        };
        at = end;
    }
    None
}

/// What an item with this head is called.
fn noun_of(head: Option<ItemHead>) -> &'static str {
    match head {
        Some(ItemHead::Integer(..) | ItemHead::Negative(..)) => "an integer",
        Some(ItemHead::String(..)) => "a string",
        Some(ItemHead::Array(_)) => "an array",
        Some(ItemHead::Map(_)) => "a map",
        Some(ItemHead::Float(..)) => "a float",
        _ => "a simple value",
    }
}
