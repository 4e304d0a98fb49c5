//! Finds the first violation of rules in an item that holds no other item. Checks that the content
//! of a string, or of each chunk, is complete. A text has to be UTF-8, too, and in NFC if the rules
//! ask for it.
ghost use Rattle.std.specs.Prelude.{◌≡◌, ◌≢◌, ℕ, suc, ◌<◌, ◌≤◌, List, length, take, None, IfOk};
ghost use Rattle.std.specs.Prelude.{IfErr};
ghost use Rattle.std.specs.Prelude.{IsErr, IfSome, IfNone, option_map};
ghost use Rattle.std.specs.Result.{result_map_both};
ghost use Rattle.cbor_grammar.specs.declared.width.IntegerWidth.{IntegerWidth};
ghost use Rattle.cbor_grammar.specs.StringKind.{IsContent};
ghost use Rattle.cbor_bytes.specs.mirror.Skipping.{skip_content};
ghost use Rattle.cbor_rules.specs.FirstViolation.{kept_content, kept_chunk, kept_chunks, kept_atom};
ghost use Rattle.cbor_rules.specs.FirstViolation.{text_violation};
ghost use Rattle.cbor_rules.specs.mirror.Opened.{Gives, Reads, StopFits, HasMemory, content_stop};
ghost use Rattle.cbor_rules.specs.mirror.Opened.{if_normal};

use super::{Check, Chunk, Stop};
use crate::kind::ViolationKind;
use crate::text::is_normal;
use cbor_bytes::strings::read_chunk_length;
use cbor_grammar::Error;
use cbor_grammar::argument::Argument;
use cbor_grammar::head::ItemHead;
use cbor_grammar::strings::StringKind;
use std::alloc::AllocError;

/// Why the content of a string is not read.
#[derive(Clone, Copy)]
enum BadContent {
    /// It is cut, or it is not UTF-8.
    NoItem(Error),
    /// It is not in NFC.
    NotNfc,
    /// There is no memory to find out whether it is.
    OutOfMemory,
}

/// A content of `count` bytes, and the bytes after it.
#[inline(always)]
fn read_content(kind: StringKind, count: u64, bytes: &[u8]) -> Result<(&[u8], &[u8]), Error>
    ensures gives { (w : IntegerWidth) → skip_content kind count w bytes.now
        ≡ result_map_both (λ x. x.1.now) (λ e. e) result }
    ensures content { IfOk result (λ x. (x.0.now ≡ take count bytes.now) × IsContent kind x.0.now) }
    ensures shorter { IfOk result (λ x. length x.1.now ≤ length bytes.now) }
{
    if (bytes.len() as u64) < count {
        return Err(Error::CutShort);
    }
    let (content, rest) = bytes.split_at(count as usize);
    if kind.may_hold(content) {
        Ok((content, rest))
    } else {
        Err(Error::Utf8)
    }
}

impl Check {
    /// Stops because of the content of a string, whose head is at these bytes.
    #[inline(never)]
    fn stop_at_content(&self, bytes: &[u8], bad: BadContent, stop: &mut Stop)
        requires memory { bad ≡ BadContent.OutOfMemory → self.now.alloc ≢ None }
        ensures is { stop.new ≡ content_stop self.now.len bytes.now bad }
        ensures within { StopFits self.now.alloc self.now.len stop.new }
    {
        match bad {
            BadContent::NoItem(error) => self.stop_at_error(bytes, error, stop),
            BadContent::NotNfc => self.stop_at(bytes, ViolationKind::NotNfc, stop),
            BadContent::OutOfMemory => *stop = Stop::OutOfMemory,
        }
    }

    /// Whether the content of a string is in NFC, where that is a rule.
    fn keeps_content(&self, kind: StringKind, content: &[u8]) -> Result<bool, AllocError>
        requires memory { HasMemory self.now.alloc self.now.rules }
        requires content { IsContent kind content.now }
        ensures is { IfOk result
            (λ kept. text_violation self.now.rules kind content.now ≡ if_normal kept) }
        ensures memory { IsErr result → self.now.alloc ≢ None }
    {
        match (kind, self.alloc) {
            (StringKind::Text, Some(alloc)) if self.rules.nfc => is_normal(alloc, content),
            _ => Ok(true),
        }
    }

    /// The bytes after a content of `count` bytes; its head is read already.
    #[inline(always)]
    fn after_content<'a>(
        &self,
        kind: StringKind,
        count: u64,
        rest: &'a [u8],
    ) -> Result<&'a [u8], BadContent>
        requires memory { HasMemory self.now.alloc self.now.rules }
        ensures gives { (w : IntegerWidth) (b : List ℕ)
            → Gives (kept_content self.now.rules self.now.len b kind count w rest.now)
            (result_map_both (λ x. x.now) (content_stop self.now.len b) result) }
        ensures shorter { IfOk result (λ after. length after.now ≤ length rest.now) }
        ensures memory { IfErr result
            (λ bad. bad ≡ BadContent.OutOfMemory → self.now.alloc ≢ None) }
    {
        let (content, after) = match read_content(kind, count, rest) {
            Ok(read) => read,
            Err(error) => return Err(BadContent::NoItem(error)),
        };
        match self.keeps_content(kind, content) {
            Ok(true) => Ok(after),
            Ok(false) => Err(BadContent::NotNfc),
            Err(_) => Err(BadContent::OutOfMemory),
        }
    }

    /// The next chunk of an indefinite string, or its break, and the bytes after it.
    fn read_chunk<'a>(
        &self,
        kind: StringKind,
        bytes: &'a [u8],
        stop: &mut Stop,
    ) -> Option<(Chunk, &'a [u8])>
        requires memory { HasMemory self.now.alloc self.now.rules }
        ensures gives { Reads (kept_chunk self.now.rules self.now.len kind bytes.now)
            (option_map (λ x. (x.0, x.1.now)) result) stop.new }
        ensures shorter { IfSome result (λ x. length x.1.now < length bytes.now) }
        ensures within { IfNone result (StopFits self.now.alloc self.now.len stop.new) }
    {
        let (length, rest) = match read_chunk_length(kind.major(), bytes) {
            Ok(read) => read,
            Err(error) => {
                self.stop_at_error(bytes, error, stop);
                return None;
            }
        };
        let Some((count, width)) = length else {
            return Some((Chunk::Break, rest));
        };
        if let Some(violation) = self.rules.number_violation(count, width) {
            self.stop_at(bytes, violation, stop);
            return None;
        }
        match self.after_content(kind, count, rest) {
            Ok(after) => Some((Chunk::Content, after)),
            Err(bad) => {
                self.stop_at_content(bytes, bad, stop);
                None
            }
        }
    }

    /// The bytes after the break of an indefinite string.
    #[inline(never)]
    fn after_chunks<'a>(
        &self,
        kind: StringKind,
        bytes: &'a [u8],
        stop: &mut Stop,
    ) -> Option<&'a [u8]>
        requires memory { HasMemory self.now.alloc self.now.rules }
        ensures gives { Reads
            (kept_chunks (suc (length bytes.now)) self.now.rules self.now.len kind bytes.now)
            (option_map (λ x. x.now) result) stop.new }
        ensures shorter { IfSome result (λ rest. length rest.now ≤ length bytes.now) }
        ensures within { IfNone result (StopFits self.now.alloc self.now.len stop.new) }
    {
        let mut rest = bytes;
        'chunks: loop {
            let (chunk, after) = self.read_chunk(kind, rest, stop)?;
            match chunk {
                Chunk::Break => return Some(after),
                Chunk::Content => rest = after,
            }
        }
    }

    /// The bytes after an item without parts, whose head is at `bytes` and is read already.
    #[inline(always)]
    pub(super) fn after_atom<'a>(
        &self,
        bytes: &[u8],
        head: ItemHead,
        rest: &'a [u8],
        stop: &mut Stop,
    ) -> Option<&'a [u8]>
        requires memory { HasMemory self.now.alloc self.now.rules }
        ensures gives { Reads (kept_atom self.now.rules self.now.len bytes.now head rest.now)
            (option_map (λ x. x.now) result) stop.new }
        ensures shorter { IfSome result (λ after. length after.now ≤ length rest.now) }
        ensures within { IfNone result (StopFits self.now.alloc self.now.len stop.new) }
    {
        match head {
            ItemHead::String(kind, Argument::Number(count, _)) => {
                match self.after_content(kind, count, rest) {
                    Ok(after) => Some(after),
                    Err(bad) => {
                        self.stop_at_content(bytes, bad, stop);
                        None
                    }
                }
            }
            ItemHead::String(kind, Argument::Indefinite) => self.after_chunks(kind, rest, stop),
            _ => Some(rest),
        }
    }
}
