//! Finds which form an input has (bytes, hex, EDN or base 64), and decodes it to the bytes that it
//! stands for. If no form fits, returns the error of the form that reads furthest. `also` finds
//! another form that reads the input, too.

ghost use Rattle.std.specs.Prelude.{◌≡◌, ◌≢◌, ◌↔◌, ◌⊎◌, ℕ, List, [], IfOk, IfErr, IfSome, None};
ghost use Rattle.std.specs.Prelude.{IsTrue};
ghost use Rattle.cbor_inputs.specs.declared.decode.Refusal.TheVariants as refusal;
ghost use Rattle.cbor_inputs.specs.Inputs.{Stands, Takes, Has, MayBe};
ghost use Rattle.cbor_inputs.specs.Inputs.{NoneBefore, NoneAfter, ComesAfter, IsWhy};
ghost use Rattle.cbor_inputs.specs.Texts.{IsText, unmarked};

use crate::base64_text::bytes_of_base64;
use crate::loose::{HexFault, bytes_of_hex};
use crate::text::{is_text, mark_len, unmarked};
use cbor_bytes::utf8_fault;
use cbor_edn_grammar::error::{EdnError, Expected};
use cbor_edn_reader::edn_to_bytes;
use cbor_paths::{End, Shown, skip_items};
use std::alloc::{AllocError, Global};

/// A form of an input. A text may have a byte order mark before it, which is no part of it.
#[derive(Clone, Copy, PartialEq, Eq, Debug)]
pub enum Input {
    /// The bytes of items.
    Bytes,
    /// These bytes in hex, as people paste it.
    Hex,
    /// Items in EDN, none or more.
    Diag,
    /// The bytes in base 64, in either alphabet, with padding or without, with blanks and line ends
    /// between the digits.
    Base64,
}

/// Why an input does not have a form.
#[derive(Clone, Copy, PartialEq, Eq, Debug)]
pub enum Refusal {
    /// It is not hex.
    Hex(HexFault),
    /// It is not UTF-8: the place of the first byte with which no UTF-8 goes on.
    Utf8 { at: usize },
    /// It is not EDN: what is expected at a place.
    Diag { expected: Expected, at: usize },
    /// It is not base 64.
    Base64,
    /// It is bytes in this form, and they are no sequence of items.
    Items { form: Input, shown: Shown },
    /// Memory ran out.
    Memory,
}

/// The form of an input.
#[derive(Drop)]
pub struct Recognized {
    /// The first form that takes all of it.
    pub form: Input,
    /// The bytes that it stands for.
    pub bytes: Vec<u8>,
}

impl Input {
    /// Returns the bytes that an input of this form stands for.
    pub fn decode(self, alloc: Global, text: &[u8]) -> Result<Vec<u8>, Refusal>
        // These bytes, and no others.
        ensures ok { IfOk result (λ bytes. Stands self text.now bytes.items) }
        ensures one { IfOk result (λ bytes. (others : List ℕ) → Stands self text.now others
            → others ≡ bytes.items) }

        // An error, other than on memory, only where it stands for none.
        ensures refused { IfErr result (λ e. e ≢ refusal.Memory
            → (bytes : List ℕ) → ¬ (Stands self text.now bytes)) }
        // The error is one of this form, and says why.
        ensures why { IfErr result (IsWhy self text.now) }
    {
        match self {
            Input::Bytes => match Vec::from_slice(alloc, text) {
                Ok(bytes) => Ok(bytes),
                Err(_) => Err(Refusal::Memory),
            },
            Input::Hex => match bytes_of_hex(alloc, text) {
                Ok(Ok(bytes)) => Ok(bytes),
                Ok(Err(fault)) => Err(Refusal::Hex(fault)),
                Err(_) => Err(Refusal::Memory),
            },
            Input::Diag => bytes_of_diag(alloc, text),
            Input::Base64 => match bytes_of_base64(alloc, text) {
                Ok(Some(bytes)) => Ok(bytes),
                Ok(None) => Err(Refusal::Base64),
                Err(_) => Err(Refusal::Memory),
            },
        }
    }

    /// Returns what an input of this form is taken for: what it stands for, if that is items one
    /// after the other, or if the form is hex.
    fn take(self, alloc: Global, text: &[u8]) -> Result<Recognized, Refusal>
        ensures form { IfOk result (λ found. found.form ≡ self) }
        ensures takes { IfOk result (λ found. Takes self text.now found.bytes.items) }
        ensures refused { IfErr result (λ e. e ≢ refusal.Memory → ¬ (Has self text.now)) }
        ensures why { IfErr result (IsWhy self text.now) }
    {
        let bytes = self.decode(alloc, text)?;
        if self == Input::Hex {
            return Ok(Recognized { form: self, bytes });
        }
        let shown = skip_items(&bytes, false);
        if shown.end == End::Done {
            Ok(Recognized { form: self, bytes })
        } else {
            Err(Refusal::Items { form: self, shown })
        }
    }

    /// Whether an input of this form is taken for something.
    fn takes(self, alloc: Global, text: &[u8]) -> Result<bool, AllocError>
        ensures { IfOk result (λ yes. IsTrue yes ↔ Has self text.now) }
    {
        match self.take(alloc, text) {
            Ok(_) => Ok(true),
            Err(Refusal::Memory) => Err(AllocError),
            Err(_) => Ok(false),
        }
    }
}

/// The bytes of items in EDN.
fn bytes_of_diag(alloc: Global, text: &[u8]) -> Result<Vec<u8>, Refusal>
    ensures ok { IfOk result (λ bytes. Stands Input.Diag text.now bytes.items) }
    ensures one { IfOk result (λ bytes. (others : List ℕ) → Stands Input.Diag text.now others
        → others ≡ bytes.items) }
    ensures refused { IfErr result (λ e. e ≢ refusal.Memory
        → (bytes : List ℕ) → ¬ (Stands Input.Diag text.now bytes)) }
    ensures why { IfErr result (IsWhy Input.Diag text.now) }
{
    let mark = mark_len(text);
    let rest = unmarked(text);
    let Ok(notation) = str::from_utf8(rest) else {
        let at = utf8_fault(rest).unwrap_or(0);
        return Err(Refusal::Utf8 { at: mark + at });
    };
    match edn_to_bytes(alloc, notation) {
        Ok(bytes) => Ok(bytes),
        Err(EdnError::Memory) => Err(Refusal::Memory),
        Err(EdnError::Wrong { place, expected }) => {
            let at = mark + place;
            Err(Refusal::Diag { expected, at })
        }
    }
}

/// Finds the form of an input. A text of pairs of hex digits is hex, whatever bytes they are: hex
/// that was cut, or is wrong, is still hex. Any other input has the first form of EDN and base 64
/// that reads all of it, as items one after the other. An input that no form of text reads is
/// bytes, if it is not all text: nearly every text would be bytes of some items, which nobody
/// meant.
///
/// If no form does, the error is that of the form that reads furthest, of the forms of text if the
/// input is text. Returns `Memory` if an allocation fails.
///
/// ```rust
/// use cbor_inputs::{Input, recognize};
///
/// let found = recognize(alloc, b"[1, 2]")?;
/// assert_eq!(rt; found.form, Input::Diag);
/// assert_eq!(rt; found.bytes.as_slice(), b"\x82\x01\x02".as_slice());
/// ```
pub fn recognize(alloc: Global, text: &[u8]) -> Result<Recognized, Refusal>
    // The bytes that the form stands for; unless it is hex, they are items, one after the other.
    ensures takes { IfOk result (λ found. Takes found.form text.now found.bytes.items) }

    // No form before it takes the input. So a text that is hex is nothing else.
    ensures first { IfOk result (λ found. NoneBefore found.form text.now) }

    // No text is taken for bytes.
    ensures no_text { IfOk result (λ found. found.form ≡ Input.Bytes → ¬ (IsText text.now)) }

    // An error, other than on memory, only where there is no form that it may be.
    ensures refused { IfErr result (λ e. e ≢ refusal.Memory
        → (form : Input) → ¬ (MayBe form text.now)) }

    // It says why the input does not have one of the forms.
    ensures why { IfErr result (λ e. (form : Input) × IsWhy form text.now e) }
{
    let hex = match Input::Hex.take(alloc, text) {
        Ok(found) => return Ok(found),
        Err(Refusal::Memory) => return Err(Refusal::Memory),
        Err(refusal) => refusal,
    };
    let diag = match Input::Diag.take(alloc, text) {
        Ok(found) => return Ok(found),
        Err(Refusal::Memory) => return Err(Refusal::Memory),
        Err(refusal) => refusal,
    };
    let base64 = match Input::Base64.take(alloc, text) {
        Ok(found) => return Ok(found),
        Err(Refusal::Memory) => return Err(Refusal::Memory),
        Err(refusal) => refusal,
    };
    let furthest = diag.or(hex, text).or(base64, text);
    if is_text(text) {
        return Err(furthest);
    }
    match Input::Bytes.take(alloc, text) {
        Ok(found) => Ok(found),
        Err(Refusal::Memory) => Err(Refusal::Memory),
        Err(bytes) => Err(furthest.or(bytes, text)),
    }
}

impl Recognized {
    /// The next form of text that takes the input, too. That the input is bytes, too, is not told:
    /// most texts are bytes of some items.
    pub fn also(&self, alloc: Global, text: &[u8]) -> Result<Option<Input>, AllocError>
        // What it names comes later, and takes the input.
        ensures takes { IfOk result (λ found. IfSome found (λ other.
            ComesAfter self.now.form other × Has other text.now)) }

        // None only if no later form does.
        ensures none { IfOk result (λ found. found ≡ None → NoneAfter self.now.form text.now) }
    {
        let (diag, base64) = match self.form {
            Input::Hex => (true, true),
            Input::Diag => (false, true),
            Input::Base64 | Input::Bytes => (false, false),
        };
        if diag && Input::Diag.takes(alloc, text)? {
            Ok(Some(Input::Diag))
        } else if base64 && Input::Base64.takes(alloc, text)? {
            Ok(Some(Input::Base64))
        } else {
            Ok(None)
        }
    }
}

impl Refusal {
    /// How far a form reads this text that it refuses so. Words are digits of base 64 by chance.
    fn reach(self, text: &[u8]) -> usize {
        match self {
            Refusal::Hex(HexFault::Digit(at)) => at,
            Refusal::Hex(HexFault::Odd(at)) => at.saturating_add(1),
            Refusal::Diag { at, .. } | Refusal::Utf8 { at } => at,
            Refusal::Base64 | Refusal::Memory => 0,
            Refusal::Items {
                form: Input::Bytes,
                shown,
            } => match shown.end {
                End::Fault { end, .. } => shown.used.saturating_add(end),
                _ => text.len(),
            },
            Refusal::Items {
                form: Input::Base64,
                ..
            } if are_words(text) => 0,
            Refusal::Items { .. } => text.len(),
        }
    }

    /// This refusal, or the other one if its form reads further.
    fn or(self, other: Refusal, text: &[u8]) -> Refusal
        ensures { (result ≡ self) ⊎ (result ≡ other) }
    {
        if other.reach(text) > self.reach(text) {
            other
        } else {
            self
        }
    }
}

/// Whether a text is words: it has blanks, or is letters alone with no capital after a small one.
fn are_words(text: &[u8]) -> bool {
    let text = unmarked(text).trim_ascii();
    let small = text.iter().position(|byte| byte.is_ascii_lowercase());
    let tail = text.get(small.unwrap_or(text.len())..).unwrap_or(b"");
    let is_word = text.iter().all(|byte| byte.is_ascii_alphabetic())
        && !tail.iter().any(|byte| byte.is_ascii_uppercase());
    is_word || text.contains(&b' ')
}
