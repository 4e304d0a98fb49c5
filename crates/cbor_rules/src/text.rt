//! Checks whether a text is in the Unicode normal form NFC.
ghost use Rattle.std.specs.Prelude.{◌≡◌, IfOk, IsUtf8, chars};
ghost use Rattle.unicode_normalization.specs.Forms.{is_nfc};

use std::alloc::{AllocError, Global};
use unicode_normalization::is_nfc;

/// Whether the content of a text is in NFC. Not inlined, so that the loops over items are short.
#[inline(never)]
pub fn is_normal(alloc: Global, content: &[u8]) -> Result<bool, AllocError>
    ensures { IsUtf8 content.now → IfOk result (λ normal. normal ≡ is_nfc (chars content.now)) }
{
    match str::from_utf8(content) {
        Ok(text) => is_nfc(alloc, text),
        Err(_) => Ok(true),
    }
}
