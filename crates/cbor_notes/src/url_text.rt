//! Tests whether a text is a URL.

ghost use Rattle.std.specs.Prelude.{◌≡◌, IfOk};
ghost use Rattle.cbor_notes.specs.Url.{is_url};

use std::alloc::{AllocError, Global};
use url::{ParseError, Url};

/// Returns whether the parser of the URL Standard accepts `text` as a URL, without a base. The only
/// error is out of memory, which is also returned for a URL of 4 GB or more.
///
/// ```rust
/// use cbor_notes::url_verdict;
///
/// assert!(rt; url_verdict(alloc, "http://www.example.com")?);
/// ```
pub fn url_verdict(alloc: Global, text: &str) -> Result<bool, AllocError>
    ensures verdict { IfOk result (λ verdict. verdict ≡ is_url text.now) }
{
    match Url::parse(alloc, text) {
        Ok(_) => Ok(true),
        Err(ParseError::OutOfMemory | ParseError::Overflow) => Err(AllocError),
        Err(_) => Ok(false),
    }
}
