//! Finds the indicator of EDN that states a width, such as `_1`, at the end of a token.
ghost use Rattle.std.specs.Prelude.{◌≡◌, ◌⊎◌, ◌≤◌, length, drop, IsTrue};
ghost use Rattle.cbor_screen.specs.Widthless.{IsIndicator};

/// Whether a text is an indicator that states a width.
fn is_indicator(text: &[u8]) -> bool
    ensures { IsTrue result → IsIndicator text.now }
{
    text.len() == 2 && text[0] == b'_' && matches!(text[1], b'0'..=b'3' | b'i')
}

/// Where the indicator begins that a token ends with, or where the token ends.
pub(crate) fn indicator_start(token: &[u8]) -> usize
    ensures within { result ≤ length token.now }
    ensures some { (result ≡ length token.now) ⊎ IsIndicator (drop result token.now) }
{
    let start = token.len().saturating_sub(2);
    if is_indicator(&token[start..]) {
        start
    } else {
        token.len()
    }
}
