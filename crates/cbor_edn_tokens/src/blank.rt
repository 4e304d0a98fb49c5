//! Skips blanks of EDN: spaces, tabs, line ends and comments.
ghost use Rattle.std.specs.Prelude.{◌≡◌, ◌<◌, ◌≤◌, length, false, option_map, IfSome};
ghost use Rattle.cbor_tokens.specs.Token.{is_whitespace};
ghost use Rattle.cbor_edn_grammar.specs.Blank.{after_line, after_slash, after_star, after_comment};
ghost use Rattle.cbor_edn_grammar.specs.Blank.{after_space, after_blank};

/// Whether a byte is a space, a tab, a line feed or a carriage return.
fn is_whitespace(byte: u8) -> bool
    ensures { result ≡ is_whitespace byte }
{
    byte <= b' ' && matches!(byte, b' ' | b'\t' | b'\n' | b'\r')
}

/// The text after the first line feed. It is empty if there is no line feed.
fn after_line(text: &[u8]) -> &[u8]
    ensures gives { result.now ≡ after_line text.now }
    ensures shorter { length result.now ≤ length text.now }
{
    let mut rest = text;
    'line: while let [first, after @ ..] = rest {
        if *first == b'\n' {
            return after;
        }
        rest = after;
    }
    rest
}

/// The text after the first `/`.
fn after_slash(text: &[u8]) -> Option<&[u8]>
    ensures gives { option_map (λ x. x.now) result ≡ after_slash text.now }
    ensures shorter { IfSome result (λ x. length x.now ≤ length text.now) }
{
    let mut rest = text;
    'comment: while let [first, after @ ..] = rest {
        if *first == b'/' {
            return Some(after);
        }
        rest = after;
    }
    None
}

/// The text after the first `*/`.
fn after_star(text: &[u8]) -> Option<&[u8]>
    ensures gives { option_map (λ x. x.now) result ≡ after_star false text.now }
    ensures shorter { IfSome result (λ x. length x.now ≤ length text.now) }
{
    let mut star = false;
    let mut rest = text;
    'comment: while let [first, after @ ..] = rest {
        if star && *first == b'/' {
            return Some(after);
        }
        star = *first == b'*';
        rest = after;
    }
    None
}

/// The text after a comment whose first `/` was read.
fn after_comment(text: &[u8]) -> Option<&[u8]>
    ensures gives { option_map (λ x. x.now) result ≡ after_comment text.now }
    ensures shorter { IfSome result (λ x. length x.now ≤ length text.now) }
{
    match text {
        [b'/', rest @ ..] => Some(after_line(rest)),
        [b'*', rest @ ..] => after_star(rest),
        [_, rest @ ..] => after_slash(rest),
        [] => None,
    }
}

/// The text after a space, a tab, a line end or a comment. If `slashes` is not set, only `#` begins
/// a comment.
pub fn after_space(text: &[u8], slashes: bool) -> Option<&[u8]>
    ensures gives { option_map (λ x. x.now) result ≡ after_space slashes text.now }
    ensures shorter { IfSome result (λ x. length x.now < length text.now) }
{
    match text {
        [first, rest @ ..] if is_whitespace(*first) => Some(rest),
        [b'#', rest @ ..] => Some(after_line(rest)),
        [b'/', rest @ ..] if slashes => after_comment(rest),
        _ => None,
    }
}

/// The text after the longest blank at its front.
pub fn after_blank(text: &[u8], slashes: bool) -> &[u8]
    ensures gives { result.now ≡ after_blank slashes text.now }
    ensures shorter { length result.now ≤ length text.now }
{
    let mut rest = text;
    'spaces: loop {
        match after_space(rest, slashes) {
            Some(after) => rest = after,
            None => return rest,
        }
    }
}
