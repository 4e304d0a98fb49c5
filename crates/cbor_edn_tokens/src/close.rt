//! Reads the width indicator after the opening of an EDN list, and what separates its members or
//! closes it.
ghost use Rattle.std.specs.Prelude.{◌≡◌, ◌≤◌, length, option_map, IfSome};
ghost use Rattle.cbor_notation.specs.mirror.Cursor.{Takes};
ghost use Rattle.cbor_edn_grammar.specs.Reading.{Gives};
ghost use Rattle.cbor_edn_grammar.specs.Blank.{is_apart};
ghost use Rattle.cbor_edn_grammar.specs.Lists.{after_close, is_length_end, read_length};
ghost use Rattle.cbor_edn_grammar.specs.Lists.{after_comma};
ghost use Rattle.cbor_edn_grammar.specs.Lists.{separated, on_new_line};

use crate::blank::{after_blank, after_space};
use crate::cursor::{Cursor, after_byte, after_bytes};
use crate::opening::begins_string;
use cbor_edn_grammar::close::Close;
use cbor_edn_grammar::error::{Expected, Stop};
use cbor_edn_grammar::word::stated_by;
use cbor_grammar::IntegerWidth;

/// The text after what closes a list, if that is next.
pub fn after_close(text: &[u8], close: Close) -> Option<&[u8]>
    ensures gives { option_map (λ x. x.now) result ≡ after_close close text.now }
    ensures shorter { IfSome result (λ x. length x.now ≤ length text.now) }
{
    match close {
        Close::Bracket => after_bytes(text, b"]"),
        Close::Brace => after_bytes(text, b"}"),
        Close::Parenthesis => after_bytes(text, b")"),
        Close::Angles => after_bytes(text, b">>"),
        Close::End => match text {
            [] => Some(text),
            _ => None,
        },
    }
}

/// Takes what closes a list if that is next, and returns whether it did.
pub fn take_close(text: &mut Cursor<'_>, close: Close) -> bool
    ensures takes { Takes result text.old text.new (after_close close text.old) }
    ensures within { length text.new ≤ length text.old }
{
    match after_close(text.rest(), close) {
        Some(rest) => {
            *text = Cursor::new(rest);
            true
        }
        None => false,
    }
}

/// Whether the text begins with a blank that is not empty.
fn is_apart(text: &[u8]) -> bool
    ensures { result ≡ is_apart text.now }
{
    after_space(text, true).is_some()
}

/// Whether this text may follow the `_` or the stated width at the start of a list.
fn is_length_end(text: &[u8], close: Close, width: Option<IntegerWidth>) -> bool
    ensures { result ≡ is_length_end close width text.now }
{
    match width {
        Some(_) => is_apart(text),
        None => is_apart(text) || after_close(text, close).is_some(),
    }
}

/// Takes the width indicator right after the opening of a list. Returns the width of the count, or
/// `None` for an indefinite length.
pub fn take_length(text: &mut Cursor<'_>, close: Close) -> Result<Option<IntegerWidth>, Stop>
    ensures gives { Gives (λ x. (x, text.new)) result (read_length close text.old) }
    ensures within { length text.new ≤ length text.old }
{
    let [b'_', ..] = text.rest() else {
        return Ok(Some(IntegerWidth::Unknown));
    };
    let Some(width) = stated_by(text.word()) else {
        return Err(Stop::At(Expected::Indicator));
    };
    text.skip_word();
    if is_length_end(text.rest(), close, width) {
        Ok(width)
    } else if width.is_some() {
        Err(Stop::At(Expected::BlankAfterWidth))
    } else {
        Err(Stop::At(Expected::BlankAfterUnderscore))
    }
}

/// Takes the end of a list after a comma, if that is next. Returns whether a member follows
/// instead.
fn take_last_comma(text: &mut Cursor<'_>, close: Close) -> bool
    ensures takes { (result, text.new) ≡ after_comma close text.old }
    ensures within { length text.new ≤ length text.old }
{
    match after_close(text.rest(), close) {
        Some(rest) => {
            *text = Cursor::new(rest);
            false
        }
        None => true,
    }
}

/// Whether the next item of a whole text is on another line.
fn on_new_line(close: Close, text: &[u8], next: &[u8]) -> bool
    requires { length next.now ≤ length text.now }
    ensures { result ≡ on_new_line close text.now next.now }
{
    match close {
        Close::End => text[..text.len() - next.len()].contains(&b'\n'),
        _ => false,
    }
}

/// Takes what follows a member of a list. Returns true if it separates the member from the next
/// one, and false if it closes the list. `is_string` says whether the member is a string.
#[tactic(auto, unfolding(cbor_edn_grammar::specs::Lists::separated))]
pub fn take_separator(text: &mut Cursor<'_>, close: Close, is_string: bool) -> Result<bool, Stop>
    ensures gives { Gives (λ more. (more, text.new)) result (separated close is_string text.old) }
    ensures within { length text.new ≤ length text.old }
{
    let next = after_blank(text.rest(), true);
    if let Some(rest) = after_close(next, close) {
        *text = Cursor::new(rest);
        return Ok(false);
    }
    if let Some(rest) = after_byte(next, b',') {
        *text = Cursor::new(rest);
        text.skip_blank();
        return Ok(take_last_comma(text, close));
    }
    let apart = is_apart(text.rest());
    let new_line = on_new_line(close, text.rest(), next);
    *text = Cursor::new(next);
    if !apart {
        return Err(Stop::At(Expected::CommaOrClose(close)));
    }
    if is_string && begins_string(next) && !new_line {
        return Err(Stop::At(Expected::PlusOrComma));
    }
    Ok(true)
}
