//! `is_strict`: whether items in bytes are read back as the same bytes, once they are written.
ghost use Rattle.std.specs.Prelude.{◌≡◌, ◌<◌, ◌≤◌, length, Option, IfSome, MatchOption, None, Some};
ghost use Rattle.cbor_inside.specs.Strict.{is_strict as has_same};
ghost use Rattle.cbor_inside.specs.Strict.{after_head as next_head, after_read as next_read};
ghost use Rattle.cbor_inside.specs.Strict.{after_strict as next_after};
ghost use Rattle.cbor_inside.specs.Strict.{after_length as next_content};
ghost use Rattle.cbor_grammar.specs.Reading.{read_head};

use cbor_bytes::head::read_head;
use cbor_grammar::argument::Argument;
use cbor_grammar::head::ItemHead;

/// Whether the bytes are heads, contents of strings and breaks, without a simple value below 32 in
/// two bytes (`f8 00` to `f8 1f`). If such bytes are items, the same bytes are read back.
pub(crate) fn is_strict(bytes: &[u8]) -> bool
    ensures { result ≡ has_same bytes.now }
{
    let mut rest = bytes;
    'heads: while !rest.is_empty() {
        match after_head(rest) {
            Some(after) => rest = after,
            None => return false,
        }
    }
    true
}

/// The bytes after the head or the break at the front.
fn after_head(bytes: &[u8]) -> Option<&[u8]>
    ensures next { MatchOption result (next_head bytes.now ≡ None)
        (λ after. next_head bytes.now ≡ Some after.now) }
    ensures shorter { IfSome result (λ after. length after.now < length bytes.now) }
{
    match bytes {
        [] => None,
        [first, after @ ..] => {
            if *first == 0xff {
                return Some(after);
            }
            after_read(*first, bytes)
        }
    }
}

/// The bytes after the head at the front, which begins with this byte.
fn after_read(first: u8, bytes: &[u8]) -> Option<&[u8]>
    ensures next { MatchOption result (next_read first (read_head bytes.now) ≡ None)
        (λ after. next_read first (read_head bytes.now) ≡ Some after.now) }
    ensures shorter { IfSome result (λ after. length after.now < length bytes.now) }
{
    let Ok((head, rest)) = read_head(bytes) else {
        return None;
    };
    after_strict(first, head, rest)
}

/// The bytes after a head, which begins with this byte, and after the content of a string. `None`
/// after a simple value below 32 in two bytes.
fn after_strict(first: u8, head: ItemHead, rest: &[u8]) -> Option<&[u8]>
    ensures next { MatchOption result (next_after first (head, rest.now) ≡ None)
        (λ after. next_after first (head, rest.now) ≡ Some after.now) }
    ensures shorter { IfSome result (λ after. length after.now ≤ length rest.now) }
{
    match head {
        ItemHead::String(_, Argument::Number(count, _)) => after_content(count, rest),
        ItemHead::Simple(value) if first == 0xf8 && value < 32 => None,
        _ => Some(rest),
    }
}

/// The bytes after a string's content.
fn after_content(count: u64, rest: &[u8]) -> Option<&[u8]>
    ensures next { MatchOption result (next_content count rest.now ≡ None)
        (λ after. next_content count rest.now ≡ Some after.now) }
    ensures shorter { IfSome result (λ after. length after.now ≤ length rest.now) }
{
    if count > rest.len() as u64 {
        return None;
    }
    let (_, after) = rest.split_at(count as usize);
    Some(after)
}
