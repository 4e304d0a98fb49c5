//! `content_after`: the content of a byte string, behind its head.
ghost use Rattle.std.specs.Prelude.{◌≡◌, MatchOption, None, Some};
ghost use Rattle.cbor_inside.specs.Rule.{content_after as content_of};

use cbor_grammar::argument::Argument;
use cbor_grammar::head::ItemHead;
use cbor_grammar::strings::StringKind;

/// Returns the content of the byte string of definite length with this head, if the bytes after the
/// head have all of it.
pub fn content_after(head: ItemHead, rest: &[u8]) -> Option<&[u8]>
    ensures { MatchOption result (content_of head rest.now ≡ None)
        (λ content. content_of head rest.now ≡ Some content.now) }
{
    match head {
        ItemHead::String(StringKind::Bytes, Argument::Number(count, _)) => {
            if count > rest.len() as u64 {
                return None;
            }
            let (content, _) = rest.split_at(count as usize);
            Some(content)
        }
        _ => None,
    }
}
