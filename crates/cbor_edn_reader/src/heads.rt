//! Writes the head of a container or of an indefinite-length string before its content, once the
//! count is known. The head replaces one byte that was left free for it.
ghost use Rattle.std.specs.Prelude.{◌≡◌, ◌+◌, ◌<◌, ◌++◌, ◌∷◌, length, take, drop, OnOk};
ghost use Rattle.cbor_grammar.specs.mirror.MajorNumber.{major_number};
ghost use Rattle.cbor_grammar.specs.WellFormed.{FitsCount};
ghost use Rattle.cbor_grammar.specs.Written.{encoded_open};

use cbor_bytes::write::push_open;
use cbor_grammar::IntegerWidth;
use cbor_grammar::major::Major;
use std::alloc::AllocError;

/// Puts a head of one byte where a byte was left for it.
fn put_byte(out: &mut Vec<u8>, place: usize, byte: u8)
    requires { place < length out.old.items }
    ensures { out.new.items ≡ take place out.old.items ++ byte ∷ drop (place + 1) out.old.items }
{
    out[place] = byte;
}

/// Puts a head where a byte was left for it, of a container or an indefinite string.
pub(crate) fn put_open(
    out: &mut Vec<u8>,
    place: usize,
    major: Major,
    count: (usize, Option<IntegerWidth>),
) -> Result<(), AllocError>
    requires fits { FitsCount count.1 count.0 }
    requires room { place < length out.old.items }
    ensures { OnOk result (out.new.items ≡ take place out.old.items
        ++ (encoded_open (major_number major) count.0 count.1 ++ drop (place + 1) out.old.items)) }
{
    match count.1 {
        None => put_byte(out, place, major.high_bits() + 31),
        Some(IntegerWidth::Unknown | IntegerWidth::Zero) if count.0 < 24 => {
            put_byte(out, place, major.high_bits() + count.0 as u8);
        }
        _ => {
            let after = out.split_off(place + 1)?;
            out.truncate(place);
            push_open(out, major, count.0, count.1)?;
            out.extend_from_slice(&after)?;
        }
    }
    Ok(())
}
