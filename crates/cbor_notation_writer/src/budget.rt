//! Estimates how many characters numbers, floats and strings take on one line, and how much of a
//! budget they leave. `pretty_style` and `chunks_style` decide by that whether a container or a
//! string in chunks goes on one line. The limit is an estimated length of 60.
ghost use Rattle.std.specs.Prelude.{◌≡◌, ◌+◌, ◌-◌, ◌^◌, ◌≤◌, nat_lt, length, map};
ghost use Rattle.std.specs.Prelude.{if◌then◌else◌};
ghost use Rattle.cbor_grammar.specs.Item.{Chunk};
ghost use Rattle.cbor_grammar.specs.declared.layout.ContainerStyle.TheVariants as style;
ghost use Rattle.cbor_grammar.specs.NotationText.{container_style};
ghost use Rattle.cbor_grammar.specs.Estimate.{digit_count, estimated_string, estimated_chunks};
ghost use Rattle.cbor_grammar.specs.Estimate.{estimated_float};

use cbor_grammar::FloatWidth;
use cbor_grammar::layout::{ContainerStyle, Layout};
use cbor_grammar::strings::{DefiniteString, StringKind};

/// The estimated length from which a container gives each member its own line, in the notation that
/// `cbor_view` writes.
pub const ONE_LINE_LIMIT: usize = 60;

/// What a container's brackets take of the limit.
pub const BRACKETS: usize = 4;

/// The budget for the members of a container. The container is long if they take all of it.
pub const BUDGET: usize = ONE_LINE_LIMIT - BRACKETS;

/// The style of a container with blanks, by what its members leave of the budget.
pub fn pretty_style(indent: usize, left: usize) -> ContainerStyle
    ensures { result ≡ (if nat_lt 0 left then style.OneLine indent else style.MultiLine indent) }
{
    if left > 0 {
        ContainerStyle::OneLine { indent }
    } else {
        ContainerStyle::MultiLine { indent }
    }
}

/// How many decimal digits a number has.
#[tactic(auto, using(crate::proofs::text::Scalars::digit_laws))]
pub fn digit_count(number: u64) -> usize
    ensures count { result ≡ digit_count number }
    ensures small { result ≤ 2 ^ 32 }
{
    number
        .checked_ilog10()
        .map_or(1, |power| power as usize + 1)
}

/// What a string of `len` bytes leaves of the budget.
pub(super) fn left_after_content(kind: StringKind, len: usize, budget: usize) -> usize
    ensures leaves { (c : Chunk) → length c.bytes ≡ len
        → result ≡ budget - estimated_string kind c }
    ensures takes { result ≤ budget - 2 }
{
    match kind {
        StringKind::Bytes => budget
            .saturating_sub(4)
            .saturating_sub(len)
            .saturating_sub(len),
        StringKind::Text => budget.saturating_sub(2).saturating_sub(len),
    }
}

/// How long a float is.
pub fn float_len(width: FloatWidth) -> usize
    ensures { result ≡ estimated_float width }
{
    match width {
        FloatWidth::Sixteen => 11,
        FloatWidth::ThirtyTwo => 15,
        FloatWidth::Unknown | FloatWidth::SixtyFour => 23,
    }
}

/// What a string leaves of the budget.
pub fn left_after_string<S: DefiniteString>(string: &S, budget: usize) -> usize
    ensures { result ≡ budget - estimated_string S.kind (S.chunk string.now) }
{
    left_after_content(S::kind(), string.content().as_bytes().len(), budget)
}

/// What the chunks of a string leave of the budget, two characters more for each.
pub fn left_after_chunks<S: DefiniteString>(chunks: &[S], budget: usize) -> usize
    ensures { result ≡ budget - estimated_chunks S.kind (map S.chunk chunks.now) }
{
    let mut left = budget;
    'chunks: for chunk in chunks {
        if left == 0 {
            return 0;
        }
        left = left_after_string(chunk, left).saturating_sub(2);
    }
    left
}

/// The style of an indefinite string of these chunks.
pub fn chunks_style<S: DefiniteString>(layout: Layout, chunks: &[S]) -> ContainerStyle
    ensures { result ≡ container_style layout
        (4 + estimated_chunks S.kind (map S.chunk chunks.now)) }
{
    match layout {
        Layout::Compact => ContainerStyle::Compact,
        Layout::Pretty { indent } => pretty_style(indent, left_after_chunks(chunks, BUDGET)),
    }
}
