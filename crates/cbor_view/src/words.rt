//! Reads the words `FROM` and `TO` of the command line as the forms of the input and the output.
ghost use Rattle.std.specs.Prelude.{◌≡◌, Some, IfSome};
ghost use Rattle.cbor_view.specs.Words.{source_word, target_word};

pub use cbor_diag::{Source, To};

/// Returns the form that an argument names for the input: `bytes`, `hex` or `diag`; `None` for any
/// other.
pub fn from_word(word: &str) -> Option<Source>
    ensures named { IfSome result (λ source. word.now ≡ source_word source) }
    ensures each_word { (source : Source) → word.now ≡ source_word source → result ≡ Some source }
{
    match word {
        "bytes" => Some(Source::Bytes),
        "hex" => Some(Source::Hex),
        "diag" => Some(Source::Diag),
        _ => None,
    }
}

/// Returns the form that an argument names for the output: `bytes`, `hex`, `diag` or `pretty`;
/// `None` for any other.
pub fn to_word(word: &str) -> Option<To>
    ensures named { IfSome result (λ target. word.now ≡ target_word target) }
    ensures each_word { (target : To) → word.now ≡ target_word target → result ≡ Some target }
{
    match word {
        "bytes" => Some(To::Bytes),
        "hex" => Some(To::Hex),
        "diag" => Some(To::Diag),
        "pretty" => Some(To::Pretty),
        _ => None,
    }
}
