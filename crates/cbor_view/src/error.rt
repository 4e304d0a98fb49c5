//! `ViewError`: why a run of the filter `cbor_view` ends without its output.
ghost use Rattle.std.specs.Prelude.{◌≡◌};
ghost use Rattle.cbor_grammar.specs.declared.error.Error.TheVariants.{Memory};
ghost use Rattle.cbor_view.specs.Errors.{text_of};
ghost use Rattle.cbor_view.specs.declared.error.ViewError.TheVariants.{Item};

use cbor_diag::Error;
use std::alloc::AllocError;

/// Why a run ends without its output.
#[derive(Clone, Copy, PartialEq, Eq, Debug)]
pub enum ViewError {
    /// The input is not an item, or memory ran out.
    Item(Error),
    /// A read failed.
    Read,
    /// A write failed, or took none of the bytes that were left.
    Write,
}

impl ViewError {
    /// Returns what is wrong, in a few words without a full stop: for `Item`, the text of its
    /// error.
    pub fn text(&self) -> &'static str
        ensures { result.now ≡ text_of self.now }
    {
        match self {
            ViewError::Item(error) => error.text(),
            ViewError::Read => "cannot read the input",
            ViewError::Write => "cannot write the output",
        }
    }
}

impl From<Error> for ViewError {
    ghost from_gives = { λ refusal e. e ≡ Item refusal };

    fn from(refusal: Error) -> ViewError {
        ViewError::Item(refusal)
    }
}

impl From<AllocError> for ViewError {
    ghost from_gives = { λ _ e. e ≡ Item Memory };

    fn from(_refused: AllocError) -> ViewError {
        ViewError::Item(Error::Memory)
    }
}
