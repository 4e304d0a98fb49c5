//! `Form`: the form of an input or an output, found by its number in C. Also says in which form
//! `cbor_diag` reads an input, and in which styles EDN and JSON are written.
ghost use Rattle.std.specs.Prelude.{◌≡◌, None, IfSome};
ghost use Rattle.cbor_diag_c.specs.Forms.{form_number, read_as, edn_style, json_style, IsNoForm};

use cbor_diag::{Source, To};
use cbor_edn_writer::EdnStyle;
use cbor_json::JsonStyle;

/// What is returned for the number of no form.
pub(crate) const NO_FORM: i64 = -11;

/// The form of an input or of an output.
#[derive(Clone, Copy)]
pub(crate) enum Form {
    /// One that `cbor_diag` has.
    Plain(To),
    /// One that is written straight from bytes. An input is read as EDN.
    Text(Text),
}

/// What is written straight from bytes.
#[derive(Clone, Copy)]
pub(crate) enum Text {
    /// EDN: over several lines where it is long and with notes, or on one line.
    Edn { pretty: bool },
    /// JSON on one line: what it does not keep is an error, or is lost.
    Json { strict: bool },
    /// The lines of a page.
    Html,
}

impl Form {
    /// Returns the form with this number.
    pub(crate) fn of(number: u32) -> Option<Form>
        ensures named { IfSome result (λ form. number ≡ form_number form) }
        ensures none { result ≡ None → IsNoForm number }
    {
        match number {
            0 => Some(Form::Plain(To::Bytes)),
            1 => Some(Form::Plain(To::Hex)),
            2 => Some(Form::Plain(To::Diag)),
            3 => Some(Form::Plain(To::Pretty)),
            4 => Some(Form::Text(Text::Edn { pretty: false })),
            5 => Some(Form::Text(Text::Edn { pretty: true })),
            6 => Some(Form::Text(Text::Json { strict: false })),
            7 => Some(Form::Text(Text::Json { strict: true })),
            8 => Some(Form::Text(Text::Html)),
            _ => None,
        }
    }
}

/// Returns the form in which an input is read.
pub(crate) fn read_as(form: To) -> Source
    ensures { result ≡ read_as form }
{
    match form {
        To::Bytes => Source::Bytes,
        To::Hex => Source::Hex,
        To::Diag | To::Pretty => Source::Diag,
    }
}

/// Returns how EDN is written.
pub(crate) fn edn_style(pretty: bool) -> EdnStyle
    ensures { result ≡ edn_style pretty }
{
    if pretty {
        EdnStyle::PRETTY
    } else {
        EdnStyle::LINE
    }
}

/// Returns how JSON is written.
pub(crate) fn json_style(strict: bool) -> JsonStyle
    ensures { result ≡ json_style strict }
{
    if strict {
        JsonStyle::STRICT
    } else {
        JsonStyle::PLAIN
    }
}
