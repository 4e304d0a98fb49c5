//! `Job`: what the arguments of `cborcat` ask for, with a field for each part. `View`: what is
//! shown of an input, such as items, JSON or paths. `Wanted`: which part of each item is written,
//! and how. `Color`: when colours are used.

use crate::changes::Change;
use crate::values::number_of;
use cbor_inputs::Input;
use cbor_inspect::{Form, Step, Style};
use cbor_rules::RuleSet;
use std::env;

/// Whether colours are asked for.
#[derive(Clone, Copy, PartialEq, Eq)]
pub enum Color {
    /// If they are written to a terminal that shows them.
    Auto,
    /// Even if they are not.
    Always,
    /// In no case.
    Never,
}

/// The words of these.
pub(crate) static COLORS: [&str; 3] = ["auto", "always", "never"];

impl Color {
    /// Whether colours are asked for by a word.
    pub(crate) fn named(word: Option<&str>) -> Color {
        match word {
            Some("always") => Color::Always,
            Some("never") => Color::Never,
            _ => Color::Auto,
        }
    }

    /// Whether texts have colours that go to a terminal, or not.
    pub fn is_used(self, rt: &HostRuntime, terminal: bool) -> bool {
        match self {
            Color::Auto => terminal && wants_colors(rt),
            Color::Always => true,
            Color::Never => false,
        }
    }
}

/// Whether the environment wants colours in a terminal: `TERM` is there and is not `dumb`, and
/// `NO_COLOR` is not there or empty.
fn wants_colors(rt: &HostRuntime) -> bool {
    let shows = match env::var(rt, "TERM") {
        Ok(name) => !name.is_empty() && name.as_str() != "dumb",
        Err(_) => false,
    };
    let refuses = match env::var(rt, "NO_COLOR") {
        Ok(value) => !value.is_empty(),
        Err(error) => error != env::VarError::NotPresent,
    };
    shows && !refuses
}

/// What is looked for in an input.
#[derive(Clone, Copy)]
pub enum View {
    /// Its items, or a part of each.
    Items,
    /// The same, each encoded again by these rules.
    Encoded(RuleSet),
    /// Whether they are whole, keep rules and fit CDDL. Nothing is shown of them.
    Check,
    /// Its items, or a part of each, as JSON.
    Json,
    /// The same, each a string: its content.
    Raw,
    /// The items that hold no other, and the paths to them.
    Paths,
    /// The same as one page, of at most this many bytes of data.
    Html(usize),
    /// The item to which this byte of the data belongs.
    At(usize),
    /// What differs between two inputs.
    Diff,
    /// Which paths take the bytes of all items.
    Stats,
    /// Where pieces of whole items begin and end that have at least this many bytes.
    Index(usize),
}

/// What the arguments ask for.
#[derive(Drop)]
pub struct Job<'a> {
    /// The form of the inputs, if it is named.
    pub from: Option<Input>,
    /// A text that is read in place of files.
    pub text: Option<&'a str>,
    /// How many bytes of the data are skipped.
    pub offset: usize,
    /// How long an item may be.
    pub limit: usize,
    /// What is looked for.
    pub view: View,
    /// Whether the output has colours.
    pub color: Color,
    /// Whether widths are left out of notation.
    pub widthless: bool,
    /// How many bytes the longest strings have that are not cut, if others are.
    pub elide: Option<usize>,
    /// What is written of each item.
    pub show: Wanted,
    /// Whether names are shown where there are notes.
    pub names: bool,
    /// The type of what is shown.
    pub outer: Option<&'a str>,
    /// The file with further tables of names.
    pub tables: Option<&'a str>,
    /// Whether names stand in place of the keys of JSON.
    pub names_as_keys: bool,
    /// Whether the lines of paths have the place of each item.
    pub places: bool,
    /// Whether the same item in another encoding is a difference.
    pub exact: bool,
    /// The number of the item that is shown alone, counted from 0.
    pub item: Option<usize>,
    /// The path as it was given, without the number of an item before it.
    pub path: &'a str,
    /// The changes of the items before they are shown, in this order.
    pub changes: Vec<Change<'a>>,
    /// Whether the part of a truncated or malformed item that is there is written.
    pub partial: bool,
    /// Whether what JSON does not keep is an error.
    pub strict: bool,
    /// The file that is written.
    pub output: Option<&'a str>,
    /// Whether each file is replaced by what is written of it.
    pub in_place: bool,
    /// Whether the form of the output is named.
    pub is_form_named: bool,
    /// The rules that a check asks for beyond those of RFC 8949's grammar.
    pub rules: Option<RuleSet>,
    /// The files of CDDL that each item has to fit.
    pub schemas: Vec<&'a str>,
    /// The rule of these that each item has to fit, if it is not the first.
    pub rule: Option<&'a str>,
    /// The files that are read; `-` for standard input.
    pub files: Vec<&'a str>,
}

/// What is written of items.
#[derive(Drop)]
pub struct Wanted {
    /// How each is written.
    pub style: Style,
    /// The path to the part that is written.
    pub steps: Vec<Step>,
    /// Whether at most one item is passed.
    pub one: bool,
}

impl Job<'_> {
    /// The option that a word may have been meant as the value of: one that was given without a
    /// value, behind which the word was taken for a file.
    pub fn option_before(&self, word: &str) -> Option<&'static str> {
        if self.is_check() && self.rules.is_none() && RuleSet::named(word).is_some() {
            Some("--check")
        } else if self.elide.is_some() && number_of(word).is_some() {
            Some("--elide")
        } else {
            None
        }
    }

    /// Whether the output goes to a terminal, if standard output is one.
    pub fn is_on_screen(&self) -> bool {
        self.output.is_none() && !self.in_place
    }

    /// Whether inputs are checked alone.
    pub fn is_check(&self) -> bool {
        matches!(self.view, View::Check)
    }

    /// Whether there are names: they are shown, or a path may have them.
    pub fn has_names(&self) -> bool {
        let is_followed = !self.path.is_empty() || !self.changes.is_empty();
        is_followed && self.names || self.shows_names()
    }

    /// Whether items are shown with their names.
    pub fn shows_names(&self) -> bool {
        let style = self.show.style;
        let has_comments = matches!(style.form, Form::Pretty | Form::Hex) && style.notes;
        let is_named = match self.view {
            View::Items | View::Encoded(_) | View::Html(_) => has_comments,
            View::Json => self.names_as_keys,
            // Names say which byte strings paths enter.
            View::Paths | View::At(_) | View::Diff | View::Stats => style.notes,
            View::Check | View::Raw | View::Index(_) => false,
        };
        is_named && self.names
    }
}
