//! Writes a `DataItem` as a dump (annotated hex): encodes it, and dumps the bytes.
ghost use Rattle.std.specs.Prelude.{◌≡◌, ◌+◌, IfOk, IfErr};
ghost use Rattle.std.specs.List.{AllByRecursion};
ghost use Rattle.std.specs.String.{string_bytes};
ghost use Rattle.hex.specs.Hex.{encode_lower};
ghost use Rattle.cbor_tokens.specs.Ascii.{line_feed};
ghost use Rattle.cbor_notes.specs.Columns.{IsColumn};
ghost use Rattle.cbor_tokens.specs.Uncommented.{Lacks, uncommented};
ghost use Rattle.cbor_notes.specs.Layout.{width_of};
ghost use Rattle.cbor_diag.specs.View.{view};
ghost use Rattle.cbor_grammar.specs.Embedded.{EmbedsExactly, RejectsExactly};
ghost use Rattle.cbor_grammar.specs.Facts.{IsWellFormed};
ghost use Rattle.cbor_grammar.specs.Written.{encoded, resolve};
ghost use Rattle.cbor_grammar.specs.HexText.{IsHexOf};
ghost use Rattle.cbor_dump.specs.Dump as spec;

use crate::syntax::DataItem;
use cbor_dump::walk::dump;
use cbor_grammar::Error;
use std::alloc::Global;

impl DataItem {
    /// Returns the item as a dump: its bytes in hex, as [`DataItem::to_bytes`] writes them, each
    /// line with a comment. docs/DUMP.md describes the lines. `parse_hex` reads a dump back, with
    /// unstated widths resolved.
    ///
    /// The item has to be well formed, as [`DataItem::is_well_formed`] checks. The only error is
    /// `Memory`.
    ///
    /// ```rust
    /// use cbor_diag::parse_diag;
    ///
    /// let item = parse_diag(alloc, "[100]")?;
    /// let dump = "81       # array(1)\n   18 64 #   unsigned(100)\n";
    /// assert_eq!(rt; item.to_hex(alloc)?.as_str(), dump);
    /// ```
    pub fn to_hex(&self, alloc: Global) -> cbor_grammar::Result<String>
        requires { IsWellFormed (view self.now) }
        ensures text { IfOk result (λ t. string_bytes t ≡ spec.dump (view self.now)) }
        // Without its comments the dump is the item's encoding in hex.
        ensures digits { IfOk result (λ t. uncommented (string_bytes t)
            ≡ encode_lower (encoded (view self.now))) }
        // So it is read back as the item with its unstated widths resolved.
        ensures read_back { IfOk result (λ t. IsHexOf (string_bytes t) (resolve (view self.now))) }
        // No comment has a line feed, whatever the item carries.
        ensures one_line { AllByRecursion (λ line. Lacks line_feed line.comment)
            (spec.lines (view self.now)) }
        // The first `#` of every line is in one column.
        ensures one_column { IfOk result (λ t.
            IsColumn (width_of (spec.lines (view self.now)) + 1) (string_bytes t)) }
        // What is dumped as embedded items is exactly what the bytes encode. Otherwise the note
        // says why not.
        ensures embedded { EmbedsExactly }
        ensures not_embedded { RejectsExactly }
        ensures refused { IfErr result (λ e. e ≡ Error.Memory) }
    {
        let bytes = self.to_bytes(alloc)?;
        let (text, _) = dump(alloc, &bytes, 1)?;
        Ok(text)
    }
}
