//! `Tables::accepts`: whether the item that bytes encode fits the root of a schema.
ghost use Rattle.std.specs.Prelude.{◌≡◌, Some, IfOk};
ghost use Rattle.cbor_fits.specs.Tables.{rules_of};
ghost use Rattle.cbor_fits.specs.Fits.{accepts};

use crate::read::read_item;
use crate::tables::Tables;
use crate::work::Work;
use cbor_cddl::Stop;

/// How deeply types and groups may be nested in each other, with the items that fit them.
pub const DEEPEST: u32 = 700;

impl Tables<'_> {
    /// Whether the bytes encode an item that fits the root of the schema. It does not if a map in
    /// the item has a key twice, and neither do bytes that encode no item.
    ///
    /// The errors are [`Stop::Memory`], [`Stop::Work`] after 10 million steps, and [`Stop::Deep`]
    /// if rules and items are nested more than 700 deep.
    pub fn accepts(&self, bytes: &[u8]) -> Result<bool, Stop>
        ensures { IfOk result (λ b.
            accepts (rules_of self.now) 700 self.now.schema.now.root bytes.now ≡ Some b) }
    {
        match read_item(self.alloc, bytes)? {
            Some(item) => {
                let mut work = Work::new(self.alloc);
                self.fits(&mut work, self.schema.root, &item, DEEPEST)
            }
            None => Ok(false),
        }
    }
}
