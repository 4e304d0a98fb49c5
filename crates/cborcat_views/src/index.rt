//! `Indexed`: for `-t index=SIZE`, items that follow each other, and the line of them: where they
//! begin, their length, and how many they are.

use std::alloc::AllocError;

/// Items that follow each other.
#[derive(Clone, Copy)]
pub struct Indexed {
    /// Where the first begins in the data.
    begins: usize,
    /// Where the last ends.
    end: usize,
    count: usize,
}

impl Indexed {
    /// No items yet, at a place of the data.
    pub fn from(begins: usize) -> Indexed {
        Indexed {
            begins,
            end: begins,
            count: 0,
        }
    }

    /// The same items with a further one, which ends at this place.
    pub fn with(self, end: usize) -> Indexed {
        Indexed {
            begins: self.begins,
            end,
            count: self.count.saturating_add(1),
        }
    }

    /// How many bytes they have.
    pub fn size(self) -> usize {
        self.end.saturating_sub(self.begins)
    }

    /// Appends the line of these items, if there are any, and returns none after them.
    pub fn push_line(self, out: &mut Vec<u8>) -> Result<Indexed, AllocError> {
        let Indexed { begins, end, count } = self;
        if count > 0 {
            let len = self.size();
            let line = format!(in *out.allocator(); "{begins} {len} {count}\n")?;
            out.extend_from_slice(line.as_bytes())?;
        }
        Ok(Indexed::from(end))
    }
}
