//! Checks whether an item fits a type with a control, such as `.size` (RFC 8610, section 3.8).

ghost use Rattle.std.specs.Prelude.{◌≡◌, ◌≤◌, ◌+◌, ◌-◌, ◌^◌, ℕ, nat_lt, nat_le, Some, IfOk, OnOk, pos};
ghost use Rattle.std.specs.Prelude.{◌&&◌, int_le};
ghost use Rattle.cbor_fits.specs.Value.{integer};
ghost use Rattle.cbor_fits.specs.View.{view};
ghost use Rattle.cbor_fits.specs.Tables.{rules_of};
ghost use Rattle.cbor_fits.specs.Kept.{Holds};
ghost use Rattle.cbor_fits.specs.Fits.{matcher, any_of, has_size, any_from, size_count};
ghost use Rattle.cbor_fits.specs.Fits.{has_bits, all_bits_of, all_bits};
ghost use Rattle.cbor_fits.specs.Fits.{has_inside, has_match};

use crate::read::{read_item, read_sequence};
use crate::tables::Tables;
use crate::value::Datum;
use crate::work::Work;
use cbor_cddl::{List, Node, Stop};

/// No byte string in memory has a bit past this one.
const LAST_BIT: u64 = 1 << 62;

/// How many bytes a number needs: the least `k` for which it is below `256^k`.
fn bytes_needed(number: u64) -> u64
    ensures needed { (k : ℕ) → nat_lt number (256 ^ k) ≡ nat_le result k }
    ensures few { result ≤ number }
{
    if number == 0 {
        return 0;
    }
    bytes_needed(number / 256) + 1
}

/// Whether a range has a number that is at least the first one.
fn has_number_from(least: i128, most: i128, first: u64) -> bool
    ensures { result ≡ (int_le least most && int_le (pos first) most) }
{
    least <= most && i128::from(first) <= most
}

impl Tables<'_> {
    /// `.size`: the length of a string fits, or a number is below `256^k` for a size `k` that fits.
    #[inline(never)]
    #[cycle(fits)]
    pub(crate) fn fits_size(
        &self,
        work: &mut Work,
        sizes: usize,
        datum: &Datum,
        inner: u32,
    ) -> Result<bool, Stop>
        requires { Holds (rules_of self.now) work.old }
        ensures right { IfOk result (λ b.
            has_size (λ k. (matcher (rules_of self.now) inner).fits sizes (integer (pos k)))
            (view datum.now) ≡ Some b) }
        ensures kept { OnOk result (Holds (rules_of self.now) work.new) }
    {
        match datum {
            Datum::Bytes(content) => { self.fits_number(work, sizes, content.len() as u64, inner) }
            Datum::Text(content) => { self.fits_number(work, sizes, content.len() as u64, inner) }
            Datum::Unsigned(number) => {
                self.has_size_from(work, sizes, bytes_needed(*number), inner)
            }
            _ => Ok(false),
        }
    }

    /// Whether a size fits that is at least the first one: a number, a range, or a choice of these.
    #[inline(never)]
    #[cycle(fits)]
    fn has_size_from(
        &self,
        work: &mut Work,
        sizes: usize,
        first: u64,
        depth: u32,
    ) -> Result<bool, Stop>
        requires { Holds (rules_of self.now) work.old }
        ensures right { IfOk result (λ b.
            any_from (λ k. (matcher (rules_of self.now) depth).fits sizes (integer
            (pos k))) (size_count - first) first ≡ Some b) }
        ensures kept { OnOk result (Holds (rules_of self.now) work.new) }
    {
        if depth == 0 {
            return Err(Stop::Deep);
        }
        work.step()?;
        match self.node(sizes) {
            Node::Integers { least, most } => Ok(has_number_from(least, most, first)),
            Node::Major(major) => Ok(major == 0),
            Node::Choice(list) => self.one_has_size_from(work, list, first, depth - 1),
            Node::Rule(rule) => self.has_size_from(work, self.body(rule), first, depth - 1),
            _ => self.finds_size_from(work, sizes, first, depth),
        }
    }

    /// Whether a size fits one of several types that is at least the first one.
    #[inline(never)]
    #[cycle(fits)]
    fn one_has_size_from(
        &self,
        work: &mut Work,
        list: List,
        first: u64,
        inner: u32,
    ) -> Result<bool, Stop>
        requires { Holds (rules_of self.now) work.old }
        ensures right { IfOk result (λ b.
            any_from (λ k. any_of (λ t. (matcher (rules_of self.now) inner).fits t (integer
            (pos k))) ((rules_of self.now).list list)) (size_count - first) first ≡ Some b) }
        ensures kept { OnOk result (Holds (rules_of self.now) work.new) }
    {
        let mut found = false;
        'types: for index in self.list(list) {
            found |= self.has_size_from(work, *index, first, inner)?;
        }
        Ok(found)
    }

    /// Tries sizes from the first one on until one fits. If none does, that takes all steps.
    #[inline(never)]
    #[cycle(fits)]
    fn finds_size_from(
        &self,
        work: &mut Work,
        sizes: usize,
        first: u64,
        inner: u32,
    ) -> Result<bool, Stop>
        requires { Holds (rules_of self.now) work.old }
        ensures right { IfOk result (λ b.
            any_from (λ k. (matcher (rules_of self.now) inner).fits sizes (integer
            (pos k))) (size_count - first) first ≡ Some b) }
        ensures kept { OnOk result (Holds (rules_of self.now) work.new) }
    {
        'sizes: for size in first..u64::MAX {
            if self.fits_number(work, sizes, size, inner)? {
                return Ok(true);
            }
        }
        Err(Stop::Work)
    }

    /// `.bits`: the number of each bit that is set fits.
    #[inline(never)]
    #[cycle(fits)]
    pub(crate) fn fits_bits(
        &self,
        work: &mut Work,
        bits: usize,
        datum: &Datum,
        inner: u32,
    ) -> Result<bool, Stop>
        requires { Holds (rules_of self.now) work.old }
        ensures right { IfOk result (λ b.
            has_bits (λ k. (matcher (rules_of self.now) inner).fits bits (integer (pos k)))
            (view datum.now) ≡ Some b) }
        ensures kept { OnOk result (Holds (rules_of self.now) work.new) }
    {
        match datum {
            Datum::Bytes(content) => self.fits_bits_of_bytes(work, bits, content, inner),
            Datum::Unsigned(number) => {
                let set = SetBits {
                    first: 0,
                    count: 64,
                    number: *number,
                };
                self.fits_set_bits(work, bits, set, inner)
            }
            _ => Ok(false),
        }
    }

    /// Whether the number of each bit that is set fits, of bytes.
    #[inline(never)]
    #[cycle(fits)]
    fn fits_bits_of_bytes(
        &self,
        work: &mut Work,
        bits: usize,
        content: &[u8],
        inner: u32,
    ) -> Result<bool, Stop>
        requires { Holds (rules_of self.now) work.old }
        ensures right { IfOk result (λ b.
            all_bits_of (λ k. (matcher (rules_of self.now) inner).fits bits (integer
            (pos k))) 0 content.now ≡ Some b) }
        ensures kept { OnOk result (Holds (rules_of self.now) work.new) }
    {
        let mut first = 0u64;
        'bytes: for byte in content {
            if first > LAST_BIT {
                return Err(Stop::Work);
            }
            let set = SetBits {
                first,
                count: 8,
                number: u64::from(*byte),
            };
            if !self.fits_set_bits(work, bits, set, inner)? {
                return Ok(false);
            }
            first += 8;
        }
        Ok(true)
    }

    /// Whether the number of each bit that is set fits.
    #[inline(never)]
    #[cycle(fits)]
    fn fits_set_bits(
        &self,
        work: &mut Work,
        bits: usize,
        set: SetBits,
        inner: u32,
    ) -> Result<bool, Stop>
        requires kept { Holds (rules_of self.now) work.old }
        requires within { set.first + set.count ≤ 2 ^ 63 }
        ensures right { IfOk result (λ b.
            all_bits (λ k. (matcher (rules_of self.now) inner).fits bits (integer (pos k)))
            set.count set.first set.number ≡ Some b) }
        ensures kept { OnOk result (Holds (rules_of self.now) work.new) }
    {
        let mut number = set.number;
        'bits: for bit in 0..set.count {
            let is_set = number % 2 == 1;
            if is_set {
                if !self.fits_number(work, bits, set.first + bit, inner)? {
                    return Ok(false);
                }
            }
            number = number / 2;
        }
        Ok(true)
    }

    /// `.cbor`: the bytes encode an item that fits.
    #[inline(never)]
    #[cycle(fits)]
    pub(crate) fn fits_inside(
        &self,
        work: &mut Work,
        index: usize,
        datum: &Datum,
        inner: u32,
    ) -> Result<bool, Stop>
        requires { Holds (rules_of self.now) work.old }
        ensures right { IfOk result (λ b.
            has_inside (rules_of self.now).decoded ((matcher (rules_of self.now) inner).fits
            index) (view datum.now) ≡ Some b) }
        ensures kept { OnOk result (Holds (rules_of self.now) work.new) }
    {
        let Datum::Bytes(content) = datum else {
            return Ok(false);
        };
        match read_item(self.alloc, content)? {
            Some(item) => {
                let mut inside = work.inside(self.alloc);
                let fits = self.fits(&mut inside, index, &item, inner)?;
                work.go_on_after(&inside);
                Ok(fits)
            }
            None => Ok(false),
        }
    }

    /// `.cborseq`: the bytes encode items, and the array of these items fits.
    #[inline(never)]
    #[cycle(fits)]
    pub(crate) fn fits_sequence(
        &self,
        work: &mut Work,
        index: usize,
        datum: &Datum,
        inner: u32,
    ) -> Result<bool, Stop>
        requires { Holds (rules_of self.now) work.old }
        ensures right { IfOk result (λ b.
            has_inside (rules_of self.now).decoded_sequence ((matcher
            (rules_of self.now) inner).fits index) (view datum.now) ≡ Some b) }
        ensures kept { OnOk result (Holds (rules_of self.now) work.new) }
    {
        let Datum::Bytes(content) = datum else {
            return Ok(false);
        };
        match read_sequence(self.alloc, content)? {
            Some(items) => {
                let mut inside = work.inside(self.alloc);
                let fits = self.fits(&mut inside, index, &items, inner)?;
                work.go_on_after(&inside);
                Ok(fits)
            }
            None => Ok(false),
        }
    }

    /// `.regexp`, `.pcre`: the text matches the pattern.
    #[inline(never)]
    pub(crate) fn fits_pattern(&self, index: usize, datum: &Datum) -> Result<bool, Stop>
        ensures { IfOk result (λ b. b ≡ has_match ((rules_of self.now).is_match index)
            (view datum.now)) }
    {
        match datum {
            Datum::Text(content) => Ok(self.is_match(index, content)?),
            _ => Ok(false),
        }
    }
}

/// The bits of a number that are looked at.
#[derive(Clone, Copy)]
struct SetBits {
    /// The number of the lowest bit.
    first: u64,
    /// How many bits there are.
    count: u64,
    /// The bits.
    number: u64,
}
