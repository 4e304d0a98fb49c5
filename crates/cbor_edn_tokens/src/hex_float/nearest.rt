//! Rounds a hexadecimal number to the nearest 32-bit or 64-bit float. `Front`: a number by its
//! leading digits, how many digits follow, and whether any of these is not zero.
ghost use Rattle.std.specs.Prelude.{◌≡◌, ◌⊎◌, ℕ, ◌+◌, ◌*◌, ◌/◌, ◌^◌, ◌<◌, ◌≤◌, ◌||◌, nat_lt, false};
ghost use Rattle.std.specs.Prelude.{from_bits};
ghost use Rattle.std.specs.Float.Ieee.{round, units, prec, low, hid, ones};
ghost use Rattle.std.specs.Float.Ieee.Nearest.{closest};
ghost use Rattle.cbor_edn_tokens.specs.mirror.Front.{IsFront, FitsFront, Behind, format_of};

/// A format of IEEE 754 that a number is rounded to.
#[derive(Clone, Copy)]
pub(super) enum Format {
    /// binary32.
    Single,
    /// binary64.
    Double,
}

impl Format {
    /// How many binary digits a number has, the leading one counted.
    fn precision(self) -> u128
        ensures { result ≡ prec (format_of self) }
    {
        match self {
            Format::Single => 24,
            Format::Double => 53,
        }
    }

    /// The exponent of the least positive number, without its minus.
    fn least(self) -> u128
        ensures { result ≡ low (format_of self) }
    {
        match self {
            Format::Single => 149,
            Format::Double => 1074,
        }
    }

    /// The weight of the exponent in the bits, and of the leading digit, which they leave out.
    fn hidden(self) -> u128
        ensures { result ≡ hid (format_of self) }
    {
        match self {
            Format::Single => 1 << 23,
            Format::Double => 1 << 52,
        }
    }

    /// The bits of the infinity.
    fn infinity(self) -> u128
        ensures { result ≡ ones (format_of self) * hid (format_of self) }
    {
        match self {
            Format::Single => 255 << 23,
            Format::Double => 2047 << 52,
        }
    }
}

/// A number by the digits at its front.
#[derive(Clone, Copy)]
pub(super) struct Front {
    /// The number of the digits at the front, below 2^60.
    pub(super) digits: u64,
    /// How many hex digits follow them: none, if the front is below 2^56.
    pub(super) behind: u64,
    /// Whether any of the digits that follow is not zero.
    pub(super) more: bool,
}

impl Front {
    /// The number 0.
    pub(super) const ZERO: Front = Front {
        digits: 0,
        behind: 0,
        more: false,
    };

    /// The number with one more digit.
    pub(super) fn then(self, digit: u32) -> Front
        requires fits { FitsFront self }
        requires digit { digit < 16 }
        requires room { self.behind + 1 < 2 ^ 64 }
        ensures number { (n : ℕ) → IsFront self n → IsFront result (n * 16 + digit) }
        ensures fits { FitsFront result }
        ensures behind { result.behind ≤ self.behind + 1 }
    {
        if self.digits < 1 << 56 {
            Front {
                digits: self.digits * 16 + digit as u64,
                ..self
            }
        } else {
            Front {
                behind: self.behind + 1,
                more: is_more(self.more, digit),
                ..self
            }
        }
    }
}

/// Whether `more` is set, or this digit is not zero.
fn is_more(more: bool, digit: u32) -> bool
    ensures { result ≡ (more || nat_lt 0 digit) }
{
    more || digit > 0
}

/// The integer nearest to the digits at the front and those behind, over 2^cut. At a tie it is the
/// even one.
fn rounded(front: Front, cut: u32) -> u64
    requires { (front.digits < 2 ^ 60) × (1 ≤ cut) × (cut ≤ 62) }
    ensures closest { (tail : ℕ) → Behind front tail
        → result ≡ closest (front.digits * 2 ^ (4 * front.behind) + tail)
        (2 ^ cut * 2 ^ (4 * front.behind)) }
    ensures least { front.digits / 2 ^ cut ≤ result }
    ensures most { result ≤ front.digits / 2 ^ cut + 1 }
{
    let unit = power_of_two(cut);
    let kept = front.digits / unit;
    let twice = front.digits % unit * 2;
    if twice < unit {
        kept
    } else if twice > unit || front.more {
        kept + 1
    } else {
        kept + kept % 2
    }
}

fn power_of_two(exponent: u32) -> u64
    requires { exponent ≤ 62 }
    ensures same { result ≡ 2 ^ exponent }
    ensures most { result ≤ 2 ^ 62 }
    ensures above { 0 < result }
{
    1 << exponent
}

/// The bits of `kept` times 2^scale times the least positive float, or those of an infinity if that
/// is too large.
fn bits_of_units(kept: u64, scale: u128, format: Format) -> u64
    requires kept { kept ≤ 2 ^ prec (format_of format) }
    requires scale { scale < 2 ^ 71 }
    requires normal { (scale ≡ 0) ⊎ (hid (format_of format) ≤ kept) }
    ensures bits { from_bits (format_of format) result
        ≡ units (format_of format) false kept scale }
    ensures most { result ≤ ones (format_of format) * hid (format_of format) }
{
    let bits = scale * format.hidden() + kept as u128;
    bits.min(format.infinity()) as u64
}

/// The bits of the float that is nearest to a number whose front has more digits than the float
/// keeps.
fn nearest_long(front: Front, up: u128, down: u128, format: Format) -> u64
    requires low { 2 ^ 56 ≤ front.digits }
    requires high { front.digits < 2 ^ 60 }
    requires up { up < 2 ^ 68 }
    requires down { down < 2 ^ 68 }
    ensures bits { (n : ℕ) → IsFront front n → from_bits (format_of format) result
        ≡ round (format_of format) false (n * 2 ^ up) (2 ^ down) }
    ensures most { result ≤ ones (format_of format) * hid (format_of format) }
{
    let size = 64 - front.digits.leading_zeros();
    let lift = up + 4 * front.behind as u128 + format.least();
    let scale = (lift + size as u128).saturating_sub(down + format.precision());
    let cut = (down + scale - lift).min(62);
    let kept = rounded(front, cut as u32);
    bits_of_units(kept, scale, format)
}

/// The bits of the float that is nearest to the number times 2^up / 2^down.
pub(super) fn nearest(front: Front, up: u128, down: u128, format: Format) -> u64
    requires fits { FitsFront front }
    requires up { up < 2 ^ 67 }
    requires down { down < 2 ^ 67 }
    ensures bits { (n : ℕ) → IsFront front n → from_bits (format_of format) result
        ≡ round (format_of format) false (n * 2 ^ up) (2 ^ down) }
    ensures most { result ≤ ones (format_of format) * hid (format_of format) }
{
    if front.digits == 0 {
        return 0;
    }
    if front.behind > 0 {
        return nearest_long(front, up, down, format);
    }
    let spare = front.digits.leading_zeros() - 4;
    let digits = front.digits << spare;
    nearest_long(Front { digits, ..front }, up, down + spare as u128, format)
}
