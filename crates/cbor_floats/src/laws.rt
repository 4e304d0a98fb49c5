//! States laws of floats as numbers. A number has one encoding in each width, one shortest and one
//! preferred encoding. A decimal text stands for one number, and the text of a float reads back as
//! that float. No code calls these functions.
ghost use Rattle.std.specs.Prelude.{◌≡◌, ℕ, List};
ghost use Rattle.std.specs.Float.Ieee.{Float};
ghost use Rattle.cbor_floats.specs.Decimal.{IsNumber, IsReadAs};
ghost use Rattle.cbor_floats.specs.Preferred.{widened, FitsWidth, IsPreferred};
ghost use Rattle.cbor_floats.specs.Value.{IsEncodingOf, IsShortest, width_of};
ghost use Rattle.cbor_floats.specs.declared.float.EncodedFloat.{EncodedFloat};
ghost use Rattle.cbor_floats.specs.declared.float.Width.{Width};

/// A number has one encoding in each width.
fn one_encoding()
    ensures { (x : Float) (a b : EncodedFloat) → IsEncodingOf a x → IsEncodingOf b x
        → width_of a ≡ width_of b → a ≡ b }
{}

/// A text stands for one number.
fn one_number()
    ensures { (text : List ℕ) (x y : Float) → IsNumber text x → IsNumber text y → x ≡ y }
{}

/// A number has one shortest encoding.
fn one_shortest()
    ensures { (x : Float) (a b : EncodedFloat) → IsShortest a x → IsShortest b x → a ≡ b }
{}

/// A text stands for one float in each width.
fn one_reading()
    ensures { (text : List ℕ) (width : Width) (a b : EncodedFloat) → IsReadAs text width a
        → IsReadAs text width b → a ≡ b }
{}

/// The text of a float's number reads back as that float, in its width.
fn read_back()
    ensures { (text : List ℕ) (x : Float) (a : EncodedFloat) → IsNumber text x
        → IsEncodingOf a x → IsReadAs text (width_of a) a }
{}

/// Each float has one preferred width.
fn one_preferred()
    ensures { (a b : EncodedFloat) → FitsWidth a → FitsWidth b → IsPreferred a → IsPreferred b
        → widened a ≡ widened b → a ≡ b }
{}
