//! `KEPT`: the files of names in CDDL that come with the program, each with its name. They are those
//! of `share/names`.

mod c509;
mod cardano;
mod corim;
mod coswid;
mod mdoc;
mod suit;

use self::c509::C509;
use self::cardano::CARDANO;
use self::corim::CORIM;
use self::coswid::COSWID;
use self::mdoc::MDOC;
use self::suit::SUIT;

/// The names of the files, and their texts in CDDL, in the order of their names.
pub static KEPT: [(&str, &str); 6] = [
    ("c509", C509),
    ("cardano", CARDANO),
    ("corim", CORIM),
    ("coswid", COSWID),
    ("mdoc", MDOC),
    ("suit", SUIT),
];
