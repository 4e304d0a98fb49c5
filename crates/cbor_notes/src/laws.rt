//! States laws of dates: numbers of days and seconds, dates and times, and their texts agree with
//! each other and with the dates of the kit's crate `jiff`. No code calls these functions.
ghost use Rattle.std.specs.Prelude.{◌≡◌, ℕ, ◌<◌, ℤ, pos, List, IfSome};
ghost use Rattle.std.specs.Prelude.{IsSome};
ghost use Rattle.std.specs.Int.{int_div_euclid};
ghost use Rattle.jiff.specs.Types.{Date};
ghost use Rattle.jiff.specs.Words.{IsEpochDay, epoch_day};
ghost use Rattle.cbor_notes.specs.Date.{IsDateText, IsDayText, IsMomentText, date_of_epoch};
ghost use Rattle.cbor_notes.specs.Date.{datetime_of_epoch, epoch_of_date, grouped_signed};
ghost use Rattle.cbor_notes.specs.DateTime.{IsDateTimeText, epoch_of_datetime, epoch_text};
ghost use Rattle.cbor_notes.specs.Days.{IsDateOn, calendar_day, day_count, day_number, day_of};

/// The days of the calendar are the dates of `jiff`: each day is a date, whose day has the same
/// number, and each date is one of the days.
pub(crate) fn calendar_days()
    ensures days { (n : ℕ) → n < day_count → IsDateOn (day_number n) (calendar_day n) }
    ensures dates { (date : Date) → (n : ℕ) × (n < day_count) × (day_number n ≡ epoch_day date)
        × (day_of date ≡ calendar_day n) }
{}

/// The text of a day is that of the date whose day has this number. The day of each date has a
/// text.
pub(crate) fn dates_of_days()
    ensures found { (number : ℤ) → IfSome (date_of_epoch number) (IsDayText number) }
    ensures some { (date : Date) → IsSome (date_of_epoch (epoch_day date)) }
{}

/// The number of a text is that of the day of a date with this text. The text of each date from the
/// year 0 on has a number.
pub(crate) fn days_of_dates()
    ensures found { (text : List ℕ) → IfSome (epoch_of_date text) (λ day. (date : Date)
        × IsDateText text date × (day ≡ grouped_signed (epoch_day date))) }
    ensures some { (text : List ℕ) (date : Date) → IsDateText text date
        → IsSome (epoch_of_date text) }
{}

/// The text of a number of seconds is that of the moment after them. Seconds on the day of a date
/// have a text.
pub(crate) fn moments_of_seconds()
    ensures found { (seconds : ℤ) → IfSome (datetime_of_epoch seconds) (IsMomentText seconds) }
    ensures some { (seconds : ℤ) → IsEpochDay (int_div_euclid seconds (pos 86400))
        → IsSome (datetime_of_epoch seconds) }
{}

/// The seconds and the fraction of a text are those of a moment with this text. The text of each
/// moment has them.
pub(crate) fn seconds_of_moments()
    ensures found { (text : List ℕ) → IfSome (epoch_of_datetime text) (λ answer. (seconds : ℤ)
        × (digits : List ℕ) × IsDateTimeText text seconds digits
        × (answer ≡ epoch_text seconds digits)) }
    ensures some { (text : List ℕ) (seconds : ℤ) (digits : List ℕ)
        → IsDateTimeText text seconds digits → IsSome (epoch_of_datetime text) }
{}
