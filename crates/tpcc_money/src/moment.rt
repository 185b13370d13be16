//! Points in time.
ghost use Rattle.std.specs.Prelude.{◌≡◌, ◌≤◌, ◌*◌, pos, nat_le, if◌then◌else◌, IfOk, Some, None};
ghost use Rattle.jiff_core.specs.DateTime.{civil_nanos};
ghost use Rattle.tpcc_money.specs.Texts.{moment_text};
ghost use Rattle.tpcc_money.specs.declared.moment.TheConstants.Moment.{LAST_SECOND};

use jiff_core::civil::DateTime;
use std::alloc::{AllocError, Global};
use std::fmt;
use std::marker::Model;

/// A moment in whole seconds since the start of 1970 in UTC, before the year 2100.
#[derive(Clone, Copy, Debug, PartialEq, Eq, PartialOrd, Ord)]
pub struct Moment(u32);

impl Model for Moment {
    ghost use Rattle.std.specs.Prelude.{ℕ, ◌≤◌};
    ghost use Rattle.tpcc_money.specs.declared.moment.TheConstants.Moment.{LAST_SECOND};

    ghost Value = { ℕ };

    ghost view = { λ m. m.0 };

    ghost inverse = { λ n. record { 0 = n } };

    ghost invariant = { λ m. m.0 ≤ LAST_SECOND };
}

impl Moment {
    /// The last second of 2099, since the start of 1970.
    pub const LAST_SECOND: u32 = 4_102_444_799;

    /// So many seconds after the start of 1970, if that is before the year 2100.
    pub fn try_new(seconds: u32) -> Option<Self>
        ensures { result ≡ (if nat_le seconds LAST_SECOND then Some seconds else None) }
    {
        if seconds <= Moment::LAST_SECOND {
            Some(Moment::new(seconds))
        } else {
            None
        }
    }

    /// So many seconds after the start of 1970.
    pub fn new(seconds: u32) -> Self
        requires { seconds ≤ LAST_SECOND }
        ensures { result ≡ seconds }
    {
        Moment(seconds)
    }

    /// The seconds since the start of 1970.
    pub fn seconds(self) -> u32
        ensures value { result ≡ self }
        ensures range { self ≤ LAST_SECOND }
    {
        self.0
    }

    /// The civil date and time in UTC, as `1970-01-01T00:00:00`; refused only for want of memory.
    pub fn text(self, alloc: Global) -> Result<Vec<u8>, AllocError>
        ensures { IfOk result (λ text. text.items ≡ moment_text self) }
    {
        let text = self.to_string(alloc)?;
        Ok(text.into_bytes())
    }

    fn civil(self) -> DateTime
        ensures instant { civil_nanos result ≡ pos (self * 1000000000) }
        ensures range { self ≤ LAST_SECOND }
    {
        DateTime::from_nanosecond_in_range(i128::from(self.seconds()) * 1_000_000_000)
    }
}

/// The civil date and time in UTC: `1970-01-01T00:00:00`.
impl fmt::Display for Moment {
    ghost use Rattle.std.specs.Prelude.{Some};
    ghost use Rattle.tpcc_money.specs.Texts.{moment_text};

    ghost output = { λ m. Some (moment_text m) };

    fn fmt<W: fmt::Write>(&self, f: &mut fmt::Formatter<W>) -> fmt::Result {
        let DateTime { date, time } = self.civil();
        let year = date.year.unsigned_abs();
        write!(
            f,
            "{year:04}-{:02}-{:02}T{:02}:{:02}:{:02}",
            date.month, date.day, time.hour, time.minute, time.second
        )
    }
}
