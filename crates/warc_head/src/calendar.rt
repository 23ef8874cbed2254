//! Calendar dates.
ghost use Rattle.std.specs.Prelude.{◌≡◌, ◌≤◌, ◌↔◌, IsTrue};
ghost use Rattle.warc_head.specs.Calendar.{is_date, DateExists};

use jiff::civil::Date;

/// Returns `true` if the year has this month and day.
pub fn date_exists(year: u32, month: u32, day: u32) -> bool
    requires year { year ≤ 9999 }
    requires month { month ≤ 99 }
    requires day { day ≤ 99 }
    ensures { result ≡ is_date year month day }
{
    has_day(year, month, day)
}

fn has_day(year: u32, month: u32, day: u32) -> bool
    requires year { year ≤ 9999 }
    requires month { month ≤ 99 }
    requires day { day ≤ 99 }
    ensures { IsTrue result ↔ DateExists year month day }
{
    Date::new(year as i16, month as i8, day as i8).is_ok()
}
