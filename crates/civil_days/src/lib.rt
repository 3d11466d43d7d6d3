//! Dates of the proleptic Gregorian calendar, as day numbers from 1970-01-01 and as texts; times as numbers of units.
//!
//! [`date_of`] and [`day_of`] go from day numbers to dates and back, in any year. [`push_date`] and [`push_time`] append
//! texts, and [`parse_date`] and [`parse_time`] read them, in any year of at most twelve digits. [`time_value`] is the
//! number that a time is. [`date_column_of`] says what the numbers of a type count, and [`read_value`] reads the number that a
//! text states in such a column. No call loops over days or years.
//!
//! ```
//! push_date(&mut text, 20_787)?;
//! let day = parse_date(b"2026-11-30");
//! ```
//!
//! appends `2026-11-30`, and `day` is 20,787.
#![tactic(auto)]

mod civil_date;
mod clock;
mod date;
mod date_column;
mod date_form;
mod far;
mod fraction;
mod laws;
mod near;
mod parse;
mod print;
mod printing;
mod read_time;
mod reading;
mod time;
mod unit;
mod value;
mod zone;

pub use civil_date::CivilDate;
pub use date::{date_of, day_of};
pub use date_column::{ColumnZone, DateColumn, DateFault, date_column_of};
pub use date_form::DateForm;
pub use laws::shown_reads_back;
pub use parse::parse_date;
pub use print::push_date;
pub use printing::{push_value, texts_need_no_escape};
pub use read_time::{ReadTime, parse_time};
pub use reading::read_value;
pub use time::push_time;
pub use unit::Unit;
pub use value::time_value;
pub use zone::Zone;
