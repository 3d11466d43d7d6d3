// Why a device is not opened or formatted, as it is reported.
ghost use Rattle.std.specs.Prelude.{◌≡◌};
ghost use Rattle.commit.specs.Told.{cause_text};

use crate::Cause;
use std::fmt;

/// Why a device is not opened or formatted. The caller gets the device back together with it.
#[derive(Clone, Copy, Debug, PartialEq, Eq)]
pub enum OpeningRefusal {
    /// C1: no commit rules.
    NotAStore,
    /// C2: a commit already rules, so nothing is formatted.
    AlreadyAStore,
    /// C3: the store is damaged, or no store has a device of this size.
    Damaged(Cause),
    /// C4: the device failed.
    Device,
    /// Memory was refused.
    OutOfMemory,
}

fn cause_name(cause: Cause) -> &'static str
    ensures { result.now ≡ cause_text cause }
{
    match cause {
        Cause::DeviceSize => "DeviceSize",
        Cause::CatalogueRange => "CatalogueRange",
        Cause::CatalogueUnreadable => "CatalogueUnreadable",
        Cause::CatalogueText => "CatalogueText",
        Cause::RunRange => "RunRange",
        Cause::RunOverlap => "RunOverlap",
    }
}

/// For example `C3 Damaged CatalogueText`.
impl fmt::Display for OpeningRefusal {
    ghost use Rattle.std.specs.Prelude.{Some};
    ghost use Rattle.commit.specs.Told.{opening_text};

    ghost output = { λ refusal. Some (opening_text refusal) };

    fn fmt<W: fmt::Write>(&self, f: &mut fmt::Formatter<W>) -> fmt::Result {
        match self {
            OpeningRefusal::NotAStore => f.write_str("C1 NotAStore"),
            OpeningRefusal::AlreadyAStore => f.write_str("C2 AlreadyAStore"),
            OpeningRefusal::Damaged(cause) => write!(f, "C3 Damaged {}", cause_name(*cause)),
            OpeningRefusal::Device => f.write_str("C4 Device"),
            OpeningRefusal::OutOfMemory => f.write_str("OutOfMemory"),
        }
    }
}

impl std::error::Error for OpeningRefusal {}
