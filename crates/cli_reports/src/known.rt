// What is known of a refused command besides its refusal.
ghost use Rattle.std.specs.Prelude.{◌≡◌};
ghost use Rattle.cli_reports.specs.Known.{remedy_of_hint, output_remedy, known_remedy, unchanging};

use crate::remedies::{DONE_ALREADY, NEW_OUTPUT, READ_INPUT};
use crate::{Hint, Refusal, Side};

/// Why a file could not be used, as far as a script acts on it.
#[derive(Clone, Copy)]
pub enum FileCause {
    /// Another program has locked it.
    Locked,
    /// It does not exist, or the folder of a file to be made does not.
    Missing,
    /// The system does not permit it.
    Denied,
    /// It was to be made, but something is at its path.
    Exists,
    /// Any other failed call, or none that is known.
    Other,
}

/// What is known of a refused command besides its refusal.
#[derive(Clone, Copy)]
pub struct Known<'a> {
    /// Whether the command makes a store or changes one: then it was done if its output failed.
    pub changes: bool,
    /// Why a file could not be used, if a call on one failed.
    pub cause: FileCause,
    /// What is refused, if more of it is known than the refusal carries.
    pub hint: Option<Hint<'a>>,
}

fn remedy_of_hint(hint: Option<Hint<'_>>, refusal: Refusal) -> &'static str
    ensures { result.now ≡ remedy_of_hint hint.entry refusal }
{
    match hint {
        Some(hint) => hint.remedy(refusal),
        None => refusal.remedy(),
    }
}

fn output_remedy(changes: bool) -> &'static str
    ensures { result.now ≡ output_remedy changes }
{
    if changes { DONE_ALREADY } else { NEW_OUTPUT }
}

impl<'a> Known<'a> {
    /// Returns what is known of a run that changes nothing and uses no file, with this hint.
    pub fn unchanging(hint: Option<Hint<'a>>) -> Known<'a>
        ensures { result ≡ unchanging hint.entry }
    {
        Known {
            changes: false,
            cause: FileCause::Other,
            hint,
        }
    }

    /// Returns what to do about a refusal of which this is known, in a sentence.
    pub fn remedy(self, refusal: Refusal) -> &'static str
        ensures { result.now ≡ known_remedy self.entry refusal }
    {
        match refusal {
            Refusal::Io(Side::Input) | Refusal::Store(tables::Refusal::Read) => READ_INPUT,
            Refusal::Io(Side::Output) | Refusal::Store(tables::Refusal::Write) => {
                output_remedy(self.changes)
            }
            _ => remedy_of_hint(self.hint, refusal),
        }
    }
}
