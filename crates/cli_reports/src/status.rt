ghost use Rattle.std.specs.Prelude.{◌≡◌};
ghost use Rattle.cli_reports.specs.Reported.{status_code, ended_code};

use crate::Refusal;

/// How a run ended.
#[derive(Clone, Copy)]
pub enum Status {
    /// Everything that the arguments ask for is done.
    Done,
    /// Everything is done except what is left out, which is reported.
    PartlyDone,
    /// The run was refused, for this reason.
    Refused(Refusal),
    /// The arguments ask for nothing that the program does.
    WrongArguments,
}

impl Status {
    /// Returns the exit status of the process.
    pub fn code(self) -> u8
        ensures { result ≡ status_code self }
    {
        match self {
            Status::Done => 0,
            Status::PartlyDone | Status::Refused(_) => 1,
            Status::WrongArguments => 2,
        }
    }
}

/// How a run ended, and whether standard error took the whole report.
#[derive(Clone, Copy)]
pub struct Ended {
    pub status: Status,
    pub is_reported: bool,
}

impl Ended {
    /// Returns the exit status of the process: 0 only if everything is done and the whole report was taken.
    pub fn code(self) -> u8
        ensures { result ≡ ended_code self }
    {
        if self.is_reported {
            self.status.code()
        } else {
            self.status.code().max(1)
        }
    }
}
