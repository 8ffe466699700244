//! How a run ends.

ghost use Rattle.std.specs.Prelude.{◌≡◌};
ghost use Rattle.fux_run.specs.Statuses.{code_of, verdict_status};

use works::Verdict;

/// How a run ends.
#[derive(Clone, Copy)]
pub enum Status {
    /// There is a best setting, canon or cantus, the certificate is accepted, there is no mark, or
    /// the setting is written in another form.
    Favorable,
    /// No setting, canon or cantus is lawful, the certificate is refused, or there is a mark.
    Unfavorable,
    /// The words are of no command's form.
    Usage,
    /// The file is not what the command needs.
    Refused,
    /// The file cannot be read.
    Unreadable,
    /// Standard output cannot be written.
    Unwritable,
    /// The budget is spent.
    Spent,
    /// There is not enough memory.
    OutOfMemory,
}

impl Status {
    /// The status that the process ends with.
    pub fn code(self) -> u8
        ensures { result ≡ code_of self }
    {
        self as u8
    }
}

impl From<Verdict> for Status {
    ghost from_gives = { λ verdict status. status ≡ verdict_status verdict };

    fn from(verdict: Verdict) -> Status {
        match verdict {
            Verdict::Favorable => Status::Favorable,
            Verdict::Unfavorable => Status::Unfavorable,
            Verdict::Spent => Status::Spent,
        }
    }
}
