//! What a run tells of a complaint: a line on standard error, and a status.

ghost use Rattle.std.specs.Prelude.{◌≡◌, ◌++◌};
ghost use Rattle.fux_run.specs.Sinks.{Gets};
ghost use Rattle.fux_run.specs.Tellings.{complaint_status, complaint_text, fux_line};

use crate::status::Status;
use fux_port::{Failed, Sink, write_all};
use works::Complaint;

/// Writes the line of a complaint, and answers the status of the run. It takes no memory, and a
/// failed write changes no status.
pub fn report<E: Sink>(complaint: &Complaint<'_>, err: &mut E) -> Status
    ensures status { result ≡ complaint_status complaint.now }
    ensures line { Gets E.written E.faults E.serves err.old err.new
        (fux_line (complaint_text complaint.now)) }
{
    let (before, detail) = pieces(complaint);
    let _ = write_pieces(err, before, detail);
    status_of(complaint)
}

/// The status of a run that ends with a complaint.
fn status_of(complaint: &Complaint<'_>) -> Status
    ensures { result ≡ complaint_status complaint.now }
{
    match complaint {
        Complaint::Usage => Status::Usage,
        Complaint::Refused { .. } => Status::Refused,
        Complaint::Unreadable { .. } => Status::Unreadable,
        Complaint::Unwritable => Status::Unwritable,
        Complaint::OutOfMemory => Status::OutOfMemory,
    }
}

/// What is said of a complaint, in two pieces.
fn pieces<'c>(complaint: &'c Complaint<'_>) -> (&'static str, &'c str)
    ensures { result.0.now ++ result.1.now ≡ complaint_text complaint.now }
{
    match complaint {
        Complaint::Usage => ("usage", ""),
        Complaint::Refused { text } => ("", text.as_str()),
        Complaint::Unreadable { name } => ("cannot read ", name.as_str()),
        Complaint::Unwritable => ("cannot write", ""),
        Complaint::OutOfMemory => ("out of memory", ""),
    }
}

/// Writes two texts as one line of the program.
fn write_pieces<E: Sink>(err: &mut E, before: &str, detail: &str) -> Result<(), Failed>
    ensures { Gets E.written E.faults E.serves err.old err.new
        (fux_line (before.now ++ detail.now)) }
{
    write_all(err, b"fux: ")?;
    write_all(err, before.as_bytes())?;
    write_all(err, detail.as_bytes())?;
    write_all(err, b"\n")
}
