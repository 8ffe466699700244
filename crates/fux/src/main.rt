//! Composes and marks species counterpoint: `fux compose EX`, `fux mark EX`, and the other commands
//! of `docs/formats.md`.
#![tactic(auto)]

ghost use Rattle.std.specs.Prelude.{◌≡◌, ◌≢◌};

use fux_port::{DiskShelf, StdSink};
use fux_run::{report, run};
use std::alloc::Global;
use std::env::FillError;
use std::io::ErrorKind;
use std::process::ExitCode;
use std::rt::Env;
use std::{env, io};
use works::Complaint;

fn main(rt: HostRuntime) -> ExitCode {
    let mut shelf = DiskShelf::new(&rt);
    let mut out = StdSink::out(&rt);
    let mut err = StdSink::err(&rt);
    let status = match words_after_name(&rt) {
        Ok(words) => run(&rt, rt.alloc(), &words, &mut shelf, &mut out, &mut err),
        Err(error) => report(&complaint_of(error.kind()), &mut err).code(),
    };
    ExitCode::from(status)
}

/// A process whose arguments begin behind the program's name.
#[derive(Drop)]
struct BehindName<'a, R> {
    process: &'a R,
}

impl<R: Env> Env for BehindName<'_, R> {
    fn arg(&self, i: usize, buf: &mut [u8]) -> Result<usize, FillError> {
        match i.checked_add(1) {
            Some(next) => self.process.arg(next, buf),
            None => Err(FillError::NotPresent),
        }
    }

    fn var(&self, name: &str, buf: &mut [u8]) -> Result<usize, FillError> {
        self.process.var(name, buf)
    }

    fn var_at(&self, i: usize, buf: &mut [u8]) -> Result<usize, FillError> {
        self.process.var_at(i, buf)
    }
}

/// The words on the command line behind the program's name. The name is never read, and may be any
/// bytes.
fn words_after_name<R: Env + AllocGlobal>(rt: &R) -> io::Result<Vec<String>> {
    let alloc: Global = rt.alloc();
    let words = env::args(&(BehindName { process: rt }, alloc))?.collect(alloc)?;
    Ok(words)
}

/// A word that is not UTF-8 is of no command's form.
fn complaint_of(error: ErrorKind) -> Complaint<'static>
    ensures memory { error ≡ ErrorKind.OutOfMemory → result ≡ Complaint.OutOfMemory }
    ensures word { error ≢ ErrorKind.OutOfMemory → result ≡ Complaint.Usage }
{
    match error {
        ErrorKind::OutOfMemory => Complaint::OutOfMemory,
        _ => Complaint::Usage,
    }
}
