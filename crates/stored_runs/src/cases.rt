//! Cases of whole runs over any files. A case is
//!
//! ```text
//! case NUMBER KIND
//! words "compose" "E"
//! file "E" "fux 1\nmode .."
//! status 0
//! out ".."
//! err ".."
//! ```
//!
//! with a line for each file. Texts have the escapes of byte strings: `\n`, `\t`, `\r`, `\\`, `\"`
//! and `\xNN`. Further lines, each of which goes by those before it:
//!
//! - `words` again: a run more, over the same files and streams. The status is that of the last.
//! - `piece N`: a read gives no more than N bytes. `read N`: the read of this number fails.
//! - `write N`: standard output takes 16 bytes at a time, and the write of this number fails.
//!   `complain N` says the same of standard error.
//! - `zeros N`: under any name there are so many zeros. `given N`: so many bytes are read.
//! - `made "certify" "E"`: a copy of what a run of these words writes. `line N ".."` puts a text in
//!   place of a line of the copy, and `more N ".."` one behind it, so many times. `keep "C"` makes a
//!   file of it, and a copy again.
//! - `lines A B`: of what is written only the lines from the one number to the other are told.
//!
//! A case of one run of `compose` with status 0 or 1, and without `--nth`, is one of `best` too, and
//! one of `mixed` without `--best` is one with it, by which the same is to come of it.

use crate::escapes::{decoded, decoded_text, number, numbered, quoted, words_in};
use crate::shelf::{CaseShelf, Files};
use fux_pitch::Memory;
use fux_port::MemSink;
use fux_run::run;
use std::alloc::Global;
use std::mem;
use std::thread::Threads;

/// What a case gives, and what is to come of it.
#[derive(Drop)]
pub struct Case {
    title: String,
    /// The words of each run.
    runs: Vec<Vec<String>>,
    files: Files,
    /// What a run wrote, and the copy of it that is changed.
    made: Vec<u8>,
    copy: Vec<u8>,
    /// The write that fails, and that to standard error; 0 where none does.
    failing_write: u64,
    failing_complaint: u64,
    status: u8,
    output: Vec<u8>,
    /// The first and the last line of what is written that are told.
    lines: (u64, u64),
    complaint: Vec<u8>,
    /// How many bytes are read, where that is said.
    given: Option<u64>,
}

/// Whether these words begin with one.
fn begin_with(words: &[String], first: &str) -> bool {
    match words.first() {
        Some(word) => word.as_str() == first,
        None => false,
    }
}

/// The words of `compose` for `best`, or those of `mixed` for `mixed --best`, without a budget.
fn words_of_best(alloc: Global, words: &[String]) -> Result<Vec<String>, Memory> {
    let mut best = Vec::new(alloc);
    let mut is_budget = false;
    for word in words {
        let word = word.as_str();
        if word == "compose" {
            best.push(String::from_str(alloc, "best")?)?;
        } else if !is_budget && word != "--budget" && !word.starts_with("--budget=") {
            best.push(String::from_str(alloc, word)?)?;
        }
        is_budget = word == "--budget";
    }
    if begin_with(words, "mixed") {
        best.push(String::from_str(alloc, "--best")?)?;
    }
    Ok(best)
}

/// Whether these words have one that `compose` and `mixed` by themselves haven't.
fn ask_more(words: &[String]) -> bool {
    for word in words {
        if word.as_str() == "--nth" || word.as_str() == "--best" {
            return true;
        }
    }
    false
}

/// A text with another one in place of the line of this number, its line feed among it. Lines count
/// from 1, and another one than the first is meant.
fn with_line(alloc: Global, text: &[u8], number: u64, line: &[u8]) -> Result<Vec<u8>, Memory> {
    let mut copy = Vec::new(alloc);
    let mut at = 1u64;
    for byte in text {
        if at != number {
            copy.push(*byte)?;
        }
        if *byte == b'\n' {
            at = at.saturating_add(1);
            if at == number {
                copy.extend_from_slice(line)?;
            }
        }
    }
    Ok(copy)
}

/// The lines of a text from one number to another.
fn lines_of(alloc: Global, text: &[u8], lines: (u64, u64)) -> Result<Vec<u8>, Memory> {
    let mut copy = Vec::new(alloc);
    let mut at = 1u64;
    for byte in text {
        if lines.0 <= at && at <= lines.1 {
            copy.push(*byte)?;
        }
        if *byte == b'\n' {
            at = at.saturating_add(1);
        }
    }
    Ok(copy)
}

/// The two numbers behind a line's first word.
fn two_numbers(line: &str, name: &str) -> Option<(u64, u64)> {
    let (front, last) = line.rsplit_once(' ')?;
    Some((number(front, name)?, last.parse().unwrap_or(0)))
}

/// A stream whose write of this number fails: of 16 bytes at a time, where there is one.
fn stream(alloc: Global, failing: u64) -> Result<MemSink, Memory> {
    if failing == 0 {
        MemSink::new(alloc, 1_000_000, 1_000_000, &[])
    } else {
        MemSink::new(alloc, 1_000_000, 16, &[failing])
    }
}

/// The status of the last of these runs.
fn status_of<R: Threads + Sync>(
    rt: &R,
    alloc: Global,
    runs: &[Vec<String>],
    shelf: &mut CaseShelf,
    out: &mut MemSink,
    err: &mut MemSink,
) -> u8 {
    let mut status = 0;
    for words in runs {
        status = run(rt, alloc, words, shelf, out, err);
    }
    status
}

impl Case {
    /// A case that nothing is said of.
    pub fn new(alloc: Global) -> Result<Case, Memory> {
        Ok(Case {
            title: String::new(alloc),
            runs: Vec::new(alloc),
            files: Files::new(alloc),
            made: Vec::new(alloc),
            copy: Vec::new(alloc),
            failing_write: 0,
            failing_complaint: 0,
            status: 0,
            output: Vec::new(alloc),
            lines: (1, u64::MAX),
            complaint: Vec::new(alloc),
            given: None,
        })
    }

    /// Its first line; empty where it has none yet.
    pub fn title(&self) -> &str {
        self.title.as_str()
    }

    /// Takes a line of the case.
    pub fn take<R: Threads + Sync>(
        &mut self,
        rt: &R,
        alloc: Global,
        line: &str,
    ) -> Result<(), Memory> {
        if line.starts_with("case ") {
            self.title = String::from_str(alloc, line)?;
        } else if line.starts_with("words ") {
            self.runs.push(words_in(alloc, line)?)?;
        } else if line.starts_with("made ") {
            self.make(rt, alloc, words_in(alloc, line)?)?;
        } else if let Some(file) = quoted(line, "file") {
            if let Some((name, text)) = file.split_once("\" \"") {
                let name = decoded_text(alloc, name)?;
                self.files.put(name, decoded(alloc, text)?)?;
            }
        } else {
            self.take_text(alloc, line)?;
            self.take_number(line);
        }
        Ok(())
    }

    /// Keeps what a run of these words writes.
    fn make<R: Threads + Sync>(
        &mut self,
        rt: &R,
        alloc: Global,
        words: Vec<String>,
    ) -> Result<(), Memory> {
        let mut shelf = self.files.shelf(alloc)?;
        let mut out = stream(alloc, 0)?;
        let mut err = stream(alloc, 0)?;
        let runs = vec![in alloc; words]?;
        status_of(rt, alloc, &runs, &mut shelf, &mut out, &mut err);
        self.made = Vec::from_slice(alloc, out.bytes())?;
        self.copy = Vec::from_slice(alloc, out.bytes())?;
        Ok(())
    }

    /// Takes a line with a text, of what is to come of the case or of what was made.
    fn take_text(&mut self, alloc: Global, line: &str) -> Result<(), Memory> {
        if let Some(text) = quoted(line, "out") {
            self.output = decoded(alloc, text)?;
        } else if let Some(text) = quoted(line, "err") {
            self.complaint = decoded(alloc, text)?;
        } else if let Some((number, text)) = numbered(line, "line") {
            let text = decoded(alloc, text)?;
            self.copy = with_line(alloc, &self.copy, number, &text)?;
        } else if let Some((number, text)) = numbered(line, "more") {
            let text = decoded(alloc, text)?;
            for _ in 0..number {
                self.copy.extend_from_slice(&text)?;
            }
        } else if let Some(name) = quoted(line, "keep") {
            let again = Vec::from_slice(alloc, &self.made)?;
            let bytes = mem::replace(&mut self.copy, again);
            self.files.put(decoded_text(alloc, name)?, bytes)?;
        }
        Ok(())
    }

    /// Takes a line with a number alone.
    fn take_number(&mut self, line: &str) {
        if let Some(number) = number(line, "status") {
            self.status = u8::try_from(number).unwrap_or(255);
        } else if let Some(number) = number(line, "piece") {
            self.files.piece = usize::try_from(number).unwrap_or(0);
        } else if let Some(number) = number(line, "read") {
            self.files.failing = number;
        } else if let Some(number) = number(line, "write") {
            self.failing_write = number;
        } else if let Some(number) = number(line, "complain") {
            self.failing_complaint = number;
        } else if let Some(number) = number(line, "zeros") {
            self.files.zeros = Some(number);
        } else if let Some(number) = number(line, "given") {
            self.given = Some(number);
        } else if let Some(lines) = two_numbers(line, "lines") {
            self.lines = lines;
        }
    }

    /// Makes a case of `best` of one of `compose` with status 0 or 1 and without a number, or of
    /// `mixed --best` of one of `mixed`, with the usual budget, and tells whether it has become one.
    pub fn begin_best(&mut self, alloc: Global) -> Result<bool, Memory> {
        let [words] = self.runs.as_slice() else {
            return Ok(false);
        };
        let is_composed = begin_with(words, "compose") || begin_with(words, "mixed");
        if !is_composed || self.status > 1 || ask_more(words) {
            return Ok(false);
        }
        let best = words_of_best(alloc, words)?;
        self.runs = vec![in alloc; best]?;
        Ok(true)
    }

    /// Runs the case, and tells whether that comes of it which is to come.
    pub fn agrees<R: Threads + Sync>(&self, rt: &R, alloc: Global) -> Result<bool, Memory> {
        let mut shelf = self.files.shelf(alloc)?;
        let mut out = stream(alloc, self.failing_write)?;
        let mut err = stream(alloc, self.failing_complaint)?;
        let status = status_of(rt, alloc, &self.runs, &mut shelf, &mut out, &mut err);
        let output = lines_of(alloc, out.bytes(), self.lines)?;
        let is_given = match self.given {
            Some(given) => shelf.given() == given,
            None => true,
        };
        Ok(
            is_given
                && status == self.status
                && output.as_slice() == self.output.as_slice()
                && err.bytes() == self.complaint.as_slice(),
        )
    }
}
