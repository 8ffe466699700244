//! Runs the cases that standard input has, with an empty line behind each, and tells how many were
//! run, how many of them by `best` too, and which of them come out otherwise than they say.
#![tactic(auto)]

mod cases;
mod escapes;
mod shelf;

use cases::Case;
use fux_pitch::Memory;
use std::io;
use std::io::ErrorKind;

fn main(rt: HostRuntime) -> io::Result<()> {
    let mut count = 0u32;
    let mut by_best = 0u32;
    let mut case = known(Case::new(rt.alloc()))?;
    for line in rt.lines(rt.alloc()) {
        let line = line?;
        if line.is_empty() {
            let agrees = known(case.agrees(&rt, rt.alloc()))?;
            if !agrees {
                println!(rt; "otherwise: {}", case.title())?;
            }
            if known(case.begin_best(rt.alloc()))? {
                by_best = by_best.saturating_add(1);
                if !known(case.agrees(&rt, rt.alloc()))? {
                    println!(rt; "otherwise by best: {}", case.title())?;
                }
            }
            count = count.saturating_add(1);
            case = known(Case::new(rt.alloc()))?;
        } else {
            known(case.take(&rt, rt.alloc(), line.as_str()))?;
        }
    }
    println!(rt; "cases {count}, by best too {by_best}")
}

/// What came of work that may want for memory.
fn known<T>(answer: Result<T, Memory>) -> io::Result<T> {
    match answer {
        Ok(value) => Ok(value),
        Err(Memory) => Err(io::Error::from(ErrorKind::OutOfMemory)),
    }
}
