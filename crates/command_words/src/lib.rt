//! The words on the command line, and the work that they ask for.
#![tactic(auto)]

mod command;
mod forms;
mod values;
mod verbs;

pub use command::{
    Command, FileKind, Job, Making, MixedJob, Named, Search, Subject, Wanted, parse,
};
