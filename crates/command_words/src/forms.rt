//! The words behind a command's first, as a simple command of `clap`.

ghost use Rattle.std.specs.Prelude.{◌≡◌, IfOk};
ghost use Rattle.clap.specs.Words.{app_of, with_rule};
ghost use Rattle.command_words.specs.Forms.{files_form, flag_word, form_of, needed_word, option_word, rule_of, with_parts, words_of};

use crate::verbs::{Kind, Part, Verb};
use clap::{Arg, ArgAction, Command};
use std::alloc::{AllocError, Global};

/// What `clap` takes behind the first word of a command.
pub fn form<'a>(alloc: Global, verb: Verb) -> Result<Command<'a>, AllocError>
    ensures { IfOk result (λ command. app_of command ≡ form_of verb) }
{
    let (word, parts) = verb.row();
    let word: &'a str = word;
    with_parts(alloc, bare(alloc, word), parts)
}

/// What `clap` takes between `class` and `--files`.
pub fn files_form<'a>(alloc: Global) -> Result<Command<'a>, AllocError>
    ensures { IfOk result (λ command. app_of command ≡ files_form) }
{
    let word: &'a str = "class";
    let parts = &[
        Part::Lesson,
        Part::KeepGoing,
        Part::Page,
        Part::Midi,
        Part::TopFirst,
        Part::Legato,
    ];
    with_parts(alloc, bare(alloc, word), parts)
}

/// A command with no parts yet, whose words have no program's name before them.
fn bare<'a>(alloc: Global, word: &'a str) -> Command<'a>
    ensures { app_of result ≡ words_of word.entry.now }
{
    Command::new(alloc, word).no_binary_name(true)
}

/// The command with these parts more, in this order.
fn with_parts<'a>(
    alloc: Global,
    command: Command<'a>,
    parts: &[Part],
) -> Result<Command<'a>, AllocError>
    ensures { IfOk result (λ longer. app_of longer ≡ with_parts (app_of command.entry) parts.now) }
{
    let mut longer = command;
    for part in parts {
        longer = with_part(alloc, longer, *part)?;
    }
    Ok(longer)
}

/// The command with one part more.
fn with_part<'a>(alloc: Global, command: Command<'a>, part: Part) -> Result<Command<'a>, AllocError>
    ensures { IfOk result (λ longer. app_of longer ≡ with_rule (app_of command.entry)
        (rule_of part)) }
{
    let name = part.name();
    match part.kind() {
        Kind::Word => with_word(alloc, command, name),
        Kind::Option => with_option(alloc, command, name, false),
        Kind::Needed => with_option(alloc, command, name, true),
        Kind::Flag => with_flag(alloc, command, name),
    }
}

/// The command with one word more that must be there.
fn with_word<'a>(
    alloc: Global,
    command: Command<'a>,
    word: &'a str,
) -> Result<Command<'a>, AllocError>
    ensures { IfOk result (λ longer. app_of longer ≡ with_rule (app_of command.entry)
        (needed_word word.entry.now)) }
{
    let needed = Arg::new(alloc, word).required(true);
    command.arg(needed)
}

/// The command with an option more.
fn with_option<'a>(
    alloc: Global,
    command: Command<'a>,
    name: &'a str,
    needed: bool,
) -> Result<Command<'a>, AllocError>
    ensures { IfOk result (λ longer. app_of longer ≡ with_rule (app_of command.entry)
        (option_word needed name.entry.now)) }
{
    let option = Arg::new(alloc, name).long(name).required(needed);
    command.arg(option)
}

/// The command with a flag more, which takes no value.
fn with_flag<'a>(
    alloc: Global,
    command: Command<'a>,
    name: &'a str,
) -> Result<Command<'a>, AllocError>
    ensures { IfOk result (λ longer. app_of longer ≡ with_rule (app_of command.entry)
        (flag_word name.entry.now)) }
{
    let flag = Arg::new(alloc, name).long(name).action(ArgAction::SetTrue);
    command.arg(flag)
}
