//! The lines of a text.

ghost use Rattle.std.specs.Prelude.{◌≡◌, ◌<◌, ◌≤◌, ◌+◌, ◌∷◌, ◌==◌, List, IfSome, length, option_map};
ghost use Rattle.std.specs.List.{list_all, position};
ghost use Rattle.std.specs.Str.Lines.{lines, strip_carriage_return};
ghost use Rattle.text_lines.specs.Faults.{Gives, told};
ghost use Rattle.text_lines.specs.Lines.{first_line, is_comment, is_skipped, lines_in, lines_of};
ghost use Rattle.text_lines.specs.Reading.{begins, fault_here, headed, no_line};
ghost use Rattle.text_lines.specs.Words.{is_blank, words_of};

use crate::fault::TextFault;
use crate::places::{Lines, Words};
use crate::words::{is_blank, is_same};

/// Whether a line begins with `;`.
fn is_comment(line: &[u8]) -> bool
    ensures { result ≡ is_comment line.now }
{
    match line {
        [first, ..] => *first == b';',
        [] => false,
    }
}

/// Whether a line has no words.
fn all_blank(line: &[u8]) -> bool
    ensures { result ≡ list_all is_blank line.now }
{
    line.iter().all(|byte| is_blank(*byte))
}

/// Whether a line has no words or is a comment.
fn is_skipped(line: &[u8]) -> bool
    ensures { result ≡ is_skipped line.now }
{
    is_comment(line) || all_blank(line)
}

/// The place of the first line feed.
fn feed_in(text: &[u8]) -> Option<usize>
    ensures first { result ≡ position (λ b. b == 10) text.now }
    ensures within { IfSome result (λ place. place < length text.now) }
{
    text.iter().position(|byte| *byte == b'\n')
}

/// The first line of a text that isn't empty, and what stands behind its line feed.
fn split_line(text: &[u8]) -> (&[u8], &[u8])
    requires { 0 < length text.now }
    ensures lines { lines text.now ≡ result.0.now ∷ lines result.1.now }
    ensures shorter { length result.1.now < length text.now }
    ensures within { length result.0.now ≤ length text.now }
{
    match feed_in(text) {
        None => (text, &[]),
        Some(end) => (without_return(&text[..end]), &text[end + 1..]),
    }
}

/// A line without the one carriage return at its end, if it has one.
fn without_return(line: &[u8]) -> &[u8]
    ensures value { result.now ≡ strip_carriage_return line.now }
    ensures within { length result.now ≤ length line.now }
{
    match line {
        [front @ .., b'\r'] => front,
        _ => line,
    }
}

/// How many lines a text has.
fn count_lines(text: &[u8]) -> u32
    requires { length text.now ≤ 65536 }
    ensures value { result ≡ length (lines text.now) }
    ensures few { result ≤ 65536 }
{
    let mut count = 0;
    let mut rest = text;
    while !rest.is_empty() {
        let (_, behind) = split_line(rest);
        rest = behind;
        count += 1;
    }
    count
}

impl<'a> Lines<'a> {
    /// The lines of a text.
    pub(crate) fn new(text: &'a [u8]) -> Lines<'a>
        requires { length text.now ≤ 65536 }
        ensures { lines_of result ≡ lines_in text.now }
    {
        Lines {
            after: 1 + count_lines(text),
            number: 1,
            rest: text,
        }
    }

    /// The next line that has words and is no comment, and those behind it.
    pub fn first(self) -> Option<(Words<'a>, Lines<'a>)>
        ensures { option_map (λ x. (words_of x.0, lines_of x.1)) result
            ≡ first_line (lines_of self.entry) }
    {
        let mut number = self.number;
        let mut rest = self.rest;
        while !rest.is_empty() {
            let (line, behind) = split_line(rest);
            if !is_skipped(line) {
                let words = Words {
                    line: number,
                    column: 1,
                    rest: line,
                };
                let lines = Lines {
                    after: self.after,
                    number: number + 1,
                    rest: behind,
                };
                return Some((words, lines));
            }
            number += 1;
            rest = behind;
        }
        None
    }

    /// The fault of this kind at the first word of the next line, or where the text ends.
    #[tactic(auto, unfolding(crate::specs::Reading::fault_here))]
    pub fn fault<K: Copy>(self, kind: K) -> TextFault<K>
        ensures { result ≡ told (fault_here kind (lines_of self.entry)) }
    {
        let Some((words, _)) = self.first() else {
            return TextFault::At {
                kind,
                line: self.after,
                column: 1,
            };
        };
        match words.first() {
            Some((word, _)) => word.fault(kind),
            None => words.fault_past(kind),
        }
    }

    /// Whether the next line begins with this word.
    #[tactic(auto, unfolding(crate::specs::Reading::begins))]
    pub fn begins(self, name: &[u8]) -> bool
        ensures { result ≡ begins name.now (lines_of self.entry) }
    {
        let Some((words, _)) = self.first() else {
            return false;
        };
        match words.first() {
            Some((word, _)) => is_same(word.text, name),
            None => false,
        }
    }

    /// What is left of the next line behind its first word, which has to be this one: the fault is
    /// of the first kind where no line is left, and of the second where another line stands.
    #[tactic(auto, unfolding(crate::specs::Reading::headed))]
    pub fn headed<K: Copy>(
        self,
        missing: K,
        other: K,
        name: &[u8],
    ) -> Result<(Words<'a>, Lines<'a>), TextFault<K>>
        ensures { Gives (λ x. (words_of x.0, lines_of x.1)) result (headed missing other name.now
            (lines_of self.entry)) }
    {
        match self.first() {
            None => Err(TextFault::At {
                kind: missing,
                line: self.after,
                column: 1,
            }),
            Some((line, lines)) => {
                let words = line.literal(other, name)?;
                Ok((words, lines))
            }
        }
    }

    /// Whether no line is left; a fault is of this kind.
    #[tactic(auto, unfolding(crate::specs::Reading::no_line))]
    pub fn done<K: Copy>(self, kind: K) -> Result<(), TextFault<K>>
        ensures { Gives (λ x. x) result (no_line kind (lines_of self.entry)) }
    {
        match self.first() {
            None => Ok(()),
            Some(_) => Err(self.fault(kind)),
        }
    }
}
