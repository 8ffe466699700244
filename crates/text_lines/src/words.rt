//! The words of a line.

ghost use Rattle.std.specs.Prelude.{◌≡◌, ◌<◌, ◌≤◌, ◌+◌, ◌==◌, IfOk, IfSome, length, not, option_map};
ghost use Rattle.std.specs.List.{position, position_or_len};
ghost use Rattle.text_lines.specs.Faults.{Gives, told};
ghost use Rattle.text_lines.specs.Reading.{done, fault_at, fault_beyond, fault_past, literal, next, number_in, same_text};
ghost use Rattle.text_lines.specs.Words.{first_word, is_blank, word_of, words_from, words_of};

use crate::fault::TextFault;
use crate::numbers::parse_within;
use crate::places::{Word, Words};

/// Whether a byte is a space or a tab.
pub(crate) fn is_blank(byte: u8) -> bool
    ensures { result ≡ is_blank byte }
{
    byte == b' ' || byte == b'\t'
}

/// The place of the first byte of a word.
fn word_start(text: &[u8]) -> Option<usize>
    ensures first { result ≡ position (λ b. not (is_blank b)) text.now }
    ensures within { IfSome result (λ place. place < length text.now) }
{
    text.iter().position(|byte| !is_blank(*byte))
}

/// The place of the first space or tab.
fn blank_in(text: &[u8]) -> Option<usize>
    ensures first { result ≡ position is_blank text.now }
    ensures within { IfSome result (λ place. place < length text.now) }
{
    text.iter().position(|byte| is_blank(*byte))
}

/// The length of the word at the front.
fn word_end(text: &[u8]) -> usize
    ensures value { result ≡ position_or_len is_blank text.now }
    ensures within { result ≤ length text.now }
{
    blank_in(text).unwrap_or(text.len())
}

/// Whether two texts are one.
pub fn is_same(text: &[u8], other: &[u8]) -> bool
    ensures { result ≡ same_text text.now other.now }
{
    text == other
}

impl<'a> Word<'a> {
    /// The fault of this kind at the word.
    pub fn fault<K: Copy>(self, kind: K) -> TextFault<K>
        ensures { result ≡ told (fault_at kind (word_of self.entry)) }
    {
        TextFault::At {
            kind,
            line: self.line,
            column: self.column,
        }
    }
}

impl<'a> Words<'a> {
    /// The next word and what is left behind it, if there is one.
    pub fn first(self) -> Option<(Word<'a>, Words<'a>)>
        ensures { option_map (λ x. (word_of x.0, words_of x.1)) result
            ≡ first_word (words_of self.entry) }
    {
        let start = word_start(self.rest)?;
        let (_, tail) = self.rest.split_at(start);
        let end = word_end(tail);
        let (text, rest) = tail.split_at(end);
        let column = self.column + start as u32;
        let word = Word {
            line: self.line,
            column,
            text,
        };
        let words = Words {
            line: self.line,
            column: column + end as u32,
            rest,
        };
        Some((word, words))
    }

    /// The fault of this kind where the next word is missing.
    pub fn fault_past<K: Copy>(self, kind: K) -> TextFault<K>
        ensures { result ≡ told (fault_past kind (words_of self.entry)) }
    {
        TextFault::At {
            kind,
            line: self.line,
            column: self.column,
        }
    }

    /// The fault of this kind at the line's end.
    pub fn fault_beyond<K: Copy>(self, kind: K) -> TextFault<K>
        ensures { result ≡ told (fault_beyond kind (words_of self.entry)) }
    {
        TextFault::At {
            kind,
            line: self.line,
            column: self.column + self.rest.len() as u32,
        }
    }

    /// The next word, which has to be there.
    #[tactic(auto, unfolding(crate::specs::Reading::next))]
    pub fn next<K: Copy>(self, kind: K) -> Result<(Word<'a>, Words<'a>), TextFault<K>>
        ensures { Gives (λ x. (word_of x.0, words_of x.1)) result
            (next kind (words_of self.entry)) }
    {
        match self.first() {
            Some(found) => Ok(found),
            None => Err(self.fault_past(kind)),
        }
    }

    /// Whether no word is left.
    #[tactic(auto, unfolding(crate::specs::Reading::done))]
    pub fn done<K: Copy>(self, kind: K) -> Result<(), TextFault<K>>
        ensures { Gives (λ x. x) result (done kind (words_of self.entry)) }
    {
        match self.first() {
            Some((word, _)) => Err(word.fault(kind)),
            None => Ok(()),
        }
    }

    /// What is left behind the next word, which has to be this one.
    #[tactic(auto, unfolding(crate::specs::Reading::literal))]
    pub fn literal<K: Copy>(self, kind: K, text: &[u8]) -> Result<Words<'a>, TextFault<K>>
        ensures { Gives words_of result (literal kind text.now (words_of self.entry)) }
    {
        let (word, words) = self.next(kind)?;
        if !is_same(word.text, text) {
            return Err(word.fault(kind));
        }
        Ok(words)
    }

    /// The next word as a number from `least` to `most`.
    #[tactic(auto, unfolding(crate::specs::Reading::number_in))]
    pub fn number<K: Copy>(
        self,
        kind: K,
        least: u16,
        most: u16,
    ) -> Result<(u16, Words<'a>), TextFault<K>>
        ensures value { Gives (λ x. (x.0, words_of x.1)) result
            (number_in kind least most (words_of self.entry)) }
        ensures least { IfOk result (λ x. least ≤ x.0) }
        ensures most { IfOk result (λ x. x.0 ≤ most) }
    {
        let (word, words) = self.next(kind)?;
        match parse_within(word.text, least, most) {
            Some(number) => Ok((number, words)),
            None => Err(word.fault(kind)),
        }
    }

    /// The next word as a number from `least` to `most`.
    pub fn small_number<K: Copy>(
        self,
        kind: K,
        least: u8,
        most: u8,
    ) -> Result<(u8, Words<'a>), TextFault<K>>
        ensures value { Gives (λ x. (x.0, words_of x.1)) result
            (number_in kind least most (words_of self.entry)) }
        ensures least { IfOk result (λ x. least ≤ x.0) }
        ensures most { IfOk result (λ x. x.0 ≤ most) }
    {
        let (number, words) = self.number(kind, least.into(), most.into())?;
        Ok((number as u8, words))
    }
}
