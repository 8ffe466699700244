//! The words of a text, each with the space or the line feed that ends it.

ghost use Rattle.std.specs.Prelude.{◌≡◌, ◌<◌, ◌≤◌, ◌+◌, ◌∷◌, ◌==◌, IfSome, drop, length, option_map, take};
ghost use Rattle.std.specs.List.{position};
ghost use Rattle.text_lines.specs.Reading.{done, literal, next};
ghost use Rattle.text_lines.specs.Words.{first_word};
ghost use Rattle.whole_lines.specs.Ended.{ended, is_end, whole_text, without};
ghost use Rattle.whole_lines.specs.Texts.{Reads, fault_of_word, word_of, words_of};

use crate::places::{Fault, Word, Words};
use text_lines::is_same;

/// Whether a byte ends words: it is a space or a line feed.
fn is_end(byte: u8) -> bool
    ensures { result ≡ is_end byte }
{
    byte == b' ' || byte == b'\n'
}

/// The place of the first byte that ends a word.
fn end_in(text: &[u8]) -> Option<usize>
    ensures first { result ≡ position is_end text.now }
    ensures within { IfSome result (λ place. place < length text.now) }
{
    text.iter().position(|byte| is_end(*byte))
}

/// The length of the word at the front, with the byte that ends it.
fn word_len(text: &[u8]) -> usize
    requires { 0 < length text.now }
    ensures cut { ended is_end text.now ≡ take result text.now
        ∷ ended is_end (drop result text.now) }
    ensures within { result ≤ length text.now }
{
    match end_in(text) {
        Some(end) => end + 1,
        None => text.len(),
    }
}

/// A word without the byte that ends it, which has to be this one.
pub fn without_end(word: &[u8], end: u8) -> Option<&[u8]>
    ensures { option_map (λ front. front.now) result ≡ without end word.entry.now }
{
    match word {
        [front @ .., last] if *last == end => Some(front),
        _ => None,
    }
}

impl<'a> Word<'a> {
    /// The fault of this kind at the word.
    pub fn fault<K: Copy>(self, kind: K) -> Fault<K>
        ensures { result ≡ fault_of_word kind self.entry }
    {
        Fault {
            kind,
            column: self.column,
        }
    }
}

impl<'a> Words<'a> {
    /// The words of a text.
    pub fn new(text: &'a [u8]) -> Words<'a>
        requires { length text.now ≤ 65536 }
        ensures { words_of result ≡ whole_text is_end text.now }
    {
        Words {
            column: 1,
            rest: text,
        }
    }

    /// The next word and what is left behind it, if there is one.
    pub fn first(self) -> Option<(Word<'a>, Words<'a>)>
        ensures { option_map (λ x. (word_of x.0, words_of x.1)) result
            ≡ first_word (words_of self.entry) }
    {
        if self.rest.is_empty() {
            return None;
        }
        let (text, rest) = self.rest.split_at(word_len(self.rest));
        let word = Word {
            column: self.column,
            text,
        };
        let words = Words {
            column: self.column + text.len() as u32,
            rest,
        };
        Some((word, words))
    }

    /// The next word, which has to be there.
    #[tactic(auto, unfolding(text_lines::specs::Reading::next))]
    pub fn next<K: Copy>(self, kind: K) -> Result<(Word<'a>, Words<'a>), Fault<K>>
        ensures { Reads (λ x. (word_of x.0, words_of x.1)) result
            (next kind (words_of self.entry)) }
    {
        match self.first() {
            Some(found) => Ok(found),
            None => Err(Fault {
                kind,
                column: self.column,
            }),
        }
    }

    /// What is left behind the next word, which has to be this one.
    #[tactic(auto, unfolding(text_lines::specs::Reading::literal))]
    pub fn literal<K: Copy>(self, kind: K, text: &[u8]) -> Result<Words<'a>, Fault<K>>
        ensures { Reads words_of result (literal kind text.now (words_of self.entry)) }
    {
        let (word, words) = self.next(kind)?;
        if !is_same(word.text, text) {
            return Err(word.fault(kind));
        }
        Ok(words)
    }

    /// Whether no word is left.
    #[tactic(auto, unfolding(text_lines::specs::Reading::done))]
    pub fn done<K: Copy>(self, kind: K) -> Result<(), Fault<K>>
        ensures { Reads (λ x. x) result (done kind (words_of self.entry)) }
    {
        match self.first() {
            Some((word, _)) => Err(word.fault(kind)),
            None => Ok(()),
        }
    }
}
