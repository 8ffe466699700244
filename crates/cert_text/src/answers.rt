//! What is answered about a certificate.

use fux_grid::Score;

/// What a certificate's head says.
#[derive(Drop)]
pub enum CertHead {
    /// No lawful setting has a lesser penalty than this one.
    Best { penalty: u64, score: Score },
    /// No setting is lawful.
    Nothing,
}

/// What a certificate states beside its claims.
#[derive(Clone, Copy, Debug, PartialEq, Eq)]
pub enum Form {
    /// Nothing: its checker fills the tables of least sums itself.
    First,
    /// A number for each column of the menus, which its checker compares.
    Second,
    /// Lists of prices, by which its checker works numbers.
    Third,
}

/// What is wrong with the text of a certificate, at a byte counted from 0.
#[derive(Clone, Copy, Debug, PartialEq, Eq)]
pub enum CertFault {
    /// The first byte by which no head goes on, or the end of a text that ends within a head.
    CertHead { at: u64 },
    /// The first byte of a line that begins no claim's line.
    CertWord { at: u64 },
    /// The first byte of a claim's line that isn't ended.
    CertEnd { at: u64 },
    /// There was not enough memory.
    Memory,
}

/// Why a certificate is not written.
#[derive(Clone, Copy, Debug, PartialEq, Eq)]
pub enum CertWrite {
    /// It could not be written whole.
    WriteFault,
    /// It would have more than 1,073,741,824 bytes.
    TooLong,
    /// There was not enough memory.
    Memory,
}

/// A claim that is refused, counted from 1, or the head as claim 0; or a number that is stated,
/// counted from 1, the start's first, or a price, counted from 1 over all lists.
#[derive(Clone, Copy, Debug, PartialEq, Eq)]
pub struct Refused {
    pub number: u64,
    pub why: Why,
}

/// Why a claim, a head, or a number or a price that is stated is refused.
#[derive(Clone, Copy, Debug, PartialEq, Eq)]
pub enum Why {
    /// The head's setting isn't lawful, or has another penalty.
    Head,
    /// The claim is false of its prefix.
    False,
    /// No claim is owed.
    Over,
    /// A claim is owed and there is none.
    Short,
    /// A stated number isn't true of its column, or of the start.
    Potential,
    /// A price is above what strikes cost.
    Price,
}

/// What a certificate that is accepted shows.
#[derive(Clone, Copy, Debug, PartialEq, Eq)]
pub enum Accepted {
    /// The head's setting is the best one, with this penalty.
    Best(u64),
    /// No setting is lawful.
    Nothing,
}
