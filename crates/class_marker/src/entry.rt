//! What the page has of a file.

/// What the page has of a setting.
#[derive(Drop)]
pub struct Shown {
    /// What differs from the lesson, a line each.
    pub differences: String,
    /// How much differs.
    pub differs: usize,
    /// How many marks there are, where the setting can be marked.
    pub marks: Option<usize>,
    /// Its picture, with the notes of its marks in red.
    pub picture: String,
    /// Its marks in words.
    pub explained: String,
}

/// What the page has of a file of a class.
#[derive(Drop)]
pub enum Entry {
    /// A setting.
    Setting(Shown),
    /// The faults of a text that is at fault, explained.
    Faulty(Vec<u8>),
    /// An exercise without a setting.
    Bare,
    /// The file can't be read.
    Unread,
}
