//! The words of a case.

/// The word of this place in a case, the first of which has place 0.
pub fn word(case: &str, place: usize) -> Option<&str> {
    case.split(' ').nth(place)
}

/// The number that stands as this word in a case, the first of which has place 0.
pub fn number(case: &str, place: usize) -> Option<u8> {
    word(case, place)?.parse::<u8>().ok()
}
