//! The parts of a case.

/// The lines of a case that the builder reads, and what is wanted of it.
pub fn parts(text: &str) -> Option<(&str, &str)> {
    let (_comment, text) = text.split_once('\n')?;
    text.split_once('=')
}

/// What is wanted of a case.
pub fn wanted(text: &str) -> &str {
    match text.split_once('=') {
        Some((_, wanted)) => wanted,
        None => "",
    }
}
