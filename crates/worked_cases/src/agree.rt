//! What ends a test. An assertion costs more to prove than most of what it stands behind, and one
//! with a message much more, so that these two stand once. What costs most in the proof of a test is
//! a long function in which something large is alive, as an exercise is, and each assertion and each
//! closure: so one function makes it, another works on a reference to it, and none is handed on.

use std::process::Abort;

/// Ends the test where something else was found of a case than is wanted, or where it can't be
/// read.
pub fn agree(rt: &impl Abort, case: &str, found: Option<&str>, wanted: &str) {
    let found = found.unwrap_or("what can be read");
    assert!(rt; found == wanted, "{case}, not {found}");
}

/// Ends the test where what is asked of a case doesn't hold.
pub fn holds(rt: &impl Abort, case: &str, is_held: bool) {
    assert!(rt; is_held, "{case}");
}
