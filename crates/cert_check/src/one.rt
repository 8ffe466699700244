//! The first test that fails is one.

ghost use Rattle.cert_check.specs.First.{FirstFailingIsOne};

use crate::tests::Tests;

/// Two answers to which test fails first are the same, whoever finds them and however the work is
/// divided. It does nothing.
pub fn first_failing_is_one<T: Tests>(_tests: &T)
    ensures { FirstFailingIsOne (T.passes _tests.now) (T.size _tests.now) }
{}
