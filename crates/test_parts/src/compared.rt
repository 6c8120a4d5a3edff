// One comparison of a test, proved once: each test calls it.
use std::fmt::Debug;
use std::process::Abort;

// Ends the test where what was found is not what was wanted.
pub fn same<R: Abort, T: PartialEq + Debug + Drop>(rt: &R, found: T, want: T) {
    assert_eq!(rt; found, want);
}

// The same, and says for which case.
pub fn same_at<R: Abort, P: Debug + Drop, T: PartialEq + Debug + Drop>(
    rt: &R,
    case: P,
    found: T,
    want: T,
) {
    assert_eq!(rt; found, want, "{case:?}");
}
