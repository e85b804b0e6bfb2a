//! What the tests compare. Each test calls these functions, since the prover takes a tenth of the time for a call that
//! it takes for an assertion in place.
use std::fmt::{Debug, Display};
use std::process::Abort;
use std::test::Fail;

/// Both are equal.
pub fn same<T: Debug + PartialEq + Copy>(rt: &impl Abort, found: T, wanted: T) {
    assert_eq!(rt; found, wanted);
}

/// Fails unless `is` holds.
pub fn holds(rt: &impl Abort, is: bool) {
    assert!(rt; is);
}

/// The value prints this line.
pub fn prints<R: Abort + AllocGlobal, T: Display>(
    rt: &R,
    value: &T,
    line: &str,
) -> Result<(), Fail> {
    let printed = format!(in rt.alloc(); "{value}")?;
    same(rt, printed.as_str(), line);
    Ok(())
}
