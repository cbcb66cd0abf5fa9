// A comparison that tells what was found and what is wanted, by a function: a test that calls it is proved in less time than one
// that asserts.
use std::fmt::Debug;
use std::test::Fail;

/// What is found is what is wanted.
pub fn is<T: PartialEq + Debug + Drop>(what: &str, found: T, wanted: T) -> Result<(), Fail> {
    if found != wanted {
        return Err(Fail::new(format_args!("{what}: {found:?}, not {wanted:?}")));
    }
    Ok(())
}
