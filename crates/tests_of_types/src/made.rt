//! What tests make of what may want memory: a test ends where it could not be made.

ghost use Rattle.std.specs.Prelude.{◌≡◌, ◌++◌, ◌∷◌, [], Ok};

use std::alloc::Global;
use std::fmt::Debug;
use std::process::Abort;
use std::test::Fail;
use zone_graph::{Duplicate, Sequence, Word};

// What was made.
pub(crate) fn made<T>(rt: &impl Abort, what: Result<T, Fail>) -> T
    ensures { what ≡ Ok result }
{
    match what {
        Ok(value) => value,
        Err(_) => rt.panic("it was not made"),
    }
}

// Puts an item at the end of a list.
pub(crate) fn put<T: Drop>(rt: &impl Abort, list: &mut Sequence<T>, item: T)
    ensures { list.new ≡ list.old ++ item ∷ [] }
{
    list.push(item).expect(rt, "memory");
}

// The word of these bytes.
pub(crate) fn word(rt: &impl Abort, alloc: Global, bytes: &[u8]) -> Word {
    Word::new(alloc, bytes).expect(rt, "memory")
}

// What was found in a case is what was wanted.
pub(crate) fn expect<C: Debug, T: PartialEq + Debug + Drop>(
    rt: &impl Abort,
    case: &C,
    found: T,
    wanted: T,
) {
    assert_eq!(rt; found, wanted, "{case:?}");
}

// A value equals its copy.
pub(crate) fn expect_copied<T: Duplicate + PartialEq + Debug>(rt: &impl Abort, value: &T) {
    let copy = value.copy().expect(rt, "memory");
    assert_eq!(rt; &copy, value);
}

// A list equals its copy, item by item.
pub(crate) fn expect_all_copied<T: Duplicate + PartialEq + Debug>(
    rt: &impl Abort,
    list: &Sequence<T>,
) {
    let copy = list.copy().expect(rt, "memory");
    assert_eq!(rt; copy.len(), list.len());
    for (copied, item) in copy.as_slice().iter().zip(list.as_slice()) {
        assert_eq!(rt; copied, item);
    }
}
