// Copies against what was copied, and makers of values that end the test where memory is wanting.
use sml_syntax::{Boxed, Listed, NoMemory, Text};
use std::alloc::Global;
use std::process::Abort;

/// What `try_copy` copies.
pub(crate) trait Copied: Sized + PartialEq + Drop {
    fn copied(&self, alloc: Global) -> Result<Self, NoMemory>;
}

/// Each copy equals the value at its own place, and no other.
pub(crate) fn are_copied<T: Copied>(rt: &(impl Abort + AllocGlobal), values: &[T]) {
    for (i, value) in values.iter().enumerate() {
        let copied = value.copied(rt.alloc()).expect(rt, "memory");
        for (j, other) in values.iter().enumerate() {
            assert!(rt; (copied == *other) == (i == j), "{i} and {j}");
        }
    }
}

pub(crate) fn text(rt: &(impl Abort + AllocGlobal), text: &str) -> Text {
    Text::from_bytes(rt.alloc(), text.as_bytes()).expect(rt, "memory")
}

pub(crate) fn boxed<T: Drop>(rt: &(impl Abort + AllocGlobal), value: T) -> Boxed<T> {
    Boxed::new(rt.alloc(), value).expect(rt, "memory")
}

pub(crate) fn list<T: Drop, const N: usize>(
    rt: &(impl Abort + AllocGlobal),
    items: [T; N],
) -> Listed<T> {
    Listed::of(Vec::from_array(rt.alloc(), items).expect(rt, "memory"))
}
