// Copies of requests and values, and the calls on texts, lists and boxes.
use crate::copied::{boxed, list, text};
use crate::requests::{are_replies_copied, are_requests_copied};
use crate::values::{are_closures_copied, are_values_copied};
use sml_syntax::Text;
use std::process::Abort;

#[test]
fn copies_requests_and_values(rt: HostRuntime) {
    hold_texts(&rt);
    hold_lists(&rt);
    are_requests_copied(&rt);
    are_replies_copied(&rt);
    are_closures_copied(&rt);
    are_values_copied(&rt);
}

fn hold_texts(rt: &(impl Abort + AllocGlobal)) {
    let abc = text(rt, "abc");
    assert_eq!(rt; abc.as_bytes(), b"abc".as_slice());
    assert_eq!(rt; abc.len(), 3);
    assert!(rt; abc.try_copy(rt.alloc()) == Ok(text(rt, "abc")));
    assert!(rt; abc != text(rt, "abd"));
    let again = Text::from_vec(abc.into_vec());
    assert!(rt; again == text(rt, "abc"));
}

fn hold_lists(rt: &(impl Abort + AllocGlobal)) {
    let mut numbers = list(rt, [1, 2, 3]);
    assert_eq!(rt; numbers.as_slice(), [1, 2, 3].as_slice());
    assert_eq!(rt; numbers.take().as_slice(), [1, 2, 3].as_slice());
    assert!(rt; numbers.as_slice().is_empty());
    assert!(rt; numbers.into_vec().is_empty());
    let seven = boxed(rt, 7);
    assert_eq!(rt; *seven.get(), 7);
    assert_eq!(rt; seven.into_inner(), 7);
}
