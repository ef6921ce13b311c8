//! Each call once: what it answers with memory at hand. Its contract says the rest.

use crate::lexing::{starlark_c_token_bytes, starlark_c_token_count};
use crate::places::{starlark_c_count_matches_byte, starlark_c_len, starlark_c_resolve};

#[test]
fn places(rt: HostRuntime) {
    let text = "aé\nb".as_bytes();
    assert_eq!(rt; starlark_c_count_matches_byte(text, b'\n'), 1);
    assert_eq!(rt; starlark_c_len(text), 4);
    // 2 is within a character, 9 past the end
    let mut total = 7;
    assert!(rt; starlark_c_resolve(rt.alloc(), text, &[0, 1, 3, 2, 9, 5], &mut total));
    assert_eq!(rt; total, 5);
}

#[test]
fn tokens(rt: HostRuntime) {
    let text = "if x:\n y".as_bytes();
    let (mut count, mut bytes) = (70, 70);
    assert!(rt; starlark_c_token_count(rt.alloc(), text, &mut count));
    assert!(rt; starlark_c_token_bytes(rt.alloc(), text, &mut bytes));
    assert_eq!(rt; (count, bytes), (8, 7));
    // what stands before a fault
    let text = "a $".as_bytes();
    assert!(rt; starlark_c_token_count(rt.alloc(), text, &mut count));
    assert!(rt; starlark_c_token_bytes(rt.alloc(), text, &mut bytes));
    assert_eq!(rt; (count, bytes), (1, 1));
}
