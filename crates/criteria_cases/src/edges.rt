// The longest texts, the most parts and the deepest nesting.
use super::expect::{formula_of, refused};
use std::alloc::Global;
use std::test::Fail;

// So many copies of some bytes, and then others.
fn repeated(heap: Global, n: usize, bytes: &[u8], end: &[u8]) -> Result<Vec<u8>, Fail> {
    let mut text = Vec::new(heap);
    for _ in 0..n {
        text.extend_from_slice(bytes)?;
    }
    text.extend_from_slice(end)?;
    Ok(text)
}

#[test]
fn length(rt: HostRuntime) -> Result<(), Fail> {
    let longest = repeated(rt.alloc(), 4_093, b" ", b"0=0")?;
    assert_eq!(rt; formula_of(&longest)?.count(), 3);
    let longer = repeated(rt.alloc(), 4_094, b" ", b"0=0")?;
    refused(&rt, 0, &longer, 1, 0);
    refused(&rt, 1, b"", 1, 0);
    Ok(())
}

// Prefixes, formula brackets and argument lists nest, 32 deep and no deeper.
#[test]
fn nesting(rt: HostRuntime) -> Result<(), Fail> {
    let prefixes = repeated(rt.alloc(), 32, b"~", b"0=0")?;
    assert_eq!(rt; formula_of(&prefixes)?.count(), 35);
    refused(&rt, 0, &repeated(rt.alloc(), 33, b"~", b"0=0")?, 6, 32);
    refused(&rt, 1, &repeated(rt.alloc(), 33, b"(", b"0=0")?, 6, 32);
    refused(&rt, 2, &repeated(rt.alloc(), 32, b"(", b"abs(0)=0")?, 6, 35);
    refused(&rt, 3, &repeated(rt.alloc(), 32, b"X", b"d({a})=0")?, 2, 0);
    Ok(())
}

// Part 129 is refused at the token that brings it.
#[test]
fn parts(rt: HostRuntime) -> Result<(), Fail> {
    let most = repeated(rt.alloc(), 31, b"0=0\xE2\x88\xA7", b"~0=0")?;
    assert_eq!(rt; formula_of(&most)?.count(), 128);
    let more = repeated(rt.alloc(), 31, b"0=0\xE2\x88\xA7", b"~~0=0")?;
    refused(&rt, 0, &more, 6, 190);
    Ok(())
}
