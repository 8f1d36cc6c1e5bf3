use crate::expect::expect;
use ap_list::{Boxed, Bytes, NoMemory};
use ap_value::copy_bytes;
use std::alloc::Global;
use std::test::Fail;

/// Adds to a list by each call that does.
fn add(alloc: Global, bytes: &mut Bytes) -> Result<(), NoMemory> {
    bytes.push(b'r')?;
    bytes.extend(b" ni")?;
    bytes.append(Bytes::from_slice(alloc, b"l")?)
}

/// A list made by each call that adds to one.
fn made(alloc: Global) -> Result<Bytes, NoMemory> {
    let mut bytes = Bytes::from_slice(alloc, b"ca")?;
    add(alloc, &mut bytes)?;
    copy_bytes(alloc, &bytes)
}

#[test]
fn lists_and_boxes_hold_what_they_are_given(rt: HostRuntime) -> Result<(), Fail> {
    expect(&rt, made(rt.alloc())?.as_slice(), "car nil");
    let boxed = Boxed::new(rt.alloc(), made(rt.alloc())?)?;
    expect(&rt, boxed.get().as_slice(), "car nil");
    Ok(())
}
