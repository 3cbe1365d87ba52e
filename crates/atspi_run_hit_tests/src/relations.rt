//! Relations of each kind.

use crate::running::comes_to;
use std::alloc::Global;
use std::test::*;

/// Whether the targets of a relation of this kind are told in their order, and those of no other kind with them.
fn follows(alloc: Global, kind: u32) -> Option<bool> {
    let other = kind % 18 + 1;
    let input = format!(in alloc;
        "app \"T\"\ninsert 0 0 label \"\"\ninsert 0 1 label \"\"\nrelate 1 {kind} 2\nrelate 1 {kind} 0\n\
relate 1 {other} 1\n\
follow 1 {kind}\nfollow 1 {other}\nunrelate 1 {kind} 2\nfollow 1 {kind}\nfollow 2 {kind}\n"
    )
    .ok()?;
    Some(comes_to(
        alloc,
        &input,
        0,
        "follow 2 0\nfollow 1\nfollow 0\nfollow none\n",
    ))
}

#[test]
fn each_kind(rt: HostRuntime) {
    for kind in 1..19u32 {
        assert!(rt; follows(rt.alloc(), kind) == Some(true), "{kind}");
    }
}

/// A target that is removed is no target any more.
#[test]
fn a_target_that_goes(rt: HostRuntime) {
    let input =
        "app \"T\"\ninsert 0 0 label \"\"\nrelate 0 3 1\nfollow 0 3\nremove 1\nfollow 0 3\n";
    assert!(rt; comes_to(rt.alloc(), input, 0, "follow 1\nfollow none\n"));
}
