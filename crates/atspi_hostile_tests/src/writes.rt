//! Sinks that fail at each byte: what was written is a front of what is written else, and the status is 4.

use crate::drawn::put_lines;
use crate::ends::{Outside, run};
use crate::faults::stop_unless;
use crate::links::put_digits;
use crate::readers::STARTS;
use std::alloc::Global;
use std::process::Abort;

/// An application, a line that is spoken of it, and another application that goes.
const SPOKEN: &str = "\
return 11 :1.7 11 items=:1.7;/r,/,-1,-,75,Pad
signal 12 :1.7 cache Cache AddAccessible item=:1.7;/b,/r,0,-,2,Saved
signal 13 bus bus bus NameOwnerChanged s=:1.9 s=:1.9 s=";

/// What a reader writes then.
const WRITTEN: &[u8] = b"say :1.7 \"alert: Saved\"\nshow :1.7 2\n\
| /r - -1 application 0000000000000000 \"Pad\" \"\" - - - -\n| /b /r 0 alert 0000000000000000 \"Saved\" \"\" - - - -\n";

/// A front with serial 0.
const FAULTY: &str = "6c010001 00000000 00000000 6d000000";

/// All bytes in few reads, and then the link ends; the sink takes all, or fails at a byte.
fn outside(failing_write: Option<u64>) -> Outside {
    Outside {
        most: 4096,
        ends: true,
        failing_write,
        rounds: 400,
    }
}

/// Whether a run writes what is due with a status, and a front of it, with status 4, where a byte cannot be written.
fn is_written(
    rt: &impl Abort,
    alloc: Global,
    end: &str,
    bytes: &[u8],
    status: u8,
    due: &[u8],
) -> bool {
    for failing in 0..due.len() {
        let run = run(rt, alloc, end, bytes, outside(Some(failing as u64)));
        if !run.wrote(4, &due[..failing]) {
            return false;
        }
    }
    run(rt, alloc, end, bytes, outside(None)).wrote(status, due)
}

#[test]
fn what_a_reader_speaks_and_shows_is_cut(rt: HostRuntime) {
    let mut bytes = Vec::new(rt.alloc());
    put_lines(&rt, rt.alloc(), &mut bytes, STARTS);
    put_lines(&rt, rt.alloc(), &mut bytes, SPOKEN);
    assert!(rt; is_written(&rt, rt.alloc(), "read", &bytes, 0, WRITTEN));
}

#[test]
fn the_line_of_a_fault_is_cut(rt: HostRuntime) {
    let mut bytes = Vec::new(rt.alloc());
    put_digits(&rt, rt.alloc(), &mut bytes, FAULTY);
    for end in "read registry app".split(' ') {
        let holds = is_written(&rt, rt.alloc(), end, &bytes, 6, b"fault 0 8 26\n");
        stop_unless(&rt, end, holds);
    }
}
