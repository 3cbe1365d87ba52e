//! Bytes that pass between two hosts over a socket of the system.

ghost use Rattle.std.specs.Prelude.{◌≡◌, IfSome};
ghost use Rattle.atspi_live_host.specs.Calls.{IsOpen};

use atspi_base::Text;
use atspi_live_host::{Did, Host};
use atspi_live_sockets::NetHost;
use std::alloc::Global;
use std::process::Abort;
use std::test::*;

/// So often a call is tried that finds nothing ready.
const TRIES: u32 = 1_000_000;

/// The link that waits, once one does.
fn accepted<H: Host>(host: &mut H) -> Option<u32>
    ensures { IfSome result (λ link. IsOpen link (H.links host.new)) }
{
    for _ in 0..TRIES {
        match host.accept() {
            Did::Done(link) => return Some(link),
            Did::NotYet => {}
            Did::End => return None,
            Did::Failed => return None,
        }
    }
    None
}

/// Gives what is left of the bytes. Answers how many are given then.
fn give<H: Host>(host: &mut H, link: u32, bytes: &[u8], given: usize) -> Option<usize>
    requires open { IsOpen link (H.links host.old) }
    ensures links { H.links host.new ≡ H.links host.old }
{
    if given >= bytes.len() {
        return Some(given);
    }
    match host.write(link, &bytes[given..]) {
        Did::Done(n) => Some(given.saturating_add(n as usize)),
        Did::NotYet => Some(given),
        Did::End => None,
        Did::Failed => None,
    }
}

/// Takes some of the bytes, so many of which were taken before. Answers how many are taken then, none where others
/// came.
fn take<H: Host>(host: &mut H, link: u32, bytes: &[u8], taken: usize) -> Option<usize>
    requires open { IsOpen link (H.links host.old) }
    ensures links { H.links host.new ≡ H.links host.old }
{
    let mut piece = [0u8; 4096];
    match host.read(link, &mut piece) {
        Did::Done(n) => {
            let part = &piece[..n as usize];
            if taken <= bytes.len() && bytes[taken..].starts_with(part) {
                Some(taken.saturating_add(n as usize))
            } else {
                None
            }
        }
        Did::NotYet => Some(taken),
        Did::End => None,
        Did::Failed => None,
    }
}

/// Whether the bytes pass from one link to the other within so many tries.
fn pass<A: Host, B: Host>(from: &mut A, on: u32, to: &mut B, at: u32, bytes: &[u8]) -> bool
    requires on { IsOpen on (A.links from.old) }
    requires at { IsOpen at (B.links to.old) }
    ensures from { A.links from.new ≡ A.links from.old }
    ensures to { B.links to.new ≡ B.links to.old }
{
    let mut given = 0;
    let mut taken = 0;
    'tries: for _ in 0..TRIES {
        let Some(more) = give(from, on, bytes, given) else {
            return false;
        };
        given = more;
        let Some(more) = take(to, at, bytes, taken) else {
            return false;
        };
        taken = more;
        if taken == bytes.len() {
            return true;
        }
    }
    false
}

/// The links of two hosts that met: that of the host that listened, and that of the one that connected.
#[derive(Clone, Copy)]
struct Met {
    at: u32,
    on: u32,
}

/// The link that is made to who listens at a path.
fn connected<H: Host>(host: &mut H, path: &Text) -> Option<u32>
    ensures { IfSome result (λ link. IsOpen link (H.links host.new)) }
{
    match host.connect(path) {
        Did::Done(link) => Some(link),
        Did::NotYet => None,
        Did::End => None,
        Did::Failed => None,
    }
}

/// One host listens at a path, and the other connects to it.
fn meet<A: Host, B: Host>(rt: &impl Abort, here: &mut A, there: &mut B, path: &Text) -> Met
    ensures at { IsOpen result.at (A.links here.new) }
    ensures on { IsOpen result.on (B.links there.new) }
{
    assert_eq!(rt; here.listen(path), Did::Done(0));
    let on = connected(there, path).expect(rt, "a connect");
    let at = accepted(here).expect(rt, "an accept");
    Met { at, on }
}

/// More bytes than one call reads, none of which is as the one before.
fn bytes_to_pass(rt: &impl Abort, alloc: Global) -> Vec<u8> {
    let mut bytes = Vec::new(alloc);
    for n in 0u32..5000 {
        bytes.push((n % 251) as u8).expect(rt, "memory");
    }
    bytes
}

/// The bytes pass between two hosts that met, first from the one that connected.
fn pass_each_way<A: Host, B: Host>(
    rt: &impl Abort,
    here: &mut A,
    there: &mut B,
    met: Met,
    bytes: &[u8],
)
    requires at { IsOpen met.at (A.links here.old) }
    requires on { IsOpen met.on (B.links there.old) }
{
    assert!(rt; pass(there, met.on, here, met.at, bytes));
    assert!(rt; pass(here, met.at, there, met.on, bytes));
}

#[test]
fn bytes_pass_each_way(rt: HostRuntime) {
    let alloc = rt.alloc();
    let path = Text::read(alloc, b"passing.socket").expect(&rt, "a path");
    let bytes = bytes_to_pass(&rt, alloc);
    let mut here = NetHost::new(alloc, &rt, None);
    let mut there = NetHost::new(alloc, &rt, None);
    let met = meet(&rt, &mut here, &mut there, &path);
    pass_each_way(&rt, &mut here, &mut there, met, &bytes);
    here.leave();
}
