//! Whether signals tell what is due.

use crate::made::{lent, signal};
use crate::news::shown::put_news;
use atspi_base::Bytes;
use atspi_reader_news::news_of;
use std::alloc::Global;
use std::process::Abort;

/// Whether the signal of a row, which `:1.7` sends, tells what is due where it is taken for a message of a type.
pub fn tells(rt: &impl Abort, alloc: Global, interface: &str, kind: u8, row: &str) -> bool {
    let (spelled, due) = row.split_once(" => ").expect(rt, "a row");
    let bytes = signal(rt, alloc, interface, spelled);
    let message = lent(rt, bytes.as_slice(), kind);
    let mut out = Bytes::new(alloc);
    let told = news_of(alloc, ":1.7", &message).expect(rt, "memory");
    put_news(rt, &mut out, told);
    out.as_slice() == due.as_bytes()
}
