//! What a reader shows of an application.

ghost use Rattle.std.specs.Prelude.{◌≡◌, map, slice_get, Some, All, IfOk};
ghost use Rattle.atspi_world_parties.specs.Shown.{shown_by, row_total};

use atspi_base::NoMemory;
use atspi_trace_events::Shown;
use atspi_trace_rows::showing::{count_rows, shown_rows};
use atspi_world_ends::Follower;
use atspi_world_links::Post;
use std::alloc::Global;

/// What a reader shows of the application at a connection, none where it does not hold it.
pub fn shown_at<R: Follower>(
    alloc: Global,
    readers: &[R],
    number: u32,
    post: &Post,
) -> Result<Option<Shown>, NoMemory>
    requires { All R.is_follower readers.now }
    ensures { IfOk result (λ shown. shown ≡ shown_by (slice_get (map R.follower readers.now) number) post.now.name) }
{
    let place = number as usize;
    if place >= readers.len() {
        return Ok(None);
    }
    match &post.name {
        None => Ok(None),
        Some(name) => match readers[place].view(name) {
            None => Ok(None),
            Some(rows) => Ok(Some(shown_rows(alloc, rows)?)),
        },
    }
}

/// How many rows a reader holds of the application at a connection. Takes no memory.
pub fn count_at<R: Follower>(readers: &[R], number: u32, post: &Post) -> usize
    requires { All R.is_follower readers.now }
    ensures { result ≡ row_total (shown_by (slice_get (map R.follower readers.now) number) post.now.name) }
{
    let place = number as usize;
    if place >= readers.len() {
        return 0;
    }
    match &post.name {
        None => 0,
        Some(name) => match readers[place].view(name) {
            None => 0,
            Some(rows) => count_rows(rows),
        },
    }
}
