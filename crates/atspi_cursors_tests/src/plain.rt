//! Cursors beside a plain list: the characters of a text, with a mark where the cursor stands.

use atspi_cursors::{after_deletion, after_insertion};
use std::alloc::{AllocError, Global};

/// What stands in the list where the cursor is.
const MARK: u8 = 1;

/// What stands for a character.
const CHARACTER: u8 = 0;

/// A number below a limit, drawn from a state that goes on.
fn draw(state: &mut u64, below: u32) -> u32 {
    *state = state
        .wrapping_mul(6_364_136_223_846_793_005)
        .wrapping_add(1_442_695_040_888_963_407);
    ((*state >> 33) % u64::from(below.max(1))) as u32
}

/// How many characters stand before the mark.
fn before_mark(list: &[u8]) -> u32 {
    let mut count = 0u32;
    for what in list {
        if *what == MARK {
            return count;
        }
        count = count.saturating_add(1);
    }
    count
}

/// The list with so many characters put in behind so many; the mark stays in front of them where it stands there.
fn with_insertion(alloc: Global, list: &[u8], at: u32, count: u32) -> Result<Vec<u8>, AllocError> {
    let mut next = Vec::new(alloc);
    let mut passed = 0u32;
    let mut is_put = false;
    for what in list {
        if *what == CHARACTER {
            if passed == at && !is_put {
                is_put = true;
                for _i in 0..count {
                    next.push(CHARACTER)?;
                }
            }
            passed = passed.saturating_add(1);
        }
        next.push(*what)?;
    }
    if !is_put {
        for _i in 0..count {
            next.push(CHARACTER)?;
        }
    }
    Ok(next)
}

/// The list without so many characters behind so many; the mark stays.
fn with_deletion(alloc: Global, list: &[u8], at: u32, count: u32) -> Result<Vec<u8>, AllocError> {
    let mut next = Vec::new(alloc);
    let mut passed = 0u32;
    for what in list {
        if *what == MARK {
            next.push(MARK)?;
        } else {
            if passed < at || passed.saturating_sub(at) >= count {
                next.push(CHARACTER)?;
            }
            passed = passed.saturating_add(1);
        }
    }
    Ok(next)
}

/// A text of so many characters with a cursor behind so many.
fn marked(alloc: Global, before: u32, behind: u32) -> Result<Vec<u8>, AllocError> {
    let mut list = Vec::new(alloc);
    for _i in 0..before {
        list.push(CHARACTER)?;
    }
    list.push(MARK)?;
    for _i in 0..behind {
        list.push(CHARACTER)?;
    }
    Ok(list)
}

/// Whether one drawn change leaves the cursor where the list has its mark.
fn stays(alloc: Global, state: &mut u64) -> Result<bool, AllocError> {
    let cursor = draw(state, 12);
    let all = cursor.saturating_add(draw(state, 12));
    let list = marked(alloc, cursor, all.saturating_sub(cursor))?;
    let at = draw(state, all.saturating_add(1));
    if draw(state, 2) == 0 {
        let count = draw(state, 6);
        let next = with_insertion(alloc, &list, at, count)?;
        return Ok(before_mark(&next) == after_insertion(cursor, at, count));
    }
    let count = draw(state, all.saturating_sub(at).saturating_add(1));
    let next = with_deletion(alloc, &list, at, count)?;
    Ok(before_mark(&next) == after_deletion(cursor, at, count))
}

/// How many of so many drawn changes leave the cursor where the list has its mark.
pub(crate) fn count_right(alloc: Global, seed: u64, count: u32) -> u32 {
    let mut state = seed;
    let mut right = 0u32;
    for _i in 0..count {
        if matches!(stays(alloc, &mut state), Ok(true)) {
            right = right.saturating_add(1);
        }
    }
    right
}
