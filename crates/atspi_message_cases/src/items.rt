//! The items of an application's cache (AT-SPI2's interface Cache).

use crate::values::{begin, end, pad, put_i32, put_pair, put_text, put_u32};
use atspi_base::Bytes;

/// Appends a reference to an object of an application. A `!` before the path makes it one of the application `:1.9`.
fn put_reference(out: &mut Bytes, bus: &str, path: &str) -> Option<()> {
    match path.strip_prefix("!") {
        Some(path) => put_pair(out, ":1.9", path),
        None => put_pair(out, bus, path),
    }
}

/// Appends the interfaces that the letters of a word stand for: `t` for Text, `c` for Table, any other for one without
/// a part, and `-` for none.
fn put_interfaces(out: &mut Bytes, letters: &str) -> Option<()> {
    let list = begin(out, false)?;
    for letter in letters.chars() {
        match letter {
            't' => put_text(out, "org.a11y.atspi.Text")?,
            'c' => put_text(out, "org.a11y.atspi.Table")?,
            '-' => {}
            _ => put_text(out, "a.B")?,
        }
    }
    end(out, list)
}

/// Appends an item, `PATH,PARENT,INDEX,LETTERS,ROLE,NAME`. The application's root is `/r`; the item has two children by
/// its own account, no description and no states.
pub(crate) fn put_item(out: &mut Bytes, bus: &str, item: &str) -> Option<()> {
    let mut words = item.split(',');
    pad(out, 8)?;
    put_reference(out, bus, words.next()?)?;
    put_pair(out, bus, "/r")?;
    put_reference(out, bus, words.next()?)?;
    put_i32(out, words.next()?.parse::<i32>().ok()?)?;
    put_i32(out, 2)?;
    put_interfaces(out, words.next()?)?;
    let role = words.next()?.parse::<u32>().ok()?;
    put_text(out, words.next()?)?;
    put_u32(out, role)?;
    put_text(out, "")?;
    let states = begin(out, false)?;
    end(out, states)
}

/// Appends the items of an application, `BUS;ITEM;ITEM` and so on.
pub(crate) fn put_items(out: &mut Bytes, value: &str) -> Option<()> {
    let mut parts = value.split(';');
    let bus = parts.next()?;
    let list = begin(out, true)?;
    for item in parts {
        put_item(out, bus, item)?;
    }
    end(out, list)
}
