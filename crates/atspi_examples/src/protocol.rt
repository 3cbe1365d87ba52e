//! Worked cases of the definitions of `atspi_protocol` and `atspi_speech` that stand beside those of the two crates:
//! the tables as they are printed, the calls of a reader's start, and what happens where a message says less than it
//! should. Each case is a clause of a function without a body, with its value worked out by hand. So a definition that
//! says otherwise is refused here, and a new case makes no crate above the definitions be proved again.

mod announced;
mod answers;
mod arguments;
mod codes;
mod exporting;
mod following;
mod items;
mod looked;
mod registering;
mod rows;
mod signatures;
mod whole;

pub use announced::{among_siblings, moves, nothing};
pub use answers::{changes, no_members, properties, refused, selections};
pub use arguments::{misread, missing};
pub use codes::messages;
pub use exporting::{counts, edits, numbers, own_names, refused_starts, starts, unlike};
pub use following::{children, ends, part_calls, starts as reader_starts, user_calls};
pub use items::{among_others, fields, types};
pub use looked::{adding, changed_rows, rows_of_items, rows_of_news};
pub use registering::{asked_for, forgotten, meeting, no_requests, numbered, pairs, replies, sent};
pub use rows::{below_the_root, one_column};
pub use signatures::{
    kept, of_bus_objects, of_nodes, of_properties, of_registry, of_tables, of_texts,
};
pub use whole::{absent, added, followed, known, only_of_trees, trees, unknown};
