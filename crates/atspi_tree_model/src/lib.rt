//! An application's tree, a reader's view of it, and the news between the two: the plain types, the definitions that
//! all crates above cite, and their laws. `docs/FOREST.md` has the form in one page.
#![tactic(auto)]

mod contents;
mod edit;
pub mod laws;
mod limits;
mod news;
mod step;
mod view;

pub use contents::{FaceData, FaceKind, Kinds};
pub use edit::{Edit, EditFault};
pub use limits::{
    ACTION_LIMIT, ADDED_LIMIT, COLUMN_LIMIT, MARK_LIMIT, NAME_LIMIT, NODE_LIMIT, RELATION_KINDS,
    STATE_COUNT, TEXT_LIMIT,
};
pub use news::{Item, Items, News, Reference};
pub use step::{Seed, Step, StepList};
pub use view::{NumPart, Part, Row};
