//! Worked cases of definitions, most of them of the forest's: what they say of small trees, lists of items and news, of
//! ends and of wishes, of protocols and of a bus, beside the value that is wanted, worked out by hand from the table of
//! edits and the rules for readers. Each case is a clause of a function without a body. So a definition that says
//! otherwise is refused here, though every law holds of it.
#![tactic(auto)]

pub mod announcements;
pub mod broken;
pub mod contents;
pub mod edits;
pub mod forests;
pub mod halts;
pub mod lawful;
pub mod limits;
pub mod lines;
pub mod loads;
pub mod maps;
pub mod news;
pub mod played;
pub mod protocol;
pub mod refusals;
pub mod routing;
pub mod rows;
pub mod sequences;
pub mod spoken;
pub mod states;
pub mod steps;
pub mod turns;
pub mod wants;
