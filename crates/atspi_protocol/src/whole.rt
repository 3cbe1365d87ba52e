//! A whole tree of an application: its shape, which the tree keeps, and the contents of its nodes, which three faces
//! keep. Definitions with worked cases, and the law that a step done to both is the step of the whole.

pub mod examples;
pub mod laws;
