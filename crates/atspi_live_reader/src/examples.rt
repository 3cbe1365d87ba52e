//! Worked cases of what speaks of a reader that has started, of how its run was over and of what it handed over last:
//! no other crate can name a value of these types. Each case is a clause of a function without a body, so a definition
//! that says otherwise is refused here.

pub mod handed;
pub mod overs;
pub mod written;
