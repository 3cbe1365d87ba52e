//! Which laws of the headline (`atspi_headline`) every lawful trace of a script keeps: it has a run with its lines and
//! its entries, and that run keeps them. Definitions with laws; `docs/HEADLINE.md` says which parts of the nine laws
//! these are, and what is left.
#![tactic(auto)]

pub mod laws;
