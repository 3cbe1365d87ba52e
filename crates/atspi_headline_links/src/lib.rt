//! The law of bus and links of the headline (`atspi_headline`), of the run of every lawful trace, together with all
//! laws of `atspi_headline_laws`. Definitions with laws; `docs/HEADLINE.md` says which parts these are, and what is left.
#![tactic(auto)]

pub mod laws;
