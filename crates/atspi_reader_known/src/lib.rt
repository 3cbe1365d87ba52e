//! The applications that a reader knows: what is kept of each, and what is wanted of them next.
#![tactic(auto)]

mod app;
mod apps;
mod fresh;
pub mod laws;
mod listing;
mod places;
mod plan;
mod refused;
mod unknown;
mod wants;

pub use app::App;
pub use apps::Apps;
pub use plan::Plan;
pub use refused::Refused;
