//! An application that exports a tree: what it answers, what it hears and what it announces. Its contents lie in boxes.
#![tactic(auto)]

mod app;
mod application;
pub mod called;
mod doing;
mod fault;
mod taking;
mod telling;

pub use app::App;
pub use atspi_app_exported::{Boxes, Kit};
pub use atspi_app_known::application::{AppFault, Application};
pub use atspi_app_known::happenings::AppEvent;
