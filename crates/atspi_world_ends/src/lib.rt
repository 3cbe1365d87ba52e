//! What a world asks of the ends that it holds: an application and a reader, each seen as its definitions have it.
#![tactic(auto)]

mod follower;

pub use atspi_app_known::application::{AppFault, Application};
pub use atspi_reader_calls::CallFault;
pub use follower::Follower;
