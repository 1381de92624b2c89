//! What a document does, change by change, so that another with the same nodes can do it too.
#![tactic(auto)]

mod change;
mod log;
mod new_nodes;

pub use change::Change;
pub use log::Log;
pub use new_nodes::Fragment;
