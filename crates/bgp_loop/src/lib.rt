//! Scripts that are run: two speakers against each other, over memory or over TCP.
#![tactic(auto)]

mod file;
mod running;
mod tcp;
mod tracer;
mod tracing;

pub use file::{read_file, run_file, trace_file};
pub use running::run_loop;
pub use tcp::TcpWire;
pub use tracing::trace_loop;
