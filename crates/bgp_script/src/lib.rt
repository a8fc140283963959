//! Scripts for a pair of speakers, and the printed form of their reports and of each move's outcome.
#![tactic(auto)]

mod cut;
pub mod laws;
mod lines;
mod moves;
mod note_list;
mod number;
mod pieces;
mod report_text;
mod script;
mod script_fault;
mod sent;
mod speaker;
mod speakers;
mod trace_text;

pub use note_list::side_name;
pub use report_text::put_report;
pub use script::{SCRIPT_MAX, Script, read_script};
pub use script_fault::ScriptFault;
pub use trace_text::{put_cut, put_event, put_heard, put_move, put_tried};
