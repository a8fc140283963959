//! The engines of the commands, each from a reader to a writer: what they print of a stream of BGP messages, and what they answer.
#![tactic(auto)]

mod checked;
mod class;
mod cleaning;
mod copied;
mod engine;
mod explaining;
mod fault;
mod field_form;
mod file;
mod form;
mod heard;
mod hex_text;
mod hexed;
mod identified;
pub mod laws;
mod narrowing;
mod only_faults;
mod opening;
mod opens;
mod output;
mod page;
mod printing;
mod refreshing;
mod running;
mod shown;
mod shown_json;
mod starting;
mod tally;
mod walk;

pub use bgp_frame::End;
pub use checked::{check, check_under, check_within};
pub use cleaning::{
    clean_by_opens, clean_by_opens_within, clean_stream, clean_under, clean_within,
};
pub use copied::{from_hex, from_hex_within};
pub use fault::{NoContext, Stop, ToolFault};
pub use hexed::{to_hex, to_hex_with, to_hex_within};
pub use narrowing::{narrow_stream, narrow_under, narrow_within};
pub use opens::{
    check_by_opens, check_by_opens_within, narrow_by_opens, narrow_by_opens_within, show_by_opens,
    show_by_opens_within, show_json_by_opens, show_json_by_opens_within,
};
pub use output::put;
pub use printing::{
    Style, print, print_by_opens, print_by_opens_within, print_under, print_within,
};
pub use shown::{show, show_within};
pub use shown_json::{show_json, show_json_within};
pub use tally::{Tally, status};
