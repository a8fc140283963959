//! The words of the command line of `bgp`, and what they request, without reading or writing anything; and what the other programs share.
#![tactic(auto)]

mod commands;
mod conflict;
mod drops;
mod given;
mod help;
mod hint;
pub mod laws;
mod numbered;
mod path_list;
mod program;
mod request;
mod type_list;

pub use hint::{Look, Spot, Unsaid, dump_of, is_printed, left_unsaid, look_of, spot_behind};
pub use path_list::PathFlags;
pub use program::{BROKEN, Behind, bad_value, explain, status_of, tell, with_flags, words};
pub use request::{Asked, FlagTerms, Request, Session, parse};
pub use type_list::{all_but, list_fault, types_of};
