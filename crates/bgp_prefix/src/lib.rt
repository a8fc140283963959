//! IPv4 and IPv6 prefixes, and runs of them (RFC 4271, section 4.3; RFC 4760, section 5).
#![tactic(auto)]

mod address;
mod as_number;
mod bits;
mod display;
mod fault;
mod front;
mod iter;
pub mod laws;
mod mask;
mod prefix;
mod rewriting;
mod run;

pub use address::Address;
pub use as_number::{AS_TRANS, AsNumber};
pub use fault::RunFault;
pub use iter::{PrefixIter, PrefixIter4, PrefixIter6, first_prefix};
pub use prefix::{Prefix, Prefix4, Prefix6};
pub use run::{check_run4, check_run6, read_run4, read_run6, write_run, write_run4, write_run6};
