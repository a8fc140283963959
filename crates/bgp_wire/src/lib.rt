//! What any binary format is defined by, without anything of BGP: spellings, rows of them, and readers.
#![tactic(auto)]

mod copy;
mod counter;
mod list;
mod octet_set;
mod octets;
mod output;
mod page;
mod trace;

pub use copy::TryCopy;
pub use counter::Counter;
pub use list::List;
pub use octet_set::OctetSet;
pub use octets::are_octets;
pub use output::Output;
pub use page::Page;
