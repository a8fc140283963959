//! Rows of text about formats, messages and engines: how a row is written, and what the library returns for its input
//! (docs/ROWS.md). Rows about sessions and scripts, and the program, are in `bgp_check_rows`.
#![tactic(auto)]

pub mod attributes;
pub mod changes;
pub mod contexts;
pub mod copies;
pub mod engines;
pub mod messages;
pub mod octets;
pub mod one_attribute;
pub mod page;
pub mod paths;
pub mod row;
pub mod runs;
pub mod sheet;
pub mod trouble;
pub mod written;
