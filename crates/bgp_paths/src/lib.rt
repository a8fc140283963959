//! Path identifiers (ADD-PATH; RFC 7911): the routes of an UPDATE that have them, and the body that it is without them.
#![tactic(auto)]

mod changing;
mod families;
pub mod laws;
mod outcome;
mod path_body;
mod path_field;
mod path_iter;
mod path_routes;
mod places;
mod plain_body;
mod plain_field;
mod plain_routes;
mod route;
mod runs;

pub use families::PathFamilies;
pub use outcome::view_received;
pub use path_body::{PathBody, TooLong};
pub use path_iter::PathIter;
pub use places::{PathShifts, data_received};
pub use plain_body::PlainBody;
pub use route::{PathPrefix, first_path_prefix};
pub use runs::{PathRun, PathRuns, path_runs};

#[cfg(test)]
mod tests;
