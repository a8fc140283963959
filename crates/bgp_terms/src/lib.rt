//! What two speakers agree on beyond a context, for one direction of their session: ROUTE-REFRESH, long messages, path identifiers, next hops, families.
#![tactic(auto)]

mod families;
mod family;
pub mod laws;
mod member;
mod negotiated;
mod offers;
mod paths;
mod refreshes;
mod wide_terms;

pub use families::Families;
pub use family::Family;
pub use member::Member;
pub use negotiated::Terms;
pub use offers::{Offers, offers_in, offers_of};
pub use refreshes::Refreshes;
pub use wide_terms::{WideTerms, terms};

#[cfg(test)]
mod tests;
