//! Path attributes of BGP-4: their octets, how they are judged, and how they are written
//! (RFC 4271, sections 4.3, 5 and 6.3; RFC 1997, 4760, 6793, 7606, 7607 and 8092).
#![tactic(auto)]

mod aggregator;
mod attr;
mod class;
mod communities;
mod communities_view;
mod family;
mod finishing;
mod first_kept;
mod first_numbers;
mod first_tlv;
mod flags;
mod found_attr;
mod judge_aggregator;
mod judge_communities;
mod judge_fixed;
mod judge_mp;
mod judge_path;
mod judged;
mod judged_view;
mod judging;
mod large_iter;
mod large_view;
pub mod laws;
mod mp;
mod mp_test;
mod mp_view;
mod numbers;
mod opaque;
mod origin;
mod path;
mod path_form;
mod path_view;
mod put;
mod put_view;
mod ruling;
mod segment;
mod tlv;
mod tlv_iter;
pub mod unwritable;
mod value_writing;
mod view_writing;
mod why;
mod writability;
mod write;

pub use aggregator::Aggregator;
pub use attr::{Attr, AttrRef, AttrView};
pub use communities::{Communities, LargeCommunities};
pub use communities_view::{CommunitiesView, LargeView};
pub use finishing::{begin_attr, finish_attr};
pub use first_tlv::tlv_at;
pub use flags::Flags;
pub use found_attr::FoundAttr;
pub use judge_aggregator::aggregator_in;
pub use judge_communities::{communities_in, large_in, opaque_in, rule_other};
pub use judge_fixed::{four_in, next_hop_in, origin_in};
pub use judge_mp::{reach_in, unreach_in};
pub use judge_path::{as_path_in, as4_path_in};
pub use judged::Judged;
pub use judged_view::JudgedView;
pub use judging::{
    is_out_of_place, is_recognised, judge, judge_attribute, judge_view, kept_attr, rule,
    rule_recognised, with_value,
};
pub use large_iter::LargeCommIter;
pub use large_view::first_new_triple;
pub use mp::{MpReach, MpUnreach};
pub use mp_test::{MpTest, deciding_test};
pub use mp_view::{MpReachView, MpUnreachView};
pub use numbers::{AsNumberIter, CommIter, first_number};
pub use opaque::{Opaque, OpaqueView};
pub use origin::Origin;
pub use path::{As4Path, AsPath, SegKind, Segment};
pub use path_form::PathForm;
pub use path_view::{As4PathView, PathView, SegmentIter, SegmentView};
pub use ruling::{Ruling, attribute_reset};
pub use segment::{RawSegment, first_segment};
pub use tlv::{Tail, Tlv};
pub use tlv_iter::TlvIter;
pub use unwritable::Unwritable;
pub use view_writing::write_attr_view;
pub use why::Why;
pub use writability::{why_unwritable, writable};
pub use write::{put_attr, write_attr, write_attr_ref};
