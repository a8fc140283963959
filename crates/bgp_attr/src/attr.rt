//! A path attribute: as a value, by reference, and borrowed, and what precedes its value.

ghost use Rattle.std.specs.Prelude.{◌≡◌, IfOk};
ghost use Rattle.bgp_attr.specs.AttrView.{attr_value, ref_value};
ghost use Rattle.bgp_attr.specs.Written.{optional_class, type_of, class_of, partial_of};

use crate::aggregator::Aggregator;
use crate::class::Class;
use crate::class::Class::{OptionalNonTransitive, OptionalTransitive, WellKnown};
use crate::communities::{Communities, LargeCommunities};
use crate::communities_view::{CommunitiesView, LargeView};
use crate::mp::{MpReach, MpUnreach};
use crate::mp_view::{MpReachView, MpUnreachView};
use crate::opaque::{Opaque, OpaqueView};
use crate::origin::Origin;
use crate::path::{As4Path, AsPath};
use crate::path_view::{As4PathView, PathView};
use bgp_numbers::attribute;
use std::alloc::{AllocError, Global};

/// A path attribute (RFC 4271, section 5).
#[derive(Drop, PartialEq)]
pub enum Attr {
    /// ORIGIN.
    Origin(Origin),
    /// AS_PATH.
    AsPath(AsPath),
    /// NEXT_HOP: an IPv4 address.
    NextHop([u8; 4]),
    /// MULTI_EXIT_DISC.
    Med(u32),
    /// LOCAL_PREF.
    LocalPref(u32),
    /// ATOMIC_AGGREGATE.
    Atomic,
    /// AGGREGATOR.
    Aggregator(Aggregator),
    /// COMMUNITIES.
    Communities(Communities),
    /// MP_REACH_NLRI.
    MpReach(MpReach),
    /// MP_UNREACH_NLRI.
    MpUnreach(MpUnreach),
    /// AS4_PATH.
    As4Path(As4Path),
    /// AS4_AGGREGATOR.
    As4Aggregator(Aggregator),
    /// LARGE_COMMUNITY.
    Large(LargeCommunities),
    /// An attribute of any other type.
    Opaque(Opaque),
}

impl Attr {
    /// An equal attribute, with memory of its own.
    ///
    /// # Errors
    /// `AllocError` where an allocation failed.
    pub fn copy(&self, alloc: Global) -> Result<Attr, AllocError>
        ensures { IfOk result (λ copy. copy ≡ self.now) }
    {
        copy_of(AttrRef::from(self), alloc)
    }
}

/// A path attribute whose value is elsewhere, as in the fields of a message: writing it needs no [`Attr`].
#[derive(Clone, Copy)]
pub enum AttrRef<'a> {
    /// ORIGIN.
    Origin(Origin),
    /// AS_PATH.
    AsPath(&'a AsPath),
    /// NEXT_HOP: an IPv4 address.
    NextHop(&'a [u8; 4]),
    /// MULTI_EXIT_DISC.
    Med(u32),
    /// LOCAL_PREF.
    LocalPref(u32),
    /// ATOMIC_AGGREGATE.
    Atomic,
    /// AGGREGATOR.
    Aggregator(&'a Aggregator),
    /// COMMUNITIES.
    Communities(&'a Communities),
    /// MP_REACH_NLRI.
    MpReach(&'a MpReach),
    /// MP_UNREACH_NLRI.
    MpUnreach(&'a MpUnreach),
    /// AS4_PATH.
    As4Path(&'a As4Path),
    /// AS4_AGGREGATOR.
    As4Aggregator(&'a Aggregator),
    /// LARGE_COMMUNITY.
    Large(&'a LargeCommunities),
    /// An attribute of any other type.
    Opaque(&'a Opaque),
}

impl<'a> From<&'a Attr> for AttrRef<'a> {
    ghost from_gives = { λ a r. ref_value r ≡ a.now };

    fn from(attr: &'a Attr) -> AttrRef<'a> {
        match attr {
            Attr::Origin(origin) => AttrRef::Origin(*origin),
            Attr::AsPath(path) => AttrRef::AsPath(path),
            Attr::NextHop(addr) => AttrRef::NextHop(addr),
            Attr::Med(metric) => AttrRef::Med(*metric),
            Attr::LocalPref(preference) => AttrRef::LocalPref(*preference),
            Attr::Atomic => AttrRef::Atomic,
            Attr::Aggregator(aggregator) => AttrRef::Aggregator(aggregator),
            Attr::Communities(communities) => AttrRef::Communities(communities),
            Attr::MpReach(reach) => AttrRef::MpReach(reach),
            Attr::MpUnreach(unreach) => AttrRef::MpUnreach(unreach),
            Attr::As4Path(path) => AttrRef::As4Path(path),
            Attr::As4Aggregator(aggregator) => AttrRef::As4Aggregator(aggregator),
            Attr::Large(communities) => AttrRef::Large(communities),
            Attr::Opaque(opaque) => AttrRef::Opaque(opaque),
        }
    }
}

/// A path attribute, borrowed: an [`Attr`] with iterators and slices instead of lists.
#[derive(Clone, Copy)]
pub enum AttrView<'a> {
    /// ORIGIN.
    Origin(Origin),
    /// AS_PATH.
    AsPath(PathView<'a>),
    /// NEXT_HOP: an IPv4 address.
    NextHop([u8; 4]),
    /// MULTI_EXIT_DISC.
    Med(u32),
    /// LOCAL_PREF.
    LocalPref(u32),
    /// ATOMIC_AGGREGATE.
    Atomic,
    /// AGGREGATOR.
    Aggregator(Aggregator),
    /// COMMUNITIES.
    Communities(CommunitiesView<'a>),
    /// MP_REACH_NLRI.
    MpReach(MpReachView<'a>),
    /// MP_UNREACH_NLRI.
    MpUnreach(MpUnreachView<'a>),
    /// AS4_PATH.
    As4Path(As4PathView<'a>),
    /// AS4_AGGREGATOR.
    As4Aggregator(Aggregator),
    /// LARGE_COMMUNITY.
    Large(LargeView<'a>),
    /// An attribute of any other type.
    Opaque(OpaqueView<'a>),
}

impl AttrView<'_> {
    /// The attribute, with memory of its own.
    ///
    /// # Errors
    /// `AllocError` where an allocation failed.
    pub fn own(&self, alloc: Global) -> Result<Attr, AllocError>
        ensures { IfOk result (λ a. a ≡ attr_value self.now) }
    {
        own_view(*self, alloc)
    }
}

/// An attribute by reference, copied into memory of its own. It is matched by value, which costs proofs less than through a reference.
fn copy_of(attr: AttrRef<'_>, alloc: Global) -> Result<Attr, AllocError>
    ensures { IfOk result (λ copy. copy ≡ ref_value attr.entry) }
{
    Ok(match attr {
        AttrRef::Origin(origin) => Attr::Origin(origin),
        AttrRef::AsPath(path) => Attr::AsPath(path.copy(alloc)?),
        AttrRef::NextHop(addr) => Attr::NextHop(*addr),
        AttrRef::Med(metric) => Attr::Med(metric),
        AttrRef::LocalPref(preference) => Attr::LocalPref(preference),
        AttrRef::Atomic => Attr::Atomic,
        AttrRef::Aggregator(aggregator) => Attr::Aggregator(*aggregator),
        AttrRef::Communities(communities) => Attr::Communities(communities.copy(alloc)?),
        AttrRef::MpReach(reach) => Attr::MpReach(reach.copy(alloc)?),
        AttrRef::MpUnreach(unreach) => Attr::MpUnreach(unreach.copy(alloc)?),
        AttrRef::As4Path(path) => Attr::As4Path(path.copy(alloc)?),
        AttrRef::As4Aggregator(aggregator) => Attr::As4Aggregator(*aggregator),
        AttrRef::Large(communities) => Attr::Large(communities.copy(alloc)?),
        AttrRef::Opaque(opaque) => Attr::Opaque(opaque.copy(alloc)?),
    })
}

/// A view, copied into memory of its own.
fn own_view(view: AttrView<'_>, alloc: Global) -> Result<Attr, AllocError>
    ensures { IfOk result (λ a. a ≡ attr_value view.entry) }
{
    Ok(match view {
        AttrView::Origin(origin) => Attr::Origin(origin),
        AttrView::AsPath(path) => Attr::AsPath(path.own(alloc)?),
        AttrView::NextHop(addr) => Attr::NextHop(addr),
        AttrView::Med(metric) => Attr::Med(metric),
        AttrView::LocalPref(preference) => Attr::LocalPref(preference),
        AttrView::Atomic => Attr::Atomic,
        AttrView::Aggregator(aggregator) => Attr::Aggregator(aggregator),
        AttrView::Communities(communities) => Attr::Communities(communities.own(alloc)?),
        AttrView::MpReach(reach) => Attr::MpReach(reach.own(alloc)?),
        AttrView::MpUnreach(unreach) => Attr::MpUnreach(unreach.own(alloc)?),
        AttrView::As4Path(path) => Attr::As4Path(path.own(alloc)?),
        AttrView::As4Aggregator(aggregator) => Attr::As4Aggregator(aggregator),
        AttrView::Large(communities) => Attr::Large(communities.own(alloc)?),
        AttrView::Opaque(opaque) => Attr::Opaque(opaque.own(alloc)?),
    })
}

/// What precedes an attribute's value: its type, the class of its flags, and its Partial bit.
#[derive(Clone, Copy)]
pub(crate) struct Form {
    pub(crate) kind: u8,
    pub(crate) class: Class,
    pub(crate) partial: bool,
}

/// The class of an attribute of a type that isn't recognised.
fn optional_class(transitive: bool) -> Class
    ensures { result ≡ optional_class transitive }
{
    if transitive {
        Class::OptionalTransitive
    } else {
        Class::OptionalNonTransitive
    }
}

/// A row of the table.
macro_rules! row {
    ($kind:expr, $class:expr, $partial:expr) => {
        Form {
            kind: $kind,
            class: $class,
            partial: $partial,
        }
    };
}

/// The row of an attribute, by reference or as a view.
macro_rules! form {
    ($Attr:ident, $attr:expr) => {
        match $attr {
            $Attr::Origin(_) => row!(attribute::ORIGIN, WellKnown, false),
            $Attr::AsPath(_) => row!(attribute::AS_PATH, WellKnown, false),
            $Attr::NextHop(_) => row!(attribute::NEXT_HOP, WellKnown, false),
            $Attr::Med(_) => row!(attribute::MULTI_EXIT_DISC, OptionalNonTransitive, false),
            $Attr::LocalPref(_) => row!(attribute::LOCAL_PREF, WellKnown, false),
            $Attr::Atomic => row!(attribute::ATOMIC_AGGREGATE, WellKnown, false),
            $Attr::Aggregator(it) => row!(attribute::AGGREGATOR, OptionalTransitive, it.partial),
            $Attr::Communities(it) => row!(attribute::COMMUNITIES, OptionalTransitive, it.partial),
            $Attr::MpReach(_) => row!(attribute::MP_REACH_NLRI, OptionalNonTransitive, false),
            $Attr::MpUnreach(_) => row!(attribute::MP_UNREACH_NLRI, OptionalNonTransitive, false),
            $Attr::As4Path(it) => row!(attribute::AS4_PATH, OptionalTransitive, it.partial),
            $Attr::As4Aggregator(it) => row!(attribute::AS4_AGGREGATOR, OptionalTransitive, it.partial),
            $Attr::Large(it) => row!(attribute::LARGE_COMMUNITY, OptionalTransitive, it.partial),
            $Attr::Opaque(it) => row!(it.kind, optional_class(it.transitive), it.partial),
        }
    };
}

/// The form of an attribute.
#[inline(always)]
pub(crate) fn form_of(attr: AttrRef<'_>) -> Form
    ensures { (result.kind ≡ type_of (ref_value attr.entry)) × (result.class ≡ class_of (ref_value attr.entry)) × (result.partial ≡ partial_of (ref_value attr.entry)) }
{
    form!(AttrRef, attr)
}

/// The form of an attribute that is a view.
#[inline(always)]
pub(crate) fn form_of_view(view: AttrView<'_>) -> Form
    ensures { (result.kind ≡ type_of (attr_value view.entry)) × (result.class ≡ class_of (attr_value view.entry)) × (result.partial ≡ partial_of (attr_value view.entry)) }
{
    form!(AttrView, view)
}
