//! The fields of a message, one after another.

ghost use Rattle.std.specs.Prelude.{◌≡◌, ◌≤◌, ◌+◌, [], ◌∷◌, ◌<◌, length, MatchOption};
ghost use Rattle.bgp_fields.specs.Walk.{group_from};

use crate::field::{Field, Group};
use crate::kind::FieldKind;
use crate::message_plan::message_plan;
use crate::part::{MessagePart, SectionPart, ValuePart};
use crate::reading::Reading;
use crate::section_plan::section_plan;
use crate::value_plan::value_plan;
use bgp_open::Context;
use bgp_paths::PathFamilies;
use std::iter::FusedIterator;

/// The fields of a message in their order: every octet is in exactly one of them, whatever the message. It allocates nothing.
#[derive(Clone, Copy)]
pub struct FieldIter<'a> {
    pub(crate) reading: Reading,
    /// The offset of the first octet that is left.
    pub(crate) at: usize,
    /// What is left of the value that was begun.
    pub(crate) value: ValuePart,
    pub(crate) value_group: Option<Group>,
    pub(crate) value_octets: &'a [u8],
    /// What is left of the section after it.
    pub(crate) section: SectionPart,
    pub(crate) section_group: Option<Group>,
    pub(crate) section_octets: &'a [u8],
    /// What is left of the message after that.
    pub(crate) message: MessagePart,
    pub(crate) message_octets: &'a [u8],
    pub(crate) ghost short: { at + (length value_octets.now + (length section_octets.now + length message_octets.now)) ≤ 4096 },
}

impl<'a> FieldIter<'a> {
    ghost use Rattle.std.specs.Prelude.{None};
    ghost use Rattle.bgp_fields.specs.Fields.{fields_of, message_fields_in, path_fields, refresh_fields};
    ghost use Rattle.bgp_fields.specs.FieldIter.{fields_left};

    /// The fields of octets from a part of a message on.
    #[tactic(auto, unfolding(crate::specs::Walk::walk))]
    fn begin(reading: Reading, part: MessagePart, octets: &'a [u8]) -> FieldIter<'a>
        requires { length octets.now ≤ 4096 }
        ensures { fields_left result ≡ message_fields_in reading part 0 None octets.now }
    {
        FieldIter {
            reading,
            at: 0,
            value: ValuePart::All(FieldKind::Unread),
            value_group: None,
            value_octets: &[],
            section: SectionPart::All(FieldKind::Unread),
            section_group: None,
            section_octets: &[],
            message: part,
            message_octets: octets,
        }
    }

    /// The fields of a whole message, in a context: those of the header, then those of the body by its type. For a header with a fault, `octets` are
    /// its 19. The body of a ROUTE-REFRESH is one unread field, as where it is refused.
    pub fn new(ctx: &Context, octets: &'a [u8]) -> FieldIter<'a>
        requires { length octets.now ≤ 4096 }
        ensures { fields_left result ≡ fields_of ctx.now octets.now }
    {
        FieldIter::begin(Reading::plain(ctx), MessagePart::Marker, octets)
    }

    /// The fields of a whole ROUTE-REFRESH that is accepted: those of the header, AFI, Message Subtype and SAFI (RFC 2918, section 3; RFC 7313, section
    /// 3.2), and the octets after these as one unread field. So is a body of fewer than four octets.
    pub fn of_refresh(ctx: &Context, octets: &'a [u8]) -> FieldIter<'a>
        requires { length octets.now ≤ 4096 }
        ensures { fields_left result ≡ refresh_fields ctx.now octets.now }
    {
        FieldIter::begin(Reading::plain(ctx), MessagePart::RefreshMarker, octets)
    }

    /// The fields of a whole message in a context where the routes of these families have path identifiers: as [`FieldIter::new`], but that each of
    /// these has its path identifier as a field before its prefix (RFC 7911, section 3).
    pub fn with_paths(ctx: &Context, families: PathFamilies, octets: &'a [u8]) -> FieldIter<'a>
        requires { length octets.now ≤ 4096 }
        ensures { fields_left result ≡ path_fields ctx.now families octets.now }
    {
        let reading = Reading {
            ctx: *ctx,
            paths: Some(families),
        };
        FieldIter::begin(reading, MessagePart::Marker, octets)
    }

    /// The next field of the value that was begun.
    fn next_in_value(&mut self) -> Field
        requires { 0 < length self.old.value_octets.now }
        ensures { fields_left self.old ≡ result ∷ fields_left self.new }
    {
        let left = self.value_octets;
        let plan = value_plan(&self.reading, self.value, left).fit(left.len());
        let at = self.at;
        let (_, rest) = left.split_at(plan.len);
        self.at = at + plan.len;
        self.value_group = group_from(at, plan.begins, self.value_group);
        self.value = plan.next;
        self.value_octets = rest;
        field(at, plan.len, plan.kind, self.value_group)
    }

    /// The next field of the section, where nothing is left of a value.
    fn next_in_section(&mut self) -> Field
        requires value { length self.old.value_octets.now ≡ 0 }
        requires some { 0 < length self.old.section_octets.now }
        ensures { fields_left self.old ≡ result ∷ fields_left self.new }
    {
        let left = self.section_octets;
        let plan = section_plan(&self.reading, self.section, left).fit(left.len());
        let at = self.at;
        let (_, behind) = left.split_at(plan.len);
        let (inside, rest) = behind.split_at(plan.inner_len);
        let group = group_from(at, plan.begins, self.section_group);
        self.at = at + plan.len;
        self.value = plan.inner;
        self.value_group = group;
        self.value_octets = inside;
        self.section = plan.next;
        self.section_group = group;
        self.section_octets = rest;
        field(at, plan.len, plan.kind, group)
    }

    /// The next field of the message, where nothing is left of a section.
    fn next_in_message(&mut self) -> Field
        requires value { length self.old.value_octets.now ≡ 0 }
        requires section { length self.old.section_octets.now ≡ 0 }
        requires some { 0 < length self.old.message_octets.now }
        ensures { fields_left self.old ≡ result ∷ fields_left self.new }
    {
        let left = self.message_octets;
        let plan = message_plan(self.reading.paths, self.message, left).fit(left.len());
        let at = self.at;
        let (_, behind) = left.split_at(plan.len);
        let (inside, rest) = behind.split_at(plan.inner_len);
        self.at = at + plan.len;
        self.section = plan.inner;
        self.section_group = None;
        self.section_octets = inside;
        self.message = plan.next;
        self.message_octets = rest;
        field(at, plan.len, plan.kind, None)
    }

    /// The next field.
    fn next_field(&mut self) -> Option<Field>
        ensures { MatchOption result ((fields_left self.old ≡ []) × (fields_left self.new ≡ []))
            (λ f. fields_left self.old ≡ f ∷ fields_left self.new) }
    {
        if !self.value_octets.is_empty() {
            return Some(self.next_in_value());
        }
        if !self.section_octets.is_empty() {
            return Some(self.next_in_section());
        }
        if self.message_octets.is_empty() {
            return None;
        }
        Some(self.next_in_message())
    }
}

impl<'a> Iterator for FieldIter<'a> {
    ghost use Rattle.std.specs.Iterator.{YieldsFirst, item_count};
    ghost use Rattle.bgp_fields.specs.FieldIter.{fields_left};

    type Item = Field;

    ghost next_gives = { YieldsFirst fields_left };

    ghost remaining = { item_count fields_left };

    fn next(&mut self) -> Option<Field> {
        self.next_field()
    }
}

impl<'a> FusedIterator for FieldIter<'a> {}

/// The group of the fields from an offset on, where one of this code begins there, or none does.
pub(crate) fn group_from(at: usize, begins: Option<u8>, group: Option<Group>) -> Option<Group>
    requires { at ≤ 4096 }
    ensures { result ≡ group_from at begins group }
{
    match begins {
        None => group,
        Some(code) => Some(Group {
            at: at as u16,
            code,
        }),
    }
}

/// A field.
pub(crate) fn field(at: usize, len: usize, kind: FieldKind, group: Option<Group>) -> Field
    requires at { at ≤ 4096 }
    requires len { len ≤ 4096 }
    ensures { result ≡ record { at = at; len = len; kind = kind; group = group } }
{
    Field {
        at: at as u16,
        len: len as u16,
        kind,
        group,
    }
}
