//! The fields of a message in the caller's list: those of the iterator, but faster, since its state stays in registers.

ghost use Rattle.std.specs.Prelude.{◌≡◌, ◌≤◌, ◌<◌, ◌+◌, ◌++◌, length, map, drop, None};
ghost use Rattle.bgp_fields.specs.declared.part.SectionPart.TheVariants as section;
ghost use Rattle.bgp_fields.specs.declared.part.ValuePart.TheVariants as value;
ghost use Rattle.bgp_fields.specs.FieldIter.{fields_left};
ghost use Rattle.bgp_fields.specs.Fields.{value_fields_in, section_fields_in, message_fields_in};
ghost use Rattle.bgp_fields.specs.steps.Heads.{head_fields};
ghost use Rattle.bgp_fields.specs.steps.Listing.{listed};

use crate::field::{Field, Group};
use crate::head::{Head, attribute_head};
use crate::iter::{FieldIter, field, group_from};
use crate::kind::FieldKind;
use crate::message_plan::message_plan;
use crate::part::{MessagePart, SectionPart, ValuePart};
use crate::reading::Reading;
use crate::section_plan::{attribute_value, section_plan};
use crate::value_plan::value_plan;

/// The type of the entries of a list of fields.
pub trait Listed: Copy {
    ghost use Rattle.bgp_fields.specs.declared.field.Field.{Field};

    /// The entry of a field.
    ghost told: { Field → Self };

    /// Makes the entry of a field.
    fn of(field: Field) -> Self
        ensures { result ≡ told field };
}

/// Lists the fields of a value after the first `count` entries. Returns the number of entries used.
fn list_value<T: Listed>(
    reading: &Reading,
    part: ValuePart,
    at: usize,
    group: Option<Group>,
    octets: &[u8],
    list: &mut [T],
    count: usize,
) -> usize
    requires few { count ≤ at }
    requires short { at + length octets.now ≤ 4096 }
    requires room { count + length (value_fields_in reading.now part at group octets.now) ≤ length list.old }
    ensures list { list.new ≡ listed count (map T.told (value_fields_in reading.now part at group octets.now)) list.old }
    ensures count { result ≡ count + length (value_fields_in reading.now part at group octets.now) }
    // Each field has at least one octet.
    ensures few { result ≤ at + length octets.now }
{
    let mut next = part;
    let mut place = at;
    let mut holder = group;
    let mut left = octets;
    let mut taken = count;
    'value: while !left.is_empty() {
        let plan = value_plan(reading, next, left).fit(left.len());
        let (_, rest) = left.split_at(plan.len);
        holder = group_from(place, plan.begins, holder);
        list[taken] = T::of(field(place, plan.len, plan.kind, holder));
        taken += 1;
        place += plan.len;
        next = plan.next;
        left = rest;
    }
    taken
}

/// Lists the fields of a value where those like the first follow one another. Returns the number of entries used.
fn list_row<T: Listed>(
    reading: &Reading,
    part: ValuePart,
    first: Field,
    octets: &[u8],
    list: &mut [T],
    count: usize,
) -> usize
    requires row { part ≡ value.Row first.kind first.len }
    requires some { 0 < first.len }
    requires few { count ≤ first.at }
    requires short { first.at + length octets.now ≤ 4096 }
    requires room { count + length (value_fields_in reading.now part first.at first.group octets.now) ≤ length list.old }
    ensures list { list.new ≡ listed count (map T.told (value_fields_in reading.now part first.at first.group octets.now)) list.old }
    ensures count { result ≡ count + length (value_fields_in reading.now part first.at first.group octets.now) }
    ensures few { result ≤ first.at + length octets.now }
{
    let width = usize::from(first.len);
    let mut at = first.at;
    let mut left = octets;
    let mut taken = count;
    'row: while width <= left.len() {
        let (_, rest) = left.split_at(width);
        list[taken] = T::of(Field { at, ..first });
        taken += 1;
        at += first.len;
        left = rest;
    }
    list_value(
        reading,
        part,
        usize::from(at),
        first.group,
        left,
        list,
        taken,
    )
}

/// Lists the fields inside an attribute or a parameter after the first `count` entries. Returns the number of entries used.
#[inline(always)]
fn list_inside<T: Listed>(
    reading: &Reading,
    part: ValuePart,
    at: usize,
    group: Option<Group>,
    octets: &[u8],
    list: &mut [T],
    count: usize,
) -> usize
    requires few { count ≤ at }
    requires short { at + length octets.now ≤ 4096 }
    requires room { count + length (value_fields_in reading.now part at group octets.now) ≤ length list.old }
    ensures list { list.new ≡ listed count (map T.told (value_fields_in reading.now part at group octets.now)) list.old }
    ensures count { result ≡ count + length (value_fields_in reading.now part at group octets.now) }
    ensures few { result ≤ at + length octets.now }
{
    if octets.is_empty() {
        return count;
    }
    match part {
        ValuePart::Row(kind, width) if width > 0 => {
            let first = field(at, usize::from(width), kind, group);
            list_row(reading, part, first, octets, list, count)
        }
        _ => list_value(reading, part, at, group, octets, list, count),
    }
}

/// Lists the fields of a section, one by one, after the first `count` entries. Returns the number of entries used.
fn list_any_section<T: Listed>(
    reading: &Reading,
    part: SectionPart,
    at: usize,
    group: Option<Group>,
    octets: &[u8],
    list: &mut [T],
    count: usize,
) -> usize
    requires few { count ≤ at }
    requires short { at + length octets.now ≤ 4096 }
    requires room { count + length (section_fields_in reading.now part at group octets.now) ≤ length list.old }
    ensures list { list.new ≡ listed count (map T.told (section_fields_in reading.now part at group octets.now)) list.old }
    ensures count { result ≡ count + length (section_fields_in reading.now part at group octets.now) }
    // Each field has at least one octet.
    ensures few { result ≤ at + length octets.now }
{
    let mut next = part;
    let mut place = at;
    let mut holder = group;
    let mut left = octets;
    let mut taken = count;
    'section: while !left.is_empty() {
        let plan = section_plan(reading, next, left).fit(left.len());
        let (_, behind) = left.split_at(plan.len);
        let (inside, rest) = behind.split_at(plan.inner_len);
        holder = group_from(place, plan.begins, holder);
        list[taken] = T::of(field(place, plan.len, plan.kind, holder));
        place += plan.len;
        taken = list_inside(reading, plan.inner, place, holder, inside, list, taken + 1);
        place += plan.inner_len;
        next = plan.next;
        left = rest;
    }
    taken
}

/// Lists the flags, the type and the length of an attribute after the first `count` entries.
#[inline(always)]
fn list_head<T: Listed>(at: usize, head: &Head<'_>, list: &mut [T], count: usize)
    requires few { count ≤ at }
    requires short { at + 2 + head.now.width ≤ 4096 }
    requires room { count + 3 ≤ length list.old }
    ensures { list.new ≡ listed count (map T.told (head_fields at head.now.kind head.now.width)) list.old }
{
    let group = group_from(at, Some(head.kind), None);
    list[count] = T::of(field(at, 1, FieldKind::AttributeFlags, group));
    list[count + 1] = T::of(field(at + 1, 1, FieldKind::AttributeType, group));
    list[count + 2] = T::of(field(at + 2, head.width, FieldKind::AttributeLength, group));
}

/// Lists the fields of path attributes after the first `count` entries. Returns the number of entries used.
fn list_attributes<T: Listed>(
    reading: &Reading,
    at: usize,
    group: Option<Group>,
    octets: &[u8],
    list: &mut [T],
    count: usize,
) -> usize
    requires few { count ≤ at }
    requires short { at + length octets.now ≤ 4096 }
    requires room { count + length (section_fields_in reading.now section.AttributeFlags at group octets.now) ≤ length list.old }
    ensures list { list.new ≡ listed count (map T.told (section_fields_in reading.now section.AttributeFlags at group octets.now)) list.old }
    ensures count { result ≡ count + length (section_fields_in reading.now section.AttributeFlags at group octets.now) }
    ensures few { result ≤ at + length octets.now }
{
    let mut place = at;
    let mut holder = group;
    let mut left = octets;
    let mut taken = count;
    'attributes: while let Some(head) = attribute_head(left) {
        list_head(place, &head, list, taken);
        holder = group_from(place, Some(head.kind), None);
        place += 2 + head.width;
        let part = attribute_value(&reading.ctx, head.kind);
        taken = list_inside(reading, part, place, holder, head.value, list, taken + 3);
        place += head.value.len();
        left = head.rest;
    }
    // What is left isn't a whole attribute.
    list_any_section(
        reading,
        SectionPart::AttributeFlags,
        place,
        holder,
        left,
        list,
        taken,
    )
}

/// Lists the fields of a section after the first `count` entries. Returns the number of entries used.
#[inline(always)]
fn list_section<T: Listed>(
    reading: &Reading,
    part: SectionPart,
    at: usize,
    group: Option<Group>,
    octets: &[u8],
    list: &mut [T],
    count: usize,
) -> usize
    requires few { count ≤ at }
    requires short { at + length octets.now ≤ 4096 }
    requires room { count + length (section_fields_in reading.now part at group octets.now) ≤ length list.old }
    ensures list { list.new ≡ listed count (map T.told (section_fields_in reading.now part at group octets.now)) list.old }
    ensures count { result ≡ count + length (section_fields_in reading.now part at group octets.now) }
    ensures few { result ≤ at + length octets.now }
{
    if octets.is_empty() {
        return count;
    }
    match part {
        SectionPart::AttributeFlags => list_attributes(reading, at, group, octets, list, count),
        _ => list_any_section(reading, part, at, group, octets, list, count),
    }
}

/// Lists the fields of a message after the first `count` entries. Returns the number of entries used.
fn list_message<T: Listed>(
    reading: &Reading,
    part: MessagePart,
    at: usize,
    octets: &[u8],
    list: &mut [T],
    count: usize,
) -> usize
    requires few { count ≤ at }
    requires short { at + length octets.now ≤ 4096 }
    requires room { count + length (message_fields_in reading.now part at None octets.now) ≤ length list.old }
    ensures list { list.new ≡ listed count (map T.told (message_fields_in reading.now part at None octets.now)) list.old }
    ensures count { result ≡ count + length (message_fields_in reading.now part at None octets.now) }
{
    let mut next = part;
    let mut place = at;
    let mut left = octets;
    let mut taken = count;
    'message: while !left.is_empty() {
        let plan = message_plan(reading.paths, next, left).fit(left.len());
        let (_, behind) = left.split_at(plan.len);
        let (inside, rest) = behind.split_at(plan.inner_len);
        list[taken] = T::of(field(place, plan.len, plan.kind, None));
        place += plan.len;
        taken = list_section(reading, plan.inner, place, None, inside, list, taken + 1);
        place += plan.inner_len;
        next = plan.next;
        left = rest;
    }
    taken
}

impl<'a> FieldIter<'a> {
    /// Writes the fields that are left to the first entries of a list, which has room for them. Returns their number.
    pub fn list<T: Listed>(self, list: &mut [T]) -> usize
        requires { length (fields_left self) ≤ length list.old }
        ensures list { list.new ≡ map T.told (fields_left self.entry) ++ drop (length (fields_left self.entry)) list.old }
        ensures count { result ≡ length (fields_left self.entry) }
    {
        let reading = self.reading;
        let behind = self.at + self.value_octets.len();
        let taken = list_value(
            &reading,
            self.value,
            self.at,
            self.value_group,
            self.value_octets,
            list,
            0,
        );
        let taken = list_section(
            &reading,
            self.section,
            behind,
            self.section_group,
            self.section_octets,
            list,
            taken,
        );
        let behind = behind + self.section_octets.len();
        list_message(
            &reading,
            self.message,
            behind,
            self.message_octets,
            list,
            taken,
        )
    }
}
