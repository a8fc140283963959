//! Plans of the next field, fitted to the octets that are left.

ghost use Rattle.std.specs.Prelude.{◌≡◌};
ghost use Rattle.bgp_fields.specs.declared.kind.FieldKind.TheVariants.{Unread};
ghost use Rattle.bgp_fields.specs.declared.part.ValuePart.TheVariants as value;
ghost use Rattle.bgp_fields.specs.declared.part.SectionPart.TheVariants as section;
ghost use Rattle.bgp_fields.specs.declared.part.MessagePart.TheVariants as message;
ghost use Rattle.bgp_fields.specs.Prelude.{value_planned, section_planned, message_planned, fit};

use crate::kind::FieldKind;
use crate::part::{MessagePart, SectionPart, ValuePart};

/// A field of a value, and what follows it.
#[derive(Clone, Copy)]
pub(crate) struct ValuePlan {
    pub(crate) kind: FieldKind,
    pub(crate) len: usize,
    pub(crate) begins: Option<u8>,
    pub(crate) next: ValuePart,
}

/// A field of a section, the octets inside, and what follows these.
#[derive(Clone, Copy)]
pub(crate) struct SectionPlan {
    pub(crate) kind: FieldKind,
    pub(crate) len: usize,
    pub(crate) begins: Option<u8>,
    pub(crate) inner: ValuePart,
    pub(crate) inner_len: usize,
    pub(crate) next: SectionPart,
}

/// A field of a message, the octets of the section after it, and what follows these.
#[derive(Clone, Copy)]
pub(crate) struct MessagePlan {
    pub(crate) kind: FieldKind,
    pub(crate) len: usize,
    pub(crate) inner: SectionPart,
    pub(crate) inner_len: usize,
    pub(crate) next: MessagePart,
}

impl ValuePlan {
    /// The plan where this number of octets is left.
    pub(crate) fn fit(self, left: usize) -> ValuePlan
        ensures { value_planned result ≡ fit (value.All Unread) (value_planned self) left }
    {
        if self.len > 0 && self.len <= left {
            return self;
        }
        ValuePlan {
            kind: FieldKind::Unread,
            len: left,
            begins: None,
            next: ValuePart::All(FieldKind::Unread),
        }
    }
}

impl SectionPlan {
    /// The plan where this number of octets is left.
    pub(crate) fn fit(self, left: usize) -> SectionPlan
        ensures { section_planned result ≡ fit (section.All Unread) (section_planned self) left }
    {
        let mut plan = self;
        if plan.len == 0 || plan.len > left {
            plan.kind = FieldKind::Unread;
            plan.len = left;
            plan.begins = None;
        } else if plan.inner_len <= left - plan.len {
            return plan;
        }
        plan.inner_len = 0;
        plan.next = SectionPart::All(FieldKind::Unread);
        plan
    }
}

impl MessagePlan {
    /// The plan where this number of octets is left.
    pub(crate) fn fit(self, left: usize) -> MessagePlan
        ensures { message_planned result ≡ fit (message.All Unread) (message_planned self) left }
    {
        let mut plan = self;
        if plan.len == 0 || plan.len > left {
            plan.kind = FieldKind::Unread;
            plan.len = left;
        } else if plan.inner_len <= left - plan.len {
            return plan;
        }
        plan.inner_len = 0;
        plan.next = MessagePart::All(FieldKind::Unread);
        plan
    }
}
