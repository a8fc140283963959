//! Summary of the attribute verdicts.

ghost use Rattle.std.specs.Prelude.{◌≡◌, ℕ, Bool, ◌≤◌, false, true, [], length};
ghost use Rattle.bgp_attr.specs.Prelude.{decided, is_recognised, judgement, keeps, ruled, type_row};
ghost use Rattle.bgp_attr.specs.declared.attr.Attr.{Attr};
ghost use Rattle.bgp_update.specs.Prelude.{known_of, known_value, field_marks, types_of_field, attrs_of, kept_of, is_noted, summary_value, summary_behind, summary_of};
ghost use Rattle.bgp_wire.specs.Prelude.{also, has_octet, none_of_them};

use crate::kept_view::KeptView;
use crate::malformed::{cut, repeated};
use bgp_attr::{
    Ruling, Tail, Tlv, TlvIter, attribute_reset, is_recognised, rule_other, rule_recognised, tlv_at,
};
use bgp_frame::NotificationView;
use bgp_open::Context;
use bgp_wire::OctetSet;

/// Summary of the attribute verdicts of a field.
#[derive(Clone, Copy)]
pub(crate) struct Summary<'a> {
    /// The attributes that are kept, by offset.
    pub(crate) kept: KeptView<'a>,
    /// The first reset.
    pub(crate) reset: Option<NotificationView<'a>>,
    /// Because of an attribute, the message is treated as a withdrawal.
    pub(crate) withdraws: bool,
    /// An attribute has a note.
    pub(crate) notes: bool,
}

impl<'a> Summary<'a> {
    ghost use Rattle.std.specs.Prelude.{List, Some};
    ghost use Rattle.bgp_attr.specs.Tlv.{TlvValue};
    ghost use Rattle.bgp_attr.specs.TlvIter.{tlv_at};
    ghost use Rattle.bgp_attr.specs.TlvView.{tlv_value, IsTail};
    ghost use Rattle.bgp_update.specs.KeptView.{saw, AreOf};
    ghost use Rattle.bgp_update.specs.Marks.{cut_mark, judged_behind, repeated};
    ghost use Rattle.bgp_update.specs.Summary.{seen_by, Adds};

    /// No verdicts, of a field that is to be judged in a context.
    #[inline(always)]
    pub(crate) fn new(ctx: &Context, has_nlri: bool, field: &'a [u8]) -> Summary<'a>
        ensures value { summary_value result ≡ summary_of [] }
        ensures seen { saw result.kept ≡ none_of_them }
        ensures of { AreOf result.kept ctx.now has_nlri field.now }
    {
        Summary {
            kept: KeptView::new(ctx, has_nlri, field),
            reset: None,
            withdraws: false,
            notes: false,
        }
    }

    /// Records a rejected attribute of these octets.
    #[inline(always)]
    fn refuse(&mut self, whole: &'a [u8], ruling: Ruling)
        requires refuses { keeps ruling ≡ false }
        requires short { length whole.now ≤ 4075 }
        ensures adds { (a : Attr) → Adds self.old (ruled ruling whole.now a) self.new }
        ensures of { self.new.kept ≡ self.old.kept }
    {
        match ruling {
            Ruling::Keep => unreachable!(),
            Ruling::Discard(_) => self.notes = true,
            Ruling::Withdraw(_) => {
                self.notes = true;
                self.withdraws = true;
            }
            Ruling::Reset(subcode) => {
                let reset = attribute_reset(subcode, whole);
                self.reset = self.reset.or(Some(reset));
            }
        }
    }

    /// Records a repeated attribute of a recognised type.
    #[inline(always)]
    fn repeat(&mut self, tlv: &Tlv<'a>)
        requires seen { saw self.old.kept tlv.now.kind ≡ true }
        requires short { length tlv.now.whole.now ≤ 4075 }
        ensures adds { Adds self.old (repeated tlv.now.kind) self.new }
        ensures seen { saw self.new.kept ≡ also tlv.now.kind (saw self.old.kept) }
        ensures of { AreOf self.new.kept self.old.kept.ctx self.old.kept.has_nlri self.old.kept.field.now }
    {
        self.refuse(tlv.whole, repeated(tlv.kind));
    }

    /// Records the first attribute of the field of a recognised type, by its ruling.
    #[inline(always)]
    fn add_first(&mut self, tlv: &Tlv<'a>, ruling: Ruling)
        requires known { is_recognised tlv.now.kind ≡ true }
        requires first { saw self.old.kept tlv.now.kind ≡ false }
        requires rules { (a : Attr) → ruled ruling tlv.now.whole.now a ≡ decided (type_row self.old.kept.ctx self.old.kept.has_nlri (tlv_value tlv.now)).tests a }
        requires there { tlv_at self.old.kept.field.now tlv.now.at ≡ Some (tlv_value tlv.now) }
        requires small { (tlv.now.at ≤ 4075) × (length tlv.now.whole.now ≤ 4075) }
        requires short { length self.old.kept.field.now ≤ 4075 }
        ensures adds { Adds self.old (judgement self.old.kept.ctx self.old.kept.has_nlri (tlv_value tlv.now)) self.new }
        ensures seen { saw self.new.kept ≡ also tlv.now.kind (saw self.old.kept) }
        ensures of { AreOf self.new.kept self.old.kept.ctx self.old.kept.has_nlri self.old.kept.field.now }
    {
        match ruling {
            Ruling::Keep => self.kept.put(tlv),
            ruling => {
                self.kept.pass(tlv.kind);
                self.refuse(tlv.whole, ruling);
            }
        }
    }

    /// Records an attribute of an unrecognised type; `seen` has those before it.
    #[inline(always)]
    fn add_other(&mut self, tlv: &Tlv<'a>, seen: &mut OctetSet)
        requires other { is_recognised tlv.now.kind ≡ false }
        requires short { length tlv.now.whole.now ≤ 4075 }
        ensures adds { Adds self.old (judged_behind self.old.kept.ctx self.old.kept.has_nlri (has_octet seen.old) (tlv_value tlv.now)) self.new }
        ensures seen { has_octet seen.new ≡ also tlv.now.kind (has_octet seen.old) }
        ensures same { saw self.new.kept ≡ saw self.old.kept }
        ensures of { AreOf self.new.kept self.old.kept.ctx self.old.kept.has_nlri self.old.kept.field.now }
    {
        let kind = tlv.kind;
        let is_repeated = seen.contains(kind);
        seen.insert(kind);
        if is_repeated {
            self.refuse(tlv.whole, repeated(kind));
            return;
        }
        match rule_other(tlv) {
            Ruling::Keep => self.kept.others = true,
            ruling => self.refuse(tlv.whole, ruling),
        }
    }

    /// The same for the attribute at an offset, which is read there again: so that the common case, recognised types, stays in registers.
    #[inline(never)]
    fn add_other_at(&mut self, at: usize, seen: &mut OctetSet)
        requires other { (t : TlvValue) → tlv_at self.old.kept.field.now at ≡ Some t → (is_recognised t.kind ≡ false) × (length t.whole ≤ 4075) }
        ensures adds { (t : TlvValue) → tlv_at self.old.kept.field.now at ≡ Some t
            → Adds self.old (judged_behind self.old.kept.ctx self.old.kept.has_nlri (has_octet seen.old) t) self.new × (has_octet seen.new ≡ also t.kind (has_octet seen.old)) }
        ensures same { saw self.new.kept ≡ saw self.old.kept }
        ensures of { AreOf self.new.kept self.old.kept.ctx self.old.kept.has_nlri self.old.kept.field.now }
    {
        if let Some(tlv) = tlv_at(self.kept.field, at) {
            self.add_other(&tlv, seen);
        }
    }

    /// Records an attribute of the field, judged if it is the first of its type; `others` has the unrecognised types before it.
    #[inline(always)]
    fn add(&mut self, tlv: &Tlv<'a>, others: &mut OctetSet)
        requires there { tlv_at self.old.kept.field.now tlv.now.at ≡ Some (tlv_value tlv.now) }
        requires small { (tlv.now.at ≤ 4075) × (length tlv.now.whole.now ≤ 4075) }
        requires short { length self.old.kept.field.now ≤ 4075 }
        ensures adds { Adds self.old (judged_behind self.old.kept.ctx self.old.kept.has_nlri (seen_by self.old.kept others.old) (tlv_value tlv.now)) self.new }
        ensures seen { seen_by self.new.kept others.new ≡ also tlv.now.kind (seen_by self.old.kept others.old) }
        ensures of { AreOf self.new.kept self.old.kept.ctx self.old.kept.has_nlri self.old.kept.field.now }
    {
        // Mostly it is the first of a recognised type: one `match` on the type decides.
        if self.kept.saw(tlv.kind) && is_recognised(tlv.kind) {
            self.repeat(tlv);
            return;
        }
        match rule_recognised(&self.kept.ctx, self.kept.has_nlri, tlv) {
            Some(ruling) => self.add_first(tlv, ruling),
            None => self.add_other_at(tlv.at, others),
        }
    }

    /// Records what follows the whole attributes, if anything.
    #[inline(always)]
    fn add_tail(&mut self, tail: Tail<'a>)
        ensures adds { (rest : List ℕ) (at : ℕ) → IsTail rest tail.entry → summary_value self.new ≡ summary_behind (summary_value self.old) (cut_mark at rest) }
        ensures same { self.new.kept ≡ self.old.kept }
    {
        if let Tail::Cut(rest) = tail {
            self.refuse(&[], cut(rest));
        }
    }

    /// Summarises the verdicts of a field of at most 4075 octets; earlier content is lost.
    #[inline(never)]
    pub(crate) fn sum_up(&mut self, ctx: &Context, has_nlri: bool, field: &'a [u8])
        requires { length field.now ≤ 4075 }
        ensures marks { summary_value self.new ≡ summary_of (field_marks ctx.now has_nlri field.now) }
        ensures known { known_value self.new.kept ≡ known_of (attrs_of (kept_of (field_marks ctx.now has_nlri field.now))) }
        ensures types { (kind : ℕ) → is_recognised kind ≡ true → saw self.new.kept kind ≡ types_of_field field.now kind }
    {
        *self = Summary::new(ctx, has_nlri, field);
        let mut others = OctetSet::new();
        let mut tlvs = TlvIter::new(field);
        'field: while let Some(tlv) = tlvs.next() {
            self.add(&tlv, &mut others);
        }
        self.add_tail(tlvs.tail());
    }
}
