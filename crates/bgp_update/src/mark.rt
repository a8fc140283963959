//! The judgement of each attribute of a field, one after another.

ghost use Rattle.std.specs.Prelude.{◌≡◌, ◌≤◌, false, true, length};
ghost use Rattle.std.specs.List.{list_all};
ghost use Rattle.bgp_attr.specs.Prelude.{decided, keeps, ruled, tlv_value, tlvs_left, type_row};
ghost use Rattle.bgp_attr.specs.declared.attr.Attr.{Attr};
ghost use Rattle.bgp_update.specs.steps.Small.{is_small};

use crate::malformed::{cut, cut_kind, repeated, unkept};
use bgp_attr::{FoundAttr, Ruling, Tail, Tlv, TlvIter, rule, with_value};
use bgp_open::Context;
use bgp_wire::OctetSet;
use std::iter::FusedIterator;

/// A mark: an attribute's offset in the field, its type, and its judgement.
#[derive(Clone, Copy)]
pub(crate) struct MarkView<'a> {
    pub(crate) at: usize,
    pub(crate) kind: u8,
    pub(crate) judged: FoundAttr<'a>,
    pub(crate) ghost small: { at ≤ 4075 },
}

/// The same, without the value of what is kept.
#[derive(Clone, Copy)]
pub(crate) struct RuledMark {
    pub(crate) at: usize,
    pub(crate) kind: u8,
    pub(crate) ruling: Ruling,
    pub(crate) ghost small: { at ≤ 4075 },
}

/// The marks of a field: of its attributes by offset, then of one that is cut off. It allocates nothing.
#[derive(Clone, Copy)]
pub(crate) struct MarkIter<'a> {
    ctx: Context,
    has_nlri: bool,
    seen: OctetSet,
    tlvs: TlvIter<'a>,
    len: usize,
    is_done: bool,
    ghost short: { len ≤ 4075 },
    ghost small: { list_all is_small (tlvs_left tlvs) ≡ true },
}

/// Judges the first attribute of its type, without its value. A call of its own keeps the loop over repeated attributes in registers.
#[inline(never)]
fn rule_first(ctx: Context, has_nlri: bool, tlv: Tlv<'_>) -> Ruling
    ensures { (a : Attr) → ruled result tlv.entry.whole.now a ≡ decided (type_row ctx has_nlri (tlv_value tlv.entry)).tests a }
{
    rule(&ctx, has_nlri, &tlv)
}

impl<'a> MarkIter<'a> {
    ghost use Rattle.std.specs.Prelude.{[], ◌∷◌, IfSome, IsTrue, MatchOption};
    ghost use Rattle.bgp_attr.specs.Judgement.{judgement};
    ghost use Rattle.bgp_attr.specs.JudgedView.{is_kept};
    ghost use Rattle.bgp_attr.specs.TlvView.{placed_tlv};
    ghost use Rattle.std.specs.Iterator.{YieldsFirstBy};
    ghost use Rattle.bgp_update.specs.Marks.{field_marks};
    ghost use Rattle.bgp_update.specs.MarkIter.{cut_value, marks_left, marks_with, judged_next, IsRuledNext};

    /// The marks of a field of at most 4075 octets.
    #[tactic(auto, using(crate::proofs::SmallLemmas::field_small), unfolding(crate::specs::Marks::field_marks))]
    pub(crate) fn new(ctx: &Context, has_nlri: bool, field: &'a [u8]) -> MarkIter<'a>
        requires { length field.now ≤ 4075 }
        ensures { marks_left result ≡ field_marks ctx.now has_nlri field.now }
    {
        MarkIter {
            ctx: *ctx,
            has_nlri,
            seen: OctetSet::new(),
            tlvs: TlvIter::new(field),
            len: field.len(),
            is_done: false,
        }
    }

    /// Judges the whole attribute that was read, without its value.
    #[inline(always)]
    fn rule(&mut self, tlv: &Tlv<'a>) -> Ruling
        requires { length tlv.now.whole.now ≤ 4075 }
        ensures judged { ruled result tlv.now.whole.now (type_row self.old.ctx self.old.has_nlri (tlv_value tlv.now)).value ≡ judged_next self.old (placed_tlv tlv.now) }
        ensures kept { keeps result ≡ true → IsTrue (is_kept (judgement self.old.ctx self.old.has_nlri (tlv_value tlv.now))) }
        ensures marks { marks_with self.old (placed_tlv tlv.now ∷ tlvs_left self.old.tlvs)
            ≡ record { at = tlv.now.at; kind = tlv.now.kind; judged = judged_next self.old (placed_tlv tlv.now) } ∷ marks_left self.new }
        ensures of { (self.new.ctx ≡ self.old.ctx) × (self.new.has_nlri ≡ self.old.has_nlri) }
    {
        let kind = tlv.kind;
        let is_repeated = self.seen.contains(kind);
        self.seen.insert(kind);
        if is_repeated {
            repeated(kind)
        } else {
            rule_first(self.ctx, self.has_nlri, *tlv)
        }
    }

    /// The mark of an attribute that is cut off, which is never kept, once no whole one is left: it is the last.
    #[inline(always)]
    fn next_cut(&mut self) -> Option<RuledMark>
        requires { tlvs_left self.old.tlvs ≡ [] }
        ensures steps { YieldsFirstBy cut_value marks_left self.old result self.new }
        ensures refused { IfSome result (λ m. keeps m.ruling ≡ false) }
    {
        if self.is_done {
            return None;
        }
        self.is_done = true;
        match self.tlvs.tail() {
            Tail::End => None,
            Tail::Cut(rest) => Some(RuledMark {
                at: self.len.saturating_sub(rest.len()),
                kind: cut_kind(rest),
                ruling: cut(rest),
            }),
        }
    }

    /// The next mark, without the value of what is kept.
    #[inline(always)]
    pub(crate) fn next_ruled(&mut self) -> Option<RuledMark>
        ensures { MatchOption result ((marks_left self.old ≡ []) × (marks_left self.new ≡ [])) (λ m. IsRuledNext self.old m self.new) }
    {
        match self.tlvs.next() {
            None => self.next_cut(),
            Some(tlv) => Some(RuledMark {
                at: tlv.at,
                kind: tlv.kind,
                ruling: self.rule(&tlv),
            }),
        }
    }
}

impl<'a> Iterator for MarkIter<'a> {
    ghost use Rattle.std.specs.Iterator.{YieldsFirstBy, item_count};
    ghost use Rattle.bgp_update.specs.MarkIter.{mark_value, marks_left};

    type Item = MarkView<'a>;

    ghost next_gives = { YieldsFirstBy mark_value marks_left };

    ghost remaining = { item_count marks_left };

    fn next(&mut self) -> Option<MarkView<'a>> {
        match self.tlvs.next() {
            Some(tlv) => {
                let ruling = self.rule(&tlv);
                Some(MarkView {
                    at: tlv.at,
                    kind: tlv.kind,
                    judged: with_value(&self.ctx, self.has_nlri, &tlv, ruling),
                })
            }
            None => {
                let cut = self.next_cut()?;
                Some(MarkView {
                    at: cut.at,
                    kind: cut.kind,
                    judged: unkept(cut.ruling),
                })
            }
        }
    }
}

impl<'a> FusedIterator for MarkIter<'a> {}
