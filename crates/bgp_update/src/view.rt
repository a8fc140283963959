//! The verdict on an UPDATE, from borrowed octets.

ghost use Rattle.std.specs.Prelude.{◌≡◌, ◌≤◌, ◌+◌, [], length, option_map};
ghost use Rattle.std.specs.List.{list_any};
ghost use Rattle.bgp_update.specs.Body.{parts_value};
ghost use Rattle.bgp_update.specs.KeptView.{known_of, known_value};
ghost use Rattle.bgp_update.specs.Marks.{marks_of};
ghost use Rattle.bgp_attr.specs.Prelude.{reach_value};
ghost use Rattle.bgp_update.specs.Notes.{has_routes, is_missing, is_reachable, missing_of};
ghost use Rattle.bgp_update.specs.Summary.{is_noted, summary_value, summary_of};
ghost use Rattle.bgp_update.specs.Fields.{is_opaque};
ghost use Rattle.bgp_update.specs.Taken.{attrs_of, kept_of, update_of};

use crate::add_routes::own_routes;
use crate::attr_iter::AttrIter;
use crate::body::Body;
use crate::by_type::ByType;
use crate::kept_view::KeptView;
use crate::mark::MarkIter;
use crate::missing::{Missing, missing_in};
use crate::note::Note;
use crate::note_iter::NoteIter;
use crate::others::{others_in, own_others, row_of};
use crate::routes::Routes;
use crate::routes_view::RoutesView;
use crate::summary::Summary;
use crate::update::Update;
use bgp_attr::{MpReachView, MpUnreachView, Opaque, OpaqueView};
use bgp_frame::Notification;
use bgp_open::Context;
use bgp_prefix::PrefixIter4;
use bgp_wire::{List, are_octets};
use std::alloc::{AllocError, Global};

/// The body of an UPDATE that is accepted or treated as a withdrawal, borrowed. Only calls with an `alloc` allocate.
#[derive(Clone, Copy)]
pub struct UpdateView<'a> {
    ctx: Context,
    body: Body<'a>,
    missing: Missing,
    pub(crate) summary: Summary<'a>,
    ghost short: { length body.withdrawn.now + length body.attributes.now ≤ 4073 },
    ghost misses: { missing ≡ missing_of (parts_value body) (marks_of ctx (parts_value body)) },
    ghost known: { known_value summary.kept ≡ known_of (attrs_of (kept_of (marks_of ctx (parts_value body)))) },
    ghost others: { summary.kept.others ≡ list_any is_opaque (kept_of (marks_of ctx (parts_value body))) },
    ghost noted: { summary.notes ≡ list_any (λ m. is_noted m.judged) (marks_of ctx (parts_value body)) },
}

/// The verdict on the body of an UPDATE (RFC 7606, section 3), borrowed.
#[derive(Drop)]
pub enum View<'a> {
    /// It is accepted with the attributes that are kept.
    Take(UpdateView<'a>),
    /// It is treated as a withdrawal of all its routes (treat-as-withdraw).
    Withdraw(UpdateView<'a>),
    /// The session ends with this NOTIFICATION.
    Reset(Notification),
}

/// An attribute field of at most this length holds few attributes of types that aren't recognised.
const FEW_OCTETS: usize = 256;

/// Whether an MP_REACH_NLRI has a route.
fn has_routes(reach: &Option<MpReachView<'_>>) -> bool
    ensures { result ≡ has_routes (option_map reach_value reach.now) }
{
    match reach {
        None => false,
        Some(MpReachView::Ip4 { nlri, .. }) => nlri.has_next(),
        Some(MpReachView::Ip6 { nlri, .. }) => nlri.has_next(),
    }
}

impl<'a> UpdateView<'a> {
    ghost use Rattle.bgp_prefix.specs.PrefixIter.{prefixes_left};
    ghost use Rattle.bgp_update.specs.View.{update_value, view_marks};

    /// A view of an UPDATE without routes and attributes: a buffer for [`judge`](UpdateView::judge).
    #[inline(always)]
    pub fn empty() -> UpdateView<'a>
        ensures { update_value result ≡ update_of (record { withdrawn = []; attributes = []; nlri = [] }) [] }
    {
        let ctx = Context {
            internal: false,
            as4: false,
            ip4: false,
            ip6: false,
            hold: 0,
        };
        UpdateView {
            ctx,
            body: Body {
                withdrawn: &[],
                attributes: &[],
                nlri: &[],
            },
            missing: Missing::none(),
            summary: Summary::new(&ctx, false, &[]),
        }
    }

    /// Views a body in a context; what was viewed before is lost.
    #[inline(always)]
    pub(crate) fn fill(&mut self, ctx: &Context, body: Body<'a>)
        requires { length body.withdrawn.now + length body.attributes.now ≤ 4073 }
        ensures ctx { self.new.ctx ≡ ctx.now }
        ensures body { self.new.body ≡ body.entry }
        ensures sums { summary_value self.new.summary ≡ summary_of (marks_of ctx.now (parts_value body.entry)) }
    {
        let has_nlri = !body.nlri.is_empty();
        self.summary.sum_up(ctx, has_nlri, body.attributes);
        let reaches = has_nlri || has_routes(&self.summary.kept.reach());
        self.missing = missing_in(reaches, has_nlri, &self.summary.kept);
        self.ctx = *ctx;
        self.body = body;
    }

    /// Whether routes are announced.
    #[inline(always)]
    pub(crate) fn reaches(&self) -> bool
        ensures { result ≡ is_reachable (parts_value self.now.body) (view_marks self.now) }
    {
        !self.body.nlri.is_empty() || has_routes(&self.summary.kept.reach())
    }

    /// Whether a mandatory attribute of the message is missing.
    #[inline(always)]
    pub(crate) fn is_missing(&self) -> bool
        ensures { result ≡ is_missing (missing_of (parts_value self.now.body) (view_marks self.now)) }
    {
        self.missing.origin || self.missing.as_path || self.missing.next_hop
    }

    /// The prefixes of Withdrawn Routes.
    pub fn withdrawn(&self) -> PrefixIter4<'a>
        ensures { prefixes_left result ≡ (update_value self.now).withdrawn }
    {
        PrefixIter4::new(self.body.withdrawn)
    }

    /// The prefixes of the NLRI field.
    pub fn nlri(&self) -> PrefixIter4<'a>
        ensures { prefixes_left result ≡ (update_value self.now).nlri }
    {
        PrefixIter4::new(self.body.nlri)
    }
}

impl<'a> UpdateView<'a> {
    ghost use Rattle.std.specs.Prelude.{ℕ, true, ◌||◌, map, option_map, IfOk, OnErr};
    ghost use Rattle.std.specs.List.{flat_map};
    ghost use Rattle.bgp_attr.specs.AttrView.{opaque_value};
    ghost use Rattle.bgp_attr.specs.MpView.{reach_value, unreach_value};
    ghost use Rattle.bgp_update.specs.ByType.{IsByType};
    ghost use Rattle.bgp_update.specs.Iters.{attrs_left, notes_left};
    ghost use Rattle.bgp_update.specs.MarkIter.{marks_left};
    ghost use Rattle.bgp_update.specs.Notes.{mark_notes};
    ghost use Rattle.bgp_update.specs.View.{view_marks, update_value, notes_value, routes_value};

    /// The marks of the attributes.
    fn marks(&self) -> MarkIter<'a>
        ensures { marks_left result ≡ view_marks self.now }
    {
        MarkIter::new(&self.ctx, !self.body.nlri.is_empty(), self.body.attributes)
    }

    /// The marks that have notes, perhaps among others: none for a message without a note, whose attributes needn't be read again.
    fn noted_marks(&self) -> MarkIter<'a>
        ensures { (at : ℕ) → flat_map (mark_notes at) (marks_left result) ≡ flat_map (mark_notes at) (view_marks self.now) }
    {
        if self.summary.notes {
            self.marks()
        } else {
            MarkIter::new(&self.ctx, false, &[])
        }
    }

    /// The attributes that are kept, by offset.
    pub fn attrs(&self) -> AttrIter<'a>
        ensures { attrs_left result ≡ kept_of (view_marks self.now) }
    {
        AttrIter::new(self.marks())
    }

    /// The notes: each attribute that isn't kept, by offset, the one that is cut off, then what is missing.
    pub fn notes(&self) -> NoteIter<'a>
        ensures { notes_left result ≡ notes_value self.now }
    {
        NoteIter::new(
            4 + self.body.withdrawn.len(),
            self.noted_marks(),
            self.missing,
        )
    }

    /// Whether there are notes.
    fn has_notes(&self) -> bool
        ensures { result ≡ (list_any (λ m. is_noted m.judged) (view_marks self.now) || is_missing (missing_of (parts_value self.now.body) (view_marks self.now))) }
    {
        self.summary.notes || self.is_missing()
    }

    /// The notes, with memory of their own.
    ///
    /// # Errors
    /// `AllocError` where an allocation failed.
    pub fn own_notes(&self, alloc: Global) -> Result<List<Note>, AllocError>
        ensures { IfOk result (λ notes. notes ≡ notes_value self.now) }
    {
        if self.has_notes() {
            Ok(List::from_vec(self.notes().collect(alloc)?))
        } else {
            Ok(List::new(alloc))
        }
    }

    /// The attributes that are kept, each by its type.
    pub fn kept(&self) -> &KeptView<'a>
        ensures known { known_value result.now ≡ known_of (update_value self.now).attrs }
        ensures others { result.now.others ≡ list_any is_opaque (kept_of (view_marks self.now)) }
    {
        &self.summary.kept
    }

    /// The MP_REACH_NLRI that is kept.
    pub fn reach(&self) -> Option<MpReachView<'a>>
        ensures { option_map reach_value result ≡ (update_value self.now).attrs.mp_reach }
    {
        self.summary.kept.reach()
    }

    /// The MP_UNREACH_NLRI that is kept.
    pub fn unreach(&self) -> Option<MpUnreachView<'a>>
        ensures { option_map unreach_value result ≡ (update_value self.now).attrs.mp_unreach }
    {
        self.summary.kept.unreach()
    }

    /// The kept attributes of types that aren't recognised, ascending by type.
    ///
    /// # Errors
    /// `AllocError` where an allocation failed: never where there is none.
    pub fn others(&self, alloc: Global) -> Result<List<OpaqueView<'a>>, AllocError>
        ensures value { IfOk result (λ os. map opaque_value os ≡ (update_value self.now).attrs.others) }
        ensures err { OnErr result (list_any is_opaque (kept_of (view_marks self.now)) ≡ true) }
    {
        if !self.summary.kept.others {
            Ok(List::new(alloc))
        } else if self.body.attributes.len() <= FEW_OCTETS {
            others_in(alloc, self.attrs())
        } else {
            self.sorted_others(alloc)
        }
    }

    /// The same for a field that may have many: each is stored at its type first, since insertion into a row moves those after it.
    fn sorted_others(&self, alloc: Global) -> Result<List<OpaqueView<'a>>, AllocError>
        ensures { IfOk result (λ os. map opaque_value os ≡ (update_value self.now).attrs.others) }
    {
        are_octets(self.body.attributes);
        let mut place = ByType::new();
        self.sort_others(&mut place);
        row_of(alloc, &place)
    }

    /// Stores the kept attributes of types that aren't recognised in a buffer, each at its type. It allocates nothing.
    pub fn sort_others(&self, place: &mut ByType<'a>)
        requires { IsByType place.old [] }
        ensures { IsByType place.new (update_value self.now).attrs.others }
    {
        place.fill(self.attrs());
    }

    /// The kept attributes of types that aren't recognised, with memory of their own.
    fn own_others(&self, alloc: Global) -> Result<List<Opaque>, AllocError>
        ensures { IfOk result (λ os. os ≡ (update_value self.now).attrs.others) }
    {
        let others = self.others(alloc)?;
        own_others(alloc, others.as_slice())
    }

    /// The UPDATE with the attributes that are kept, with memory of its own.
    ///
    /// # Errors
    /// `AllocError` where an allocation failed.
    pub fn own(&self, alloc: Global) -> Result<Update, AllocError>
        ensures { IfOk result (λ u. u ≡ update_value self.now) }
    {
        let withdrawn = own_routes(alloc, self.withdrawn())?;
        let nlri = own_routes(alloc, self.nlri())?;
        let others = self.own_others(alloc)?;
        let attrs = self.summary.kept.own(alloc, others)?;
        Ok(Update {
            withdrawn,
            attrs,
            nlri,
        })
    }

    /// All routes of the message, with memory of their own.
    ///
    /// # Errors
    /// `AllocError` where an allocation failed.
    pub fn routes(&self, alloc: Global) -> Result<Routes, AllocError>
        ensures { IfOk result (λ r. r ≡ routes_value self.now) }
    {
        RoutesView::of(self).own(alloc)
    }
}
