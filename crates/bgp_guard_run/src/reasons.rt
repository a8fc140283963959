//! Why a message was changed, dropped or answered: judged again, only for the log.

ghost use Rattle.std.specs.Prelude.{◌+◌, length};
ghost use Rattle.bgp_frame.specs.Prelude.{IsLength};

use bgp_attr::{AttrView, Why};
use bgp_fields::{Cause, FieldIter, FieldKind, message_cause};
use bgp_frame::{Frame, Kind, Step, front};
use bgp_msg::{OutcomeView, view_frame};
use bgp_names::{attribute_name, capability_name};
use bgp_open::Context;
use bgp_text::{cause_section, note_section, why_name};
use bgp_update::UpdateView;
use bgp_wire::OctetSet;
use std::fmt;

/// At most this many are reported of a message.
pub(crate) const REASONS: usize = 8;

/// What was done with a message.
#[derive(Clone, Copy, PartialEq, Eq)]
pub(crate) enum Deed {
    /// It was passed on with other octets.
    Changed,
    /// Nothing of it was passed on.
    Dropped,
    /// It was answered.
    Answered,
}

/// A message, and what it was judged by.
#[derive(Clone, Copy)]
pub(crate) struct Judged<'a> {
    pub(crate) deed: Deed,
    pub(crate) ctx: Context,
    /// The types of unrecognised attributes that are left out.
    pub(crate) drops: OctetSet,
    /// The octets of the message, as received: at most 4096.
    pub(crate) octets: &'a [u8],
    /// Those that were passed on.
    pub(crate) handed: &'a [u8],
}

/// Why a message wasn't passed on unchanged.
#[derive(Clone, Copy, PartialEq, Eq)]
pub(crate) enum Reason {
    /// A capability isn't understood, and was left out.
    Capability(u8),
    /// An attribute isn't recognised, and was left out.
    Unrecognised(u8),
    /// An attribute is at fault, or missing.
    Attribute(u8, Why),
    /// Its routes are beyond a limit.
    Limit,
    /// What a ROUTE-REFRESH has that isn't passed on.
    Refresh(Unasked),
    /// It was answered for this fault.
    Cause(Cause),
}

/// What a ROUTE-REFRESH has that isn't passed on.
#[derive(Clone, Copy, PartialEq, Eq)]
pub(crate) enum Unasked {
    /// A family that isn't agreed on.
    Family,
    /// A subtype: a request is passed on.
    Subtype,
    /// Octets after the family.
    Rest,
}

impl fmt::Display for Unasked {
    fn fmt<W: fmt::Write>(&self, f: &mut fmt::Formatter<W>) -> fmt::Result {
        f.write_str(match self {
            Unasked::Family => "family not agreed on (RFC 2918, section 4)",
            Unasked::Subtype => "subtype not agreed on (RFC 7313, section 3.1)",
            Unasked::Rest => "octets after the family left out",
        })
    }
}

/// The reasons of a message.
#[derive(Clone, Copy)]
pub(crate) struct Reasons {
    all: [Option<Reason>; REASONS],
    count: usize,
}

// The octet at an offset.
fn octet_at(octets: &[u8], at: usize) -> u8 {
    octets.get(at).copied().unwrap_or(0)
}

// Whether a capability is passed on: 4-octet AS numbers, unicast of IPv4 and IPv6 (RFC 4760, section 8), and ROUTE-REFRESH.
fn is_understood(octets: &[u8], at: usize) -> bool {
    match octet_at(octets, at) {
        65 => true,
        2 => octet_at(octets, at.saturating_add(1)) == 0,
        1 => match octets.get(at.saturating_add(2)..) {
            Some([0, 1 | 2, _, 1, ..]) => true,
            _ => false,
        },
        _ => false,
    }
}

// Whether a message announces a route.
fn announces(outcome: &OutcomeView<'_>) -> bool {
    match outcome {
        OutcomeView::Update(view) => view.reach().is_some() || view.nlri().next().is_some(),
        _ => false,
    }
}

// Whether one of these messages announces routes.
fn are_announced(ctx: &Context, octets: &[u8]) -> bool {
    let mut left = octets;
    for _turn in 0..3 {
        let Step::Frame(frame) = front(left) else {
            break;
        };
        let mut place = UpdateView::empty();
        if announces(&view_frame(ctx, frame, &mut place)) {
            return true;
        }
        left = left.get(usize::from(frame.len)..).unwrap_or(&[]);
    }
    false
}

impl Reasons {
    /// None.
    pub(crate) fn none() -> Reasons {
        Reasons {
            all: [None; REASONS],
            count: 0,
        }
    }

    /// One of them.
    pub(crate) fn get(&self, at: usize) -> Option<Reason> {
        self.all.get(at).copied()?
    }

    // Adds a reason, where it isn't among them yet.
    fn add(&mut self, reason: Reason) {
        for known in self.all.iter() {
            if *known == Some(reason) {
                return;
            }
        }
        if let Some(free) = self.all.get_mut(self.count) {
            *free = Some(reason);
        }
        self.count = self.count.saturating_add(1);
    }

    // The capabilities of an OPEN that were left out.
    fn add_capabilities(&mut self, judged: &Judged<'_>) {
        let Some(octets) = judged.octets.get(..judged.octets.len().min(4096)) else {
            return;
        };
        for field in FieldIter::new(&judged.ctx, octets) {
            let at = usize::from(field.at);
            if field.kind == FieldKind::CapabilityCode && !is_understood(octets, at) {
                self.add(Reason::Capability(octet_at(octets, at)));
            }
        }
    }

    // The attributes of an UPDATE that are at fault, or were left out.
    fn add_attributes(&mut self, drops: &OctetSet, view: &UpdateView<'_>) {
        for note in view.notes() {
            self.add(Reason::Attribute(note.kind, note.why));
        }
        for attr in view.attrs() {
            if let AttrView::Opaque(other) = attr {
                if drops.contains(other.kind) {
                    self.add(Reason::Unrecognised(other.kind));
                }
            }
        }
    }

    // Those of a whole message.
    fn add_frame(&mut self, judged: &Judged<'_>, frame: Frame<'_>)
        requires { IsLength frame.kind (19 + length frame.body.now) }
    {
        let mut place = UpdateView::empty();
        let outcome = view_frame(&judged.ctx, frame, &mut place);
        match outcome {
            OutcomeView::Update(view) | OutcomeView::Withdraw(view) => {
                self.add_attributes(&judged.drops, view);
                if judged.deed == Deed::Changed
                    && announces(&outcome)
                    && !are_announced(&judged.ctx, judged.handed)
                {
                    self.add(Reason::Limit);
                }
            }
            OutcomeView::Open(_) => self.add_capabilities(judged),
            OutcomeView::Reset(_) => {
                if let Some(cause) = message_cause(&judged.ctx, frame) {
                    self.add(Reason::Cause(cause));
                }
            }
            OutcomeView::Notification(_) | OutcomeView::Keepalive => {}
        }
    }

    // Those of a ROUTE-REFRESH that was dropped or changed.
    fn add_refresh(&mut self, judged: &Judged<'_>) {
        let unasked = match judged.deed {
            Deed::Answered => return,
            Deed::Dropped => Unasked::Family,
            Deed::Changed if judged.octets.len() > 23 => Unasked::Rest,
            Deed::Changed => Unasked::Subtype,
        };
        self.add(Reason::Refresh(unasked));
    }

    /// Those of a message.
    pub(crate) fn of(judged: &Judged<'_>) -> Reasons {
        let mut found = Reasons::none();
        if octet_at(judged.octets, 18) == 5 {
            found.add_refresh(judged);
            return found;
        }
        match front(judged.octets) {
            Step::Frame(frame) => found.add_frame(judged, frame),
            Step::Fault(_) => found.add(Reason::Cause(Cause::Header)),
            Step::More => {}
        }
        found
    }
}

// A name, or a number where there is no name.
fn put_name<W: fmt::Write>(
    f: &mut fmt::Formatter<W>,
    what: &str,
    name: &str,
    number: u8,
) -> fmt::Result {
    if name.is_empty() {
        write!(f, "{what} {number}")
    } else {
        f.write_str(name)
    }
}

// The section of the RFC, after the reason, where there is one.
fn put_section<W: fmt::Write>(f: &mut fmt::Formatter<W>, section: &str) -> fmt::Result {
    if section.is_empty() {
        return Ok(());
    }
    write!(f, " ({section})")
}

impl fmt::Display for Reason {
    fn fmt<W: fmt::Write>(&self, f: &mut fmt::Formatter<W>) -> fmt::Result {
        match self {
            Reason::Capability(code) => {
                put_name(f, "capability", capability_name(*code), *code)?;
                f.write_str(" left out")
            }
            Reason::Unrecognised(kind) => {
                put_name(f, "attribute", attribute_name(*kind), *kind)?;
                f.write_str(" left out")
            }
            Reason::Attribute(kind, why) => {
                put_name(f, "attribute", attribute_name(*kind), *kind)?;
                write!(f, " {}", why_name(*why))?;
                put_section(f, note_section(*kind, *why))
            }
            Reason::Limit => f.write_str("beyond a limit"),
            Reason::Refresh(unasked) => write!(f, "{unasked}"),
            Reason::Cause(cause) => f.write_str(cause_section(*cause)),
        }
    }
}

// Reasons in sequence, each between quotes where they are members of a list.
fn put_list<W: fmt::Write>(
    f: &mut fmt::Formatter<W>,
    reasons: &Reasons,
    quote: &str,
) -> fmt::Result {
    let mut between = "";
    for reason in reasons.all.iter() {
        if let Some(reason) = reason {
            write!(f, "{between}{quote}{reason}{quote}")?;
            between = if quote.is_empty() { ", " } else { "," };
        }
    }
    if reasons.count > REASONS {
        write!(f, "{between}{quote}..{quote}")?;
    }
    Ok(())
}

/// Prints reasons as text, where there are some.
pub(crate) fn put_reasons<W: fmt::Write>(
    f: &mut fmt::Formatter<W>,
    reasons: &Reasons,
) -> fmt::Result {
    if reasons.count == 0 {
        return Ok(());
    }
    f.write_str(": ")?;
    put_list(f, reasons, "")
}

/// Prints reasons as a member of a JSON object, where there are some.
pub(crate) fn put_reasons_json<W: fmt::Write>(
    f: &mut fmt::Formatter<W>,
    reasons: &Reasons,
) -> fmt::Result {
    if reasons.count == 0 {
        return Ok(());
    }
    f.write_str(",\"reasons\":[")?;
    put_list(f, reasons, "\"")?;
    f.write_str("]")
}
