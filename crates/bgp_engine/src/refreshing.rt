//! A ROUTE-REFRESH on a page.

ghost use Rattle.std.specs.Prelude.{◌≡◌, ◌+◌, ◌≤◌, ◌++◌, length, IfOk};
ghost use Rattle.bgp_engine.specs.Below.{IsLengthIn, message_in, notification_of_view, refresh_header, wide_types};
ghost use Rattle.bgp_engine.specs.Refreshed.{grammar_of, refresh_span, refreshed};
ghost use Rattle.bgp_engine.specs.Wide.{refresh_class, wide_rules};
ghost use Rattle.bgp_engine.specs.steps.Pages.{Writes};

use crate::class::Class;
use crate::page::Page;
use bgp_fields::Span;
use bgp_frame::{Frame, Notification, NotificationView, WideKind};
use bgp_refresh::view_refresh;
use bgp_terms::Refreshes;
use std::alloc::AllocError;

/// The octets at fault in a ROUTE-REFRESH that is refused.
pub(crate) fn refresh_span() -> Span
    ensures { result ≡ refresh_span }
{
    Span { at: 16, len: 2 }
}

/// A NOTIFICATION, borrowed.
pub(crate) fn view_of(why: &Notification) -> NotificationView<'_>
    ensures { notification_of_view result ≡ why.now }
{
    NotificationView {
        code: why.code,
        subcode: why.subcode,
        info: &why.info,
    }
}

// Collects what is written of a ROUTE-REFRESH.
fn put_refresh<P: Page>(
    page: &mut P,
    refreshes: Refreshes,
    place: u64,
    len: u16,
    body: &[u8],
) -> Result<Class, AllocError>
    requires size { len ≡ 19 + length body.now }
    requires short { length body.now ≤ 4077 }
    ensures told { IfOk result (λ class. P.told page.new ≡ P.told page.old
        ++ (P.rules page.old).refresh place len (refresh_header (19 + length body.now) ++ body.now) (refreshed refreshes body.now)) }
    ensures class { IfOk result (λ class. class ≡ refresh_class (refreshed refreshes body.now)) }
    ensures rules { P.rules page.new ≡ P.rules page.old }
{
    match view_refresh(refreshes, body) {
        Ok(view) => {
            page.refresh(place, len, body, &view)?;
            Ok(Class::Took)
        }
        Err(fault) => {
            let why = fault.notification(body);
            page.refuse(place, len, body, &why)?;
            Ok(Class::Reset)
        }
    }
}

/// Judges a whole message at an offset of the stream, and collects what is written of it.
pub(crate) fn put_message<P: Page>(
    page: &mut P,
    refreshes: Refreshes,
    place: u64,
    frame: Frame<'_, WideKind>,
) -> Result<Class, AllocError>
    requires allowed { IsLengthIn (wide_types (grammar_of refreshes)) frame.kind (19 + length frame.body.now) }
    requires size { frame.len ≡ 19 + length frame.body.now }
    ensures writes { IfOk result (λ class. Writes (wide_rules refreshes (P.rules page.old)) (P.told page.old) (P.told page.new) place frame.entry.len (message_in frame.entry) class) }
    ensures rules { P.rules page.new ≡ P.rules page.old }
{
    let Frame { kind, len, body } = frame;
    match kind {
        WideKind::Base(kind) => page.message(place, Frame { kind, len, body }),
        WideKind::Refresh => put_refresh(page, refreshes, place, len, body),
    }
}
