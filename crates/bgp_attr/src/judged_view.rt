//! The judgement of one attribute, with its value borrowed.

ghost use Rattle.std.specs.Prelude.{◌≡◌, IfOk, OnErr, IsTrue};

use crate::attr::AttrView;
use crate::judged::Judged;
use crate::why::Why;
use bgp_frame::Notification;
use std::alloc::{AllocError, Global};

/// The judgement of one attribute (RFC 7606, section 2), with its value borrowed.
#[derive(Drop)]
pub enum JudgedView<'a> {
    /// It is kept.
    Keep(AttrView<'a>),
    /// It is discarded (attribute discard).
    Discard(Why),
    /// Its message is treated as a withdrawal (treat-as-withdraw).
    Withdraw(Why),
    /// The session ends with this NOTIFICATION.
    Reset(Notification),
}

impl JudgedView<'_> {
    ghost use Rattle.bgp_attr.specs.JudgedView.{judged_value, is_kept};

    /// The judgement, with memory of its own.
    ///
    /// # Errors
    /// `AllocError` where an allocation failed: only a kept attribute allocates.
    pub fn own(&self, alloc: Global) -> Result<Judged, AllocError>
        ensures value { IfOk result (λ j. j ≡ judged_value self.now) }
        ensures err { OnErr result (IsTrue (is_kept (judged_value self.now))) }
    {
        Ok(match self {
            JudgedView::Keep(view) => Judged::Keep(view.own(alloc)?),
            JudgedView::Discard(why) => Judged::Discard(*why),
            JudgedView::Withdraw(why) => Judged::Withdraw(*why),
            JudgedView::Reset(notification) => Judged::Reset(notification.copy()),
        })
    }
}
