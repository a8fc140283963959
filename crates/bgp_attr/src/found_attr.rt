//! The judgement of one attribute, with all that it holds borrowed.

ghost use Rattle.std.specs.Prelude.{◌≡◌};

use crate::attr::AttrView;
use crate::judged_view::JudgedView;
use crate::why::Why;
use bgp_frame::NotificationView;

/// The judgement of one attribute, as [`JudgedView`], but small: the data of a NOTIFICATION is borrowed too. An UPDATE is judged
/// by these.
#[derive(Clone, Copy)]
pub enum FoundAttr<'a> {
    /// It is kept.
    Keep(AttrView<'a>),
    /// It is discarded (attribute discard).
    Discard(Why),
    /// Its message is treated as a withdrawal (treat-as-withdraw).
    Withdraw(Why),
    /// The session ends with this NOTIFICATION.
    Reset(NotificationView<'a>),
}

impl<'a> FoundAttr<'a> {
    ghost use Rattle.bgp_attr.specs.FoundAttr.{found_attr_value};
    ghost use Rattle.bgp_attr.specs.JudgedView.{judged_value};

    /// The same, with a NOTIFICATION of its own.
    pub fn into_view(self) -> JudgedView<'a>
        ensures { judged_value result ≡ found_attr_value self.entry }
    {
        match self {
            FoundAttr::Keep(view) => JudgedView::Keep(view),
            FoundAttr::Discard(why) => JudgedView::Discard(why),
            FoundAttr::Withdraw(why) => JudgedView::Withdraw(why),
            FoundAttr::Reset(notification) => JudgedView::Reset(notification.own()),
        }
    }
}
