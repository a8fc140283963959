//! Grammars: the message types of a stream, and the lengths of their messages.

ghost use Rattle.std.specs.Prelude.{◌≡◌, Some};
ghost use Rattle.bgp_numbers.specs.declared.message.TheConstants.{UPDATE};

use crate::kind::{Kind, WideKind};
use bgp_numbers::message;

/// The types of message of a stream, and the least and the most octets of a message of each (RFC 4271, section 4.1).
pub trait Grammar: Copy {
    ghost use Rattle.bgp_frame.specs.Types.{AreTypes, Types};

    /// The kind of a message, by its type.
    type Kind: Copy;

    /// The types.
    ghost types: { Self → Types Self.Kind };

    /// The kind of a type octet, if there is one.
    fn from_code(self, code: u8) -> Option<Self::Kind>
        ensures { result ≡ (types self).kind_of code };

    /// The least octets of a whole message of this kind.
    fn least_length(self, kind: Self::Kind) -> u16
        ensures { result ≡ (types self).least kind };

    /// The most octets of a whole message of this kind.
    fn most_length(self, kind: Self::Kind) -> u16
        ensures { result ≡ (types self).most kind };

    /// The most octets of any message.
    fn limit(self) -> u16
        ensures { result ≡ (types self).limit };

    /// The kind of an UPDATE: most messages are, so that it is tested first.
    fn update(self) -> Self::Kind
        ensures kind { (types self).kind_of UPDATE ≡ Some result }
        ensures least { (types self).least result ≡ 23 }
        ensures most { (types self).most result ≡ (types self).limit };

    /// A header says each type and length.
    ghost fine: { (grammar : Self) → AreTypes (types grammar) };
}

/// The types of RFC 4271, in messages of at most 4096 octets.
#[derive(Clone, Copy, Debug, PartialEq, Eq)]
pub struct Plain;

impl Grammar for Plain {
    ghost use Rattle.bgp_frame.specs.Kind.{plain};
    ghost use Rattle.bgp_frame.specs.steps.AreTypes.{plain-are};

    type Kind = Kind;

    ghost types = { λ _. plain };

    ghost fine = { λ _. plain-are };

    #[inline(always)]
    fn from_code(self, code: u8) -> Option<Kind> {
        Kind::from_code(code)
    }

    #[inline(always)]
    fn least_length(self, kind: Kind) -> u16 {
        kind.least_length()
    }

    #[inline(always)]
    fn most_length(self, kind: Kind) -> u16 {
        kind.most_length()
    }

    #[inline(always)]
    fn limit(self) -> u16 {
        4096
    }

    #[inline(always)]
    fn update(self) -> Kind {
        Kind::Update
    }
}

/// The types that two speakers agree on, beyond those of RFC 4271.
#[derive(Clone, Copy, Debug, PartialEq, Eq)]
pub struct WideGrammar {
    /// ROUTE-REFRESH is a message (RFC 2918).
    pub refresh: bool,
    /// Messages other than OPEN and KEEPALIVE may have up to 65535 octets (RFC 8654).
    pub long: bool,
}

impl Grammar for WideGrammar {
    ghost use Rattle.bgp_frame.specs.WideKind.{wide_types};
    ghost use Rattle.bgp_frame.specs.steps.AreTypes.{wide-are};

    type Kind = WideKind;

    ghost types = { wide_types };

    ghost fine = { wide-are };

    fn from_code(self, code: u8) -> Option<WideKind> {
        if code == message::ROUTE_REFRESH {
            return self.refresh.then_some(WideKind::Refresh);
        }
        Kind::from_code(code).map(WideKind::Base)
    }

    fn least_length(self, kind: WideKind) -> u16 {
        match kind {
            WideKind::Base(kind) => kind.least_length(),
            WideKind::Refresh => 19,
        }
    }

    fn most_length(self, kind: WideKind) -> u16 {
        match kind {
            WideKind::Base(Kind::Open) => 4096,
            WideKind::Base(Kind::Keepalive) => 19,
            WideKind::Refresh if !self.refresh => 0,
            WideKind::Base(Kind::Update | Kind::Notification) | WideKind::Refresh => self.limit(),
        }
    }

    fn limit(self) -> u16 {
        if self.long { 65535 } else { 4096 }
    }

    fn update(self) -> WideKind {
        WideKind::Base(Kind::Update)
    }
}

#[cfg(test)]
mod tests {
    use crate::fault::HeadFault;
    use crate::framer_of::FramerOf;
    use crate::grammar::WideGrammar;
    use crate::kind::WideKind;
    use crate::step::{Frame, Step, front};
    use std::test::*;

    const REFRESH: [u8; 23] = [
        255, 255, 255, 255, 255, 255, 255, 255, 255, 255, 255, 255, 255, 255, 255, 255, 0, 23, 5,
        0, 1, 0, 1,
    ];

    #[test]
    fn a_refresh_that_is_agreed_on_is_a_message(rt: HostRuntime) {
        let grammar = WideGrammar {
            refresh: true,
            long: false,
        };
        let mut framer: FramerOf<WideGrammar, 4096> = FramerOf::empty(grammar);
        assert!(rt; framer.feed(&REFRESH[..22]) == 22);
        assert!(rt; framer.feed(&REFRESH[22..]) == 1);
        let is_refresh = match framer.step() {
            Step::Frame(Frame { kind, body, .. }) => kind == WideKind::Refresh && body.len() == 4,
            _ => false,
        };
        assert!(rt; is_refresh);
    }

    #[test]
    fn one_that_is_not_is_a_bad_message_type(rt: HostRuntime) {
        let faults = match front(&REFRESH) {
            Step::Fault(fault) => fault == HeadFault::Kind(5),
            _ => false,
        };
        assert!(rt; faults);
    }
}
