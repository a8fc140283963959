//! The flags octet of an attribute.

ghost use Rattle.std.specs.Prelude.{◌≡◌};
ghost use Rattle.bgp_attr.specs.Prelude.{is_optional, is_transitive, is_partial, is_extended, has_class};

use crate::class::Class;

/// The flags octet of an attribute (RFC 4271, section 4.3). Its low four bits are ignored.
#[derive(Clone, Copy, Debug, PartialEq, Eq)]
pub struct Flags(pub u8);

impl Flags {
    /// The Optional bit: not every speaker knows the type.
    #[tactic(auto, using(std::proofs::lemmas::Nat::Bits::shr_and_one))]
    pub fn is_optional(self) -> bool
        ensures { result ≡ is_optional self.0 }
    {
        self.0 >> 7 & 1 == 1
    }

    /// The Transitive bit: a speaker that doesn't know the type passes the attribute on.
    #[tactic(auto, using(std::proofs::lemmas::Nat::Bits::shr_and_one))]
    pub fn is_transitive(self) -> bool
        ensures { result ≡ is_transitive self.0 }
    {
        self.0 >> 6 & 1 == 1
    }

    /// The Partial bit: a speaker that passed the attribute on didn't know the type.
    #[tactic(auto, using(std::proofs::lemmas::Nat::Bits::shr_and_one))]
    pub fn is_partial(self) -> bool
        ensures { result ≡ is_partial self.0 }
    {
        self.0 >> 5 & 1 == 1
    }

    /// The Extended Length bit: the length has two octets.
    #[tactic(auto, using(std::proofs::lemmas::Nat::Bits::shr_and_one))]
    pub fn is_extended(self) -> bool
        ensures { result ≡ is_extended self.0 }
    {
        self.0 >> 4 & 1 == 1
    }

    /// Whether the Optional and Transitive bits are those of the class.
    pub(crate) fn has_class(self, class: Class) -> bool
        ensures { result ≡ has_class class self.0 }
    {
        self.0 >> 6 == class as u8
    }
}
