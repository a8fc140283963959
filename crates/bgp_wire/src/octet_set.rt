//! Sets of octets.

ghost use Rattle.std.specs.Prelude.{◌≡◌};
ghost use Rattle.bgp_wire.specs.Prelude.{all_but, also, has_octet, none_of_them};

/// A set of octets, as the codes of capabilities or the types of attributes: a bit for each, in 32 octets.
#[derive(Clone, Copy)]
pub struct OctetSet {
    words: [u64; 4],
}

impl OctetSet {
    /// The empty set.
    pub fn new() -> OctetSet
        ensures { has_octet result ≡ none_of_them }
    {
        OctetSet { words: [0; 4] }
    }

    /// Whether an octet is in the set.
    #[inline]
    pub fn contains(&self, octet: u8) -> bool
        ensures { result ≡ has_octet self.now octet }
    {
        (self.words[usize::from(octet / 64)] >> (octet % 64)) & 1 == 1
    }

    /// Adds an octet to the set.
    #[inline]
    pub fn insert(&mut self, octet: u8)
        ensures { has_octet self.new ≡ also octet (has_octet self.old) }
    {
        let place = usize::from(octet / 64);
        let word = self.words[place];
        self.words[place] = word | 1u64 << (octet % 64);
    }

    /// Every octet but those in the set.
    pub fn others(&self) -> OctetSet
        ensures { has_octet result ≡ all_but (has_octet self.now) }
    {
        let [first, second, third, fourth] = self.words;
        OctetSet {
            words: [!first, !second, !third, !fourth],
        }
    }
}
