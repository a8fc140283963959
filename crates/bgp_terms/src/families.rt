//! Families of routes, without an allocation.

ghost use Rattle.std.specs.Prelude.{◌≡◌, ◌≤◌, [], ◌∷◌};

use crate::family::Family;

/// Families beyond IPv4 and IPv6 unicast: at most 42, the number that the 255 octets of optional parameters can offer. It allocates nothing.
#[derive(Clone, Copy)]
pub struct Families {
    list: [Family; 42],
    len: u8,
    ghost within: { len ≤ 42 },
}

impl Families {
    ghost use Rattle.bgp_terms.specs.Families.{also_family, families_in, has_family, shared_families};

    /// No family.
    pub fn none() -> Families
        ensures { families_in result ≡ [] }
    {
        Families {
            list: [Family { afi: 0, safi: 0 }; 42],
            len: 0,
        }
    }

    /// The families, in order.
    pub fn as_slice(&self) -> &[Family]
        ensures { result.now ≡ families_in self.now }
    {
        &self.list[..usize::from(self.len)]
    }

    /// Whether a family is among them.
    pub fn contains(&self, family: Family) -> bool
        ensures { result ≡ has_family (families_in self.now) family }
    {
        self.as_slice().iter().any(|other| family.afi == other.afi && family.safi == other.safi)
    }

    /// The families and one more, where there is room.
    #[tactic(auto, using(crate::proofs::KeptFamilies::one_more, crate::proofs::KeptFamilies::no_more))]
    pub fn with(self, family: Family) -> Families
        ensures { families_in result ≡ also_family (families_in self) (family ∷ []) }
    {
        let len = usize::from(self.len);
        if len >= 42 {
            return self;
        }
        let mut list = self.list;
        list[len] = family;
        Families {
            list,
            len: self.len + 1,
        }
    }

    /// Those that `others` has too, in order.
    pub fn shared(&self, others: &Families) -> Families
        ensures { families_in result ≡ shared_families (families_in self.now) (families_in others.now) }
    {
        let mut shared = Families::none();
        for family in self.as_slice().iter() {
            if others.contains(*family) {
                shared = shared.with(*family);
            }
        }
        shared
    }
}
