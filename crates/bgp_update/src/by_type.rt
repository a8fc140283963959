//! Attributes of types that aren't recognised, by type: in a caller-provided buffer, without memory.

ghost use Rattle.std.specs.Prelude.{◌≡◌, ◌==◌, List, [], length, option_map};
ghost use Rattle.std.specs.List.{find, flat_map};
ghost use Rattle.bgp_attr.specs.Prelude.{attr_value, opaque_value};
ghost use Rattle.bgp_attr.specs.declared.opaque.Opaque.{Opaque};
ghost use Rattle.bgp_update.specs.Prelude.{IsByType, attrs_left, put_rising, as_opaque, rising_behind};

use crate::attr_iter::AttrIter;
use bgp_attr::{AttrView, OpaqueView};

/// A buffer for attributes of types that aren't recognised, each at its type.
#[derive(Clone, Copy)]
pub struct ByType<'a> {
    pub(crate) of_type: [Option<OpaqueView<'a>>; 256],
}

/// The buffer has an entry for each type.
pub(crate) fn are_all_types(of_type: &[Option<OpaqueView<'_>>; 256])
    ensures { length of_type.now ≡ 256 }
{
    let _len = of_type.len();
}

impl<'a> ByType<'a> {
    /// An empty buffer.
    #[inline(always)]
    pub fn new() -> ByType<'a>
        ensures { IsByType result [] }
    {
        ByType {
            of_type: [None; 256],
        }
    }

    /// Stores an attribute at its type.
    #[inline(always)]
    fn put(&mut self, opaque: OpaqueView<'a>)
        ensures { (there : List Opaque) → IsByType self.old there → IsByType self.new (put_rising (opaque_value opaque.entry) there) }
    {
        are_all_types(&self.of_type);
        let kind = opaque.kind;
        self.of_type[usize::from(kind)] = Some(opaque);
    }

    /// Stores an attribute at its type, where that isn't recognised.
    #[inline(always)]
    fn add(&mut self, attr: AttrView<'a>)
        ensures { (there : List Opaque) → IsByType self.old there → IsByType self.new (rising_behind there (as_opaque (attr_value attr.entry))) }
    {
        match attr {
            AttrView::Opaque(opaque) => self.put(opaque),
            _ => {}
        }
    }

    /// Stores those among kept attributes.
    pub(crate) fn fill(&mut self, kept: AttrIter<'a>)
        requires { IsByType self.old [] }
        ensures { IsByType self.new (rising_behind [] (flat_map as_opaque (attrs_left kept.entry))) }
    {
        let mut left = kept;
        'field: while let Some(attr) = left.next() {
            self.add(attr);
        }
    }

    /// The attribute of a type.
    #[inline(always)]
    pub(crate) fn get(&self, kind: u8) -> Option<OpaqueView<'a>>
        ensures { (os : List Opaque) → IsByType self.now os → option_map opaque_value result ≡ find (λ o. o.kind == kind) os }
    {
        self.of_type[usize::from(kind)]
    }
}
