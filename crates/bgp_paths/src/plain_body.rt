//! The body of an UPDATE without path identifiers.

ghost use Rattle.std.specs.Prelude.{◌≡◌, ◌+◌, ◌≤◌, ◌++◌, length, option_map, IfSome};
ghost use Rattle.std.specs.Int.{w16, to_be_bytes};
ghost use Rattle.bgp_update.specs.Prelude.{behind_two, parts_of};
ghost use Rattle.bgp_paths.specs.Plain.{octets_of_parts, parts_in, plain_body, plain_parts};

use crate::families::PathFamilies;
use crate::plain_field::put_field;
use crate::plain_routes::{BODY, put, put_run};
use bgp_wire::{Output, Page, are_octets};
use std::marker::Model;

/// The octets after a length of two octets, and what follows them.
fn split_behind(octets: &[u8]) -> Option<(&[u8], &[u8])>
    ensures value { option_map (λ x. (x.0.now, x.1.now)) result ≡ behind_two octets.now }
    ensures long { IfSome result (λ x. 2 + length x.0.now + length x.1.now ≡ length octets.now) }
{
    let (high, rest) = octets.split_first()?;
    let (low, rest) = rest.split_first()?;
    let len = usize::from(u16::from_be_bytes([*high, *low]));
    rest.split_at_checked(len)
}

/// Withdrawn Routes, the attributes and NLRI of a body, where its lengths leave room for each other (RFC 4271, section 4.3).
#[tactic(auto, unfolding(bgp_update::specs::Parts::parts_of))]
pub(crate) fn split_body(body: &[u8]) -> Option<(&[u8], &[u8], &[u8])>
    ensures value { option_map (λ x. parts_in x.0.now x.1.now x.2.now) result ≡ parts_of body.now }
    ensures long { IfSome result (λ x. 4 + length x.0.now + length x.1.now + length x.2.now ≡ length body.now) }
{
    let (withdrawn, rest) = split_behind(body)?;
    let (attributes, nlri) = split_behind(rest)?;
    Some((withdrawn, attributes, nlri))
}

/// Appends octets after their length in two octets.
fn put_counted(octets: &[u8], out: &mut Page<BODY>)
    requires { length out.old + (2 + length octets.now) ≤ 4077 }
    ensures { out.new ≡ out.old ++ (to_be_bytes w16 (length octets.now) ++ octets.now) }
{
    put(&(octets.len() as u16).to_be_bytes(), out);
    put(octets, out);
}

/// A place for the body of an UPDATE without path identifiers. It is 12 kilobytes large: make one, and fill it again for each message.
#[derive(Drop)]
pub struct PlainBody {
    octets: Page<BODY>,
    part: Page<BODY>,
    value: Page<BODY>,
}

impl Model for PlainBody {
    ghost use Rattle.std.specs.Prelude.{ℕ, List};

    ghost Value = { List ℕ };

    ghost view = { λ p. p.octets };
}

impl PlainBody {
    ghost use Rattle.std.specs.Prelude.{[]};

    /// A place without octets.
    #[inline(always)]
    pub fn new() -> PlainBody
        ensures { result ≡ [] }
    {
        PlainBody {
            octets: Page::new(),
            part: Page::new(),
            value: Page::new(),
        }
    }

    /// The octets.
    pub fn as_slice(&self) -> &[u8]
        ensures { result.now ≡ self.now }
    {
        self.octets.as_slice()
    }

    /// Writes the parts of a body, each without path identifiers.
    fn put_parts(
        &mut self,
        families: PathFamilies,
        withdrawn: &[u8],
        attributes: &[u8],
        nlri: &[u8],
    )
        requires { length withdrawn.now + length attributes.now + length nlri.now ≤ 4073 }
        ensures { self.new ≡ octets_of_parts (plain_parts families (parts_in withdrawn.now attributes.now nlri.now)) }
    {
        self.octets.truncate(0);
        self.part.truncate(0);
        put_run(families.ip4, withdrawn, &mut self.part);
        put_counted(self.part.as_slice(), &mut self.octets);
        self.part.truncate(0);
        put_field(families, attributes, &mut self.value, &mut self.part);
        put_counted(self.part.as_slice(), &mut self.octets);
        put_run(families.ip4, nlri, &mut self.octets);
    }

    /// Writes the body of an UPDATE without path identifiers, where the routes of these families have them; what was there is lost. Octets that are left
    /// after the last whole route of a run become one octet with which no prefix begins: so the verdict on the body is that on the routes.
    pub fn fill(&mut self, families: PathFamilies, body: &[u8])
        requires { length body.now ≤ 4077 }
        ensures body { self.new ≡ plain_body families body.now }
        ensures shorter { length self.new ≤ length body.now }
        ensures longer { 4 ≤ length body.now → 4 ≤ length self.new }
    {
        are_octets(body);
        match split_body(body) {
            None => {
                self.octets.truncate(0);
                put(body, &mut self.octets);
            }
            Some((withdrawn, attributes, nlri)) => {
                self.put_parts(families, withdrawn, attributes, nlri);
            }
        }
    }
}
