//! The body of an UPDATE with path identifiers.

ghost use Rattle.std.specs.Prelude.{◌≡◌, ◌+◌, ◌<◌, ◌≤◌, ◌++◌, length, OnOk, OnErr};
ghost use Rattle.std.specs.Int.{w16, to_be_bytes};
ghost use Rattle.bgp_paths.specs.Plain.{octets_of_parts, parts_in};
ghost use Rattle.bgp_paths.specs.PathBody.{body_with, field_numbers, parts_with};

use crate::families::PathFamilies;
use crate::path_field::put_field_with;
use crate::path_routes::put_run_with;
use crate::plain_body::split_body;
use crate::plain_routes::BODY;
use crate::runs::PathRuns;
use bgp_wire::{Output, Page};
use std::alloc::AllocError;
use std::marker::Model;

/// Appends octets after their length in two octets.
fn put_counted_with(octets: &Page<BODY>, out: &mut Page<BODY>) -> Result<(), AllocError>
    ensures ok { OnOk result (out.new ≡ out.old ++ (to_be_bytes w16 (length octets.now) ++ octets.now)) }
    ensures full { OnErr result (4077 < length out.old + (2 + length octets.now)) }
{
    out.put(&(octets.count() as u16).to_be_bytes())?;
    out.put(octets.as_slice())
}

/// The body of an UPDATE with path identifiers would have more than 4077 octets.
#[derive(Clone, Copy, PartialEq, Eq, Debug)]
pub struct TooLong;

/// A buffer for the body of an UPDATE with path identifiers. It is 12 kilobytes large: make one, and fill it again for each message.
#[derive(Drop)]
pub struct PathBody {
    octets: Page<BODY>,
    part: Page<BODY>,
    value: Page<BODY>,
}

impl Model for PathBody {
    ghost use Rattle.std.specs.Prelude.{ℕ, List};

    ghost Value = { List ℕ };

    ghost view = { λ p. p.octets };
}

impl PathBody {
    ghost use Rattle.std.specs.Prelude.{[]};

    /// A buffer without octets.
    #[inline(always)]
    pub fn new() -> PathBody
        ensures { result ≡ [] }
    {
        PathBody {
            octets: Page::new(),
            part: Page::new(),
            value: Page::new(),
        }
    }

    /// The octets.
    pub fn as_slice(&self) -> &[u8]
        ensures { result.now ≡ self.now }
    {
        self.octets.as_slice()
    }

    /// The number of octets.
    pub fn count(&self) -> usize
        ensures value { result ≡ length self.now }
        ensures bound { result ≤ 4077 }
    {
        self.octets.count()
    }

    /// Writes the parts of a body, each with its path identifiers.
    fn put_parts_with(
        &mut self,
        families: PathFamilies,
        numbers: &PathRuns<'_>,
        withdrawn: &[u8],
        attributes: &[u8],
        nlri: &[u8],
    ) -> Result<(), AllocError>
        ensures ok { OnOk result (self.new ≡ octets_of_parts (parts_with families (field_numbers numbers.now) (parts_in withdrawn.now attributes.now nlri.now))) }
        ensures full { OnErr result (4077 < length (octets_of_parts (parts_with families (field_numbers numbers.now) (parts_in withdrawn.now attributes.now nlri.now)))) }
    {
        self.octets.truncate(0);
        self.part.truncate(0);
        put_run_with(families.ip4, numbers.withdrawn, withdrawn, &mut self.part)?;
        put_counted_with(&self.part, &mut self.octets)?;
        self.part.truncate(0);
        put_field_with(
            families,
            numbers,
            attributes,
            &mut self.value,
            &mut self.part,
        )?;
        put_counted_with(&self.part, &mut self.octets)?;
        put_run_with(families.ip4, numbers.nlri, nlri, &mut self.octets)
    }

    /// Writes a body with path identifiers.
    fn put_body_with(
        &mut self,
        families: PathFamilies,
        numbers: &PathRuns<'_>,
        body: &[u8],
    ) -> Result<(), AllocError>
        ensures ok { OnOk result (self.new ≡ body_with families (field_numbers numbers.now) body.now) }
        ensures full { OnErr result (4077 < length (body_with families (field_numbers numbers.now) body.now)) }
    {
        match split_body(body) {
            None => {
                self.octets.truncate(0);
                self.octets.put(body)
            }
            Some((withdrawn, attributes, nlri)) => {
                self.put_parts_with(families, numbers, withdrawn, attributes, nlri)
            }
        }
    }

    /// Writes the body of an UPDATE with these path identifiers before its routes, where the routes of these families have them (RFC 7911, section 3); what was
    /// there is lost. A route for which there is none has 0.
    ///
    /// # Errors
    /// `TooLong` where the body would have more than 4077 octets; there are none then.
    pub fn fill(
        &mut self,
        families: PathFamilies,
        numbers: &PathRuns<'_>,
        body: &[u8],
    ) -> Result<(), TooLong>
        ensures ok { OnOk result (self.new ≡ body_with families (field_numbers numbers.now) body.now) }
        ensures too_long { OnErr result (4077 < length (body_with families (field_numbers numbers.now) body.now)) }
        ensures longer { OnOk result (4 ≤ length body.now → 4 ≤ length self.new) }
        ensures err { OnErr result (self.new ≡ []) }
    {
        match self.put_body_with(families, numbers, body) {
            Ok(()) => Ok(()),
            Err(AllocError) => {
                self.octets.truncate(0);
                Err(TooLong)
            }
        }
    }
}
