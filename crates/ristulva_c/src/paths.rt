//! Messages whose routes have path identifiers (ADD-PATH; RFC 7911).

ghost use Rattle.std.specs.Prelude.{◌≡◌, ◌+◌, ◌≤◌, ◌++◌, [], length};
ghost use Rattle.bgp_frame.specs.Prelude.{IsFrame, IsLength, ShowsFrontIn, message_in, octets_of_in};
ghost use Rattle.bgp_frame.specs.declared.kind.Kind.{Kind};
ghost use Rattle.bgp_frame.specs.declared.step.Step.TheVariants as step;
ghost use Rattle.bgp_paths.specs.Prelude.{plain_body};
ghost use Rattle.bgp_terms.specs.Prelude.{wide_terms};
ghost use Rattle.bgp_wide.specs.Prelude.{types_in};
ghost use Rattle.ristulva_c.specs.Paths.{IsWithoutPathsBy, families_in, is_update, message_without};
ghost use Rattle.ristulva_c.specs.Prelude.{IsWritten};
ghost use Rattle.ristulva_c.specs.Terms.{plain_terms_in};

use crate::status::{INCOMPLETE, RANGE, REFUSED};
use crate::terms::{SessionTerms, plain_terms_in};
use crate::written::write;
use bgp_frame::{Frame, Kind, Step, WideKind, head};
use bgp_paths::{PathFamilies, PlainBody};
use bgp_terms::WideTerms;
use bgp_wide::front_in;
use bgp_wire::{Output, Page, are_octets};

/// The greatest length of a message.
pub(crate) const MESSAGE: usize = 4096;

/// The families whose routes have path identifiers.
pub(crate) fn families_in(said: &SessionTerms) -> PathFamilies
    ensures { result ≡ families_in said.now }
{
    PathFamilies {
        ip4: said.paths4 != 0,
        ip6: said.paths6 != 0,
    }
}

/// Whether a message is an UPDATE.
pub(crate) fn is_update(kind: WideKind) -> bool
    ensures { result ≡ is_update kind }
{
    match kind {
        WideKind::Base(Kind::Update) => true,
        WideKind::Base(Kind::Open | Kind::Notification | Kind::Keepalive) | WideKind::Refresh => {
            false
        }
    }
}

/// Appends octets, for which there is room.
fn put(octets: &[u8], out: &mut Page<MESSAGE>)
    requires { length out.old + length octets.now ≤ 4096 }
    ensures { out.new ≡ out.old ++ octets.now }
{
    let Ok(()) = out.put(octets) else {
        unreachable!();
    };
}

/// Writes an UPDATE whose body has no path identifiers.
pub(crate) fn put_update(body: &[u8], out: &mut Page<MESSAGE>)
    requires allowed { IsLength Kind.Update (19 + length body.now) }
    requires empty { out.old ≡ [] }
    ensures { IsFrame (record { kind = Kind.Update; body = body.now }) out.new }
{
    put(&head(Kind::Update, body.len() as u16), out);
    put(body, out);
}

/// Writes a whole message without path identifiers.
fn write_without(
    terms: &WideTerms,
    families: PathFamilies,
    octets: &[u8],
    frame: Frame<'_, WideKind>,
    buffer: &mut [u8],
    written: &mut usize,
) -> u32
    requires { ShowsFrontIn (types_in (wide_terms terms.now)) octets.now (step.Frame frame) }
    ensures { IsWritten (octets_of_in (types_in (wide_terms terms.now)) (message_without families (message_in frame.entry)))
        (record { status = result; before = buffer.old; behind = buffer.new; len_before = written.old; len_behind = written.new }) }
{
    if !is_update(frame.kind) {
        let (whole, _) = octets.split_at(frame.len as usize);
        return write(whole, buffer, written);
    }
    are_octets(frame.body);
    let mut plain = PlainBody::new();
    plain.fill(families, frame.body);
    let mut message = Page::<MESSAGE>::new();
    put_update(plain.as_slice(), &mut message);
    write(message.as_slice(), buffer, written)
}

/// Writes the message that octets begin with to the beginning of a buffer, without path identifiers. Octets after it are ignored.
#[unsafe(no_mangle)]
pub extern "C" fn ristulva_without_paths(
    terms: &SessionTerms,
    octets: &[u8],
    buffer: &mut [u8],
    written: &mut usize,
) -> u32
    ensures { IsWithoutPathsBy (plain_terms_in terms.now) (families_in terms.now) octets.now
        (record { status = result; before = buffer.old; behind = buffer.new; len_before = written.old; len_behind = written.new }) }
{
    let Some(agreed) = plain_terms_in(terms) else {
        return RANGE;
    };
    match front_in(&agreed, octets) {
        Step::More => INCOMPLETE,
        Step::Frame(frame) => {
            write_without(&agreed, families_in(terms), octets, frame, buffer, written)
        }
        Step::Fault(_) => REFUSED,
    }
}
