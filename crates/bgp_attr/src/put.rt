//! Writing rows of numbers, segments and triples.

ghost use Rattle.std.specs.Prelude.{◌≡◌, ◌<◌, ◌+◌, ◌≤◌, ℕ, List, ◌++◌, length, map, true, false, OnOk, OnErr};
ghost use Rattle.std.specs.List.{flat_map, list_any, AllByRecursion};
ghost use Rattle.bgp_wire.specs.Prelude.{AreOctets, Extends};
ghost use Rattle.bgp_attr.specs.Prelude.{number_octets, row_octets, triple_octets, segment_code, segment_octets, is_bad_segment, IsFourOctets, IsThreeNumbers, IsAddress};

use crate::path::{SegKind, Segment};
use bgp_numbers::segment;
use bgp_prefix::AsNumber;
use bgp_wire::Output;
use std::alloc::AllocError;

/// Appends a number, of four octets where `wide`, else its last two.
pub(crate) fn put_number<O: Output>(wide: bool, number: u32, out: &mut O) -> Result<(), AllocError>
    ensures ok { OnOk result ((O.written out.new ≡ O.written out.old ++ number_octets wide number) × IsFourOctets number) }
    ensures err { OnErr result (Extends (O.written out.old) (O.written out.new) × (O.room < length (O.written out.old) + length (number_octets wide number))) }
{
    let [a, b, c, d] = number.to_be_bytes();
    if wide {
        out.put(&[a, b, c, d])
    } else {
        out.put(&[c, d])
    }
}

/// Appends AS numbers.
fn put_as_numbers<O: Output>(
    wide: bool,
    numbers: &[AsNumber],
    out: &mut O,
) -> Result<(), AllocError>
    ensures ok { OnOk result ((O.written out.new ≡ O.written out.old ++ flat_map (λ n. number_octets wide n.0) numbers.now) × AllByRecursion (λ n. IsFourOctets n.0) numbers.now) }
    ensures err { OnErr result (Extends (O.written out.old) (O.written out.new) × (O.room < length (O.written out.old) + length (flat_map (λ n. number_octets wide n.0) numbers.now))) }
{
    'row: for number in numbers {
        put_number(wide, number.0, out)?;
    }
    Ok(())
}

/// Appends numbers of four octets.
pub(crate) fn put_numbers<O: Output>(numbers: &[u32], out: &mut O) -> Result<(), AllocError>
    ensures ok { OnOk result ((O.written out.new ≡ O.written out.old ++ row_octets true numbers.now) × AllByRecursion IsFourOctets numbers.now) }
    ensures err { OnErr result (Extends (O.written out.old) (O.written out.new) × (O.room < length (O.written out.old) + length (row_octets true numbers.now))) }
{
    'row: for number in numbers {
        put_number(true, *number, out)?;
    }
    Ok(())
}

/// Appends a triple.
pub(crate) fn put_triple<O: Output>(triple: &[u32; 3], out: &mut O) -> Result<(), AllocError>
    ensures ok { OnOk result ((O.written out.new ≡ O.written out.old ++ triple_octets triple.now) × IsThreeNumbers triple.now) }
    ensures err { OnErr result (Extends (O.written out.old) (O.written out.new) × (O.room < length (O.written out.old) + length (triple_octets triple.now))) }
{
    put_numbers(triple, out)
}

/// Appends triples.
pub(crate) fn put_triples<O: Output>(triples: &[[u32; 3]], out: &mut O) -> Result<(), AllocError>
    ensures ok { OnOk result ((O.written out.new ≡ O.written out.old ++ flat_map triple_octets triples.now) × AllByRecursion IsThreeNumbers triples.now) }
    ensures err { OnErr result (Extends (O.written out.old) (O.written out.new) × (O.room < length (O.written out.old) + length (flat_map triple_octets triples.now))) }
{
    'row: for triple in triples {
        put_triple(triple, out)?;
    }
    Ok(())
}

/// The octet of a segment's type.
pub(crate) fn segment_code(kind: SegKind) -> u8
    ensures { result ≡ segment_code kind }
{
    match kind {
        SegKind::Set => segment::SET,
        SegKind::Seq => segment::SEQUENCE,
    }
}

/// Appends a segment.
fn put_segment<O: Output>(wide: bool, segment: &Segment, out: &mut O) -> Result<(), AllocError>
    requires { length segment.now.numbers ≤ 255 }
    ensures ok { OnOk result ((O.written out.new ≡ O.written out.old ++ segment_octets wide segment.now) × AllByRecursion (λ n. IsFourOctets n.0) segment.now.numbers) }
    ensures err { OnErr result (Extends (O.written out.old) (O.written out.new) × (O.room < length (O.written out.old) + length (segment_octets wide segment.now))) }
{
    let count = segment.numbers.len() as u8;
    out.put(&[segment_code(segment.kind), count])?;
    put_as_numbers(wide, &segment.numbers, out)
}

/// Appends the segments of a path.
pub(crate) fn put_path<O: Output>(
    wide: bool,
    segments: &[Segment],
    out: &mut O,
) -> Result<(), AllocError>
    requires { list_any is_bad_segment segments.now ≡ false }
    ensures ok { OnOk result ((O.written out.new ≡ O.written out.old ++ flat_map (segment_octets wide) segments.now) × AllByRecursion (λ s. AllByRecursion (λ n. IsFourOctets n.0) s.numbers) segments.now) }
    ensures err { OnErr result (Extends (O.written out.old) (O.written out.new) × (O.room < length (O.written out.old) + length (flat_map (segment_octets wide) segments.now))) }
{
    'path: for segment in segments {
        put_segment(wide, segment, out)?;
    }
    Ok(())
}

/// Appends octets.
pub(crate) fn put_octets<O: Output>(octets: &[u8], out: &mut O) -> Result<(), AllocError>
    ensures ok { OnOk result ((O.written out.new ≡ O.written out.old ++ octets.now) × AreOctets octets.now) }
    ensures err { OnErr result (Extends (O.written out.old) (O.written out.new) × (O.room < length (O.written out.old) + length octets.now)) }
{
    out.put(octets)
}

/// Appends an address.
pub(crate) fn put_address<const N: usize, O: Output>(
    addr: &[u8; N],
    out: &mut O,
) -> Result<(), AllocError>
    ensures ok { OnOk result ((O.written out.new ≡ O.written out.old ++ addr.now) × IsAddress N addr.now) }
    ensures err { OnErr result (Extends (O.written out.old) (O.written out.new) × (O.room < length (O.written out.old) + length addr.now)) }
{
    put_octets(addr, out)
}
