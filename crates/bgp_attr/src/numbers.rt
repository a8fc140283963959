//! Numbers one after the other.

ghost use Rattle.std.specs.Prelude.{◌≡◌, length, option_map, true, false};
ghost use Rattle.bgp_attr.specs.Numbers.{numbers_of, one_number};

use bgp_prefix::AsNumber;
use std::iter::FusedIterator;

/// The number of four octets at the front, and what follows it.
#[tactic(auto, using(crate::proofs::Fronts::four_taken, crate::proofs::Fronts::four_short))]
pub(crate) fn first_four(octets: &[u8]) -> Option<(u32, &[u8])>
    ensures { option_map (λ x. (x.0, x.1.now)) result ≡ one_number true octets.now }
{
    let (number, rest) = octets.split_at_checked(4)?;
    Some((
        u32::from_be_bytes([number[0], number[1], number[2], number[3]]),
        rest,
    ))
}

/// The number of two octets at the front, and what follows it.
#[tactic(auto, using(crate::proofs::Fronts::two_taken, crate::proofs::Fronts::two_short))]
fn first_two(octets: &[u8]) -> Option<(u32, &[u8])>
    ensures { option_map (λ x. (x.0, x.1.now)) result ≡ one_number false octets.now }
{
    let (number, rest) = octets.split_at_checked(2)?;
    Some((u32::from(u16::from_be_bytes([number[0], number[1]])), rest))
}

/// The number at the front, of four octets where `wide`, else of two, highest octet first, and what follows it (RFC 4271, section 4).
#[tactic(auto, unfolding(crate::specs::Numbers::one_number))]
pub fn first_number(wide: bool, octets: &[u8]) -> Option<(u32, &[u8])>
    ensures { option_map (λ x. (x.0, x.1.now)) result ≡ one_number wide octets.now }
{
    if wide {
        first_four(octets)
    } else {
        first_two(octets)
    }
}

/// The number of numbers that octets begin with.
#[tactic(auto, using(crate::proofs::NumberSteps::number_count))]
pub(crate) fn count_numbers(wide: bool, octets: &[u8]) -> usize
    ensures { result ≡ length (numbers_of wide octets.now) }
{
    if wide {
        octets.len() / 4
    } else {
        octets.len() / 2
    }
}

/// The AS numbers of a segment, in order (RFC 4271, section 4.3). It allocates nothing.
#[derive(Clone, Copy)]
pub struct AsNumberIter<'a> {
    pub(crate) wide: bool,
    pub(crate) rest: &'a [u8],
}

impl<'a> AsNumberIter<'a> {
    ghost use Rattle.std.specs.Prelude.{map};
    ghost use Rattle.bgp_attr.specs.Numbers.{numbers_of};
    ghost use Rattle.bgp_attr.specs.Path.{as_number};
    ghost use Rattle.bgp_attr.specs.NumberIter.{as_numbers_left};

    /// The numbers in these octets, of four each where `wide`, else of two.
    pub(crate) fn new(wide: bool, octets: &'a [u8]) -> AsNumberIter<'a>
        ensures { as_numbers_left result ≡ map as_number (numbers_of wide octets.now) }
    {
        AsNumberIter { wide, rest: octets }
    }
}

impl<'a> Iterator for AsNumberIter<'a> {
    ghost use Rattle.std.specs.Iterator.{YieldsFirst, item_count};
    ghost use Rattle.bgp_attr.specs.NumberIter.{as_numbers_left};

    type Item = AsNumber;

    ghost next_gives = { YieldsFirst as_numbers_left };

    ghost remaining = { item_count as_numbers_left };

    fn next(&mut self) -> Option<AsNumber> {
        let (number, rest) = first_number(self.wide, self.rest)?;
        self.rest = rest;
        Some(AsNumber(number))
    }

    /// Exactly the number left, so that a collection allocates once.
    fn size_hint(&self) -> (usize, Option<usize>) {
        let left = self.left();
        (left, Some(left))
    }
}

impl<'a> FusedIterator for AsNumberIter<'a> {}

/// The communities of COMMUNITIES, in order (RFC 1997). It allocates nothing.
#[derive(Clone, Copy)]
pub struct CommIter<'a> {
    pub(crate) rest: &'a [u8],
}

impl<'a> CommIter<'a> {
    ghost use Rattle.std.specs.Prelude.{true};
    ghost use Rattle.bgp_attr.specs.Numbers.{numbers_of};
    ghost use Rattle.bgp_attr.specs.NumberIter.{communities_left};

    /// The communities in these octets.
    pub(crate) fn new(octets: &'a [u8]) -> CommIter<'a>
        ensures { communities_left result ≡ numbers_of true octets.now }
    {
        CommIter { rest: octets }
    }
}

impl<'a> Iterator for CommIter<'a> {
    ghost use Rattle.std.specs.Iterator.{YieldsFirst, item_count};
    ghost use Rattle.bgp_attr.specs.NumberIter.{communities_left};

    type Item = u32;

    ghost next_gives = { YieldsFirst communities_left };

    ghost remaining = { item_count communities_left };

    fn next(&mut self) -> Option<u32> {
        let (community, rest) = first_number(true, self.rest)?;
        self.rest = rest;
        Some(community)
    }

    /// Exactly the number left.
    fn size_hint(&self) -> (usize, Option<usize>) {
        let left = count_numbers(true, self.rest);
        (left, Some(left))
    }
}

impl<'a> FusedIterator for CommIter<'a> {}
