//! Communities and large communities in rows.

ghost use Rattle.ristulva_c.specs.Batch.{IsBatch};
ghost use Rattle.ristulva_c.specs.CommunityRows.{GivesCommunities, GivesLarge};
ghost use Rattle.ristulva_c.specs.Context.{context_of};

use crate::batch::{Batch, take_all};
use crate::context::SessionContext;
use crate::rows_left::{Rows, count_rows, put_rows};
use bgp_attr::{CommIter, LargeCommIter};
use bgp_msg::OutcomeView;
use bgp_wire::are_octets;

/// A community.
#[repr(C)]
#[derive(Clone, Copy)]
pub struct CommunityRow {
    /// The offset of its message in the octets given.
    pub message: u64,
    /// The community (RFC 1997).
    pub value: u32,
    /// Unused: 0.
    pub reserved: u32,
}

/// A large community.
#[repr(C)]
#[derive(Clone, Copy)]
pub struct LargeRow {
    /// The offset of its message in the octets given.
    pub message: u64,
    /// The Global Administrator (RFC 8092, section 3).
    pub global: u32,
    /// The first part of Local Data.
    pub local1: u32,
    /// The second part.
    pub local2: u32,
    /// Unused: 0.
    pub reserved: u32,
}

/// The remaining communities of a message.
#[derive(Clone, Copy)]
struct CommunitiesLeft<'a> {
    message: u64,
    values: CommIter<'a>,
}

impl<'a> Rows for CommunitiesLeft<'a> {
    ghost use Rattle.std.specs.Prelude.{map};
    ghost use Rattle.bgp_attr.specs.Prelude.{communities_left};
    ghost use Rattle.ristulva_c.specs.CommunityRows.{community_row};

    type Row = CommunityRow;

    ghost left = { λ rows. map (community_row rows.message) (communities_left rows.values) };

    #[tactic(auto, using(crate::proofs::Rows::told_first, crate::proofs::Rows::told_none))]
    fn next_row(&mut self) -> Option<CommunityRow> {
        let value = self.values.next()?;
        Some(CommunityRow {
            message: self.message,
            value,
            reserved: 0,
        })
    }
}

/// The remaining large communities of a message.
#[derive(Clone, Copy)]
struct LargeLeft<'a> {
    message: u64,
    values: LargeCommIter<'a>,
}

impl<'a> Rows for LargeLeft<'a> {
    ghost use Rattle.std.specs.Prelude.{map};
    ghost use Rattle.bgp_attr.specs.Prelude.{triples_left};
    ghost use Rattle.ristulva_c.specs.CommunityRows.{large_row};

    type Row = LargeRow;

    ghost left = { λ rows. map (large_row rows.message) (triples_left rows.values) };

    #[tactic(auto, using(crate::proofs::Rows::told_first, crate::proofs::Rows::told_none))]
    fn next_row(&mut self) -> Option<LargeRow> {
        let numbers = self.values.next()?;
        Some(LargeRow {
            message: self.message,
            global: numbers[0],
            local1: numbers[1],
            local2: numbers[2],
            reserved: 0,
        })
    }
}

/// The communities of messages.
pub(crate) struct Communities;

impl Batch for Communities {
    ghost use Rattle.ristulva_c.specs.CommunityRows.{GivesCommunities, community_rows};
    ghost use Rattle.ristulva_c.specs.Facts.{attrs_in};
    ghost use Rattle.bgp_msg.specs.OutcomeView.{outcome_value};

    type Row = CommunityRow;

    ghost gives = { GivesCommunities };

    ghost rows = { λ at parts v. community_rows at (attrs_in (outcome_value v)) };

    fn fit(body: &[u8], outcome: &OutcomeView<'_>, room: usize) -> bool {
        are_octets(body);
        if body.len() <= room {
            return true;
        }
        match outcome {
            OutcomeView::Update(update) => match update.kept().communities() {
                None => true,
                Some(communities) => {
                    let left = CommunitiesLeft {
                        message: 0,
                        values: communities.values,
                    };
                    count_rows(left) <= room
                }
            },
            _ => true,
        }
    }

    fn put(
        at: u64,
        body: &[u8],
        outcome: &OutcomeView<'_>,
        list: &mut [CommunityRow],
        from: usize,
    ) -> usize {
        are_octets(body);
        match outcome {
            OutcomeView::Update(update) => match update.kept().communities() {
                None => from,
                Some(communities) => {
                    let left = CommunitiesLeft {
                        message: at,
                        values: communities.values,
                    };
                    put_rows(left, list, from)
                }
            },
            _ => from,
        }
    }
}

/// The large communities of messages.
pub(crate) struct LargeCommunities;

impl Batch for LargeCommunities {
    ghost use Rattle.ristulva_c.specs.CommunityRows.{GivesLarge, large_rows};
    ghost use Rattle.ristulva_c.specs.Facts.{attrs_in};
    ghost use Rattle.bgp_msg.specs.OutcomeView.{outcome_value};

    type Row = LargeRow;

    ghost gives = { GivesLarge };

    ghost rows = { λ at parts v. large_rows at (attrs_in (outcome_value v)) };

    fn fit(body: &[u8], outcome: &OutcomeView<'_>, room: usize) -> bool {
        are_octets(body);
        if body.len() <= room {
            return true;
        }
        match outcome {
            OutcomeView::Update(update) => match update.kept().large() {
                None => true,
                Some(communities) => {
                    let left = LargeLeft {
                        message: 0,
                        values: communities.values,
                    };
                    count_rows(left) <= room
                }
            },
            _ => true,
        }
    }

    fn put(
        at: u64,
        body: &[u8],
        outcome: &OutcomeView<'_>,
        list: &mut [LargeRow],
        from: usize,
    ) -> usize {
        are_octets(body);
        match outcome {
            OutcomeView::Update(update) => match update.kept().large() {
                None => from,
                Some(communities) => {
                    let left = LargeLeft {
                        message: at,
                        values: communities.values,
                    };
                    put_rows(left, list, from)
                }
            },
            _ => from,
        }
    }
}

/// Writes the communities of messages in sequence to rows of a list, for as many whole messages as fit.
#[unsafe(no_mangle)]
pub extern "C" fn ristulva_communities_of(
    ctx: &SessionContext,
    octets: &[u8],
    list: &mut [CommunityRow],
    written: &mut usize,
    taken: &mut usize,
) -> u32
    ensures { IsBatch GivesCommunities (context_of ctx.now) octets.now (record { status = result; before = list.old; behind = list.new; written_before = written.old; written_behind = written.new; taken_before = taken.old; taken_behind = taken.new }) }
{
    take_all::<Communities>(ctx, octets, list, written, taken)
}

/// Writes the large communities of messages in sequence, each of a message once, to rows of a list, for as many whole
/// messages as fit.
#[unsafe(no_mangle)]
pub extern "C" fn ristulva_large_communities_of(
    ctx: &SessionContext,
    octets: &[u8],
    list: &mut [LargeRow],
    written: &mut usize,
    taken: &mut usize,
) -> u32
    ensures { IsBatch GivesLarge (context_of ctx.now) octets.now (record { status = result; before = list.old; behind = list.new; written_before = written.old; written_behind = written.new; taken_before = taken.old; taken_behind = taken.new }) }
{
    take_all::<LargeCommunities>(ctx, octets, list, written, taken)
}
