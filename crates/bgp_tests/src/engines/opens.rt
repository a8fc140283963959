//! The engines that agree by the OPENs of both directions: what is agreed on however little a reader gives, and which fault is reported.

use super::failing::{Drip, Sheet};
use super::tool::{Tool, input_of};
use bgp_clean::Limits;
use bgp_engine::*;
use bgp_open::Context;
use bgp_terms::{Refreshes, WideTerms};
use bgp_wire::OctetSet;
use std::alloc::Global;
use std::process::Abort;
use std::test::*;

/// AS 65001 and AS 65002, with AS numbers of four octets and both families.
const OURS: &str = "M 003101 04 fde9 005a c0000201 14 0212 010400010001 010400020001 41040000fde9";

const THEIRS: &str =
    "M 003101 04 fdea 005a c0000202 14 0212 010400010001 010400020001 41040000fdea";

/// AS 65001 without AS numbers of four octets, and AS 65001 without a capability.
const NARROW: &str = "M 002b01 04 fde9 005a c0000202 0e 020c 010400010001 010400020001";

const PLAIN: &str = "M 001d01 04 fde9 005a c0000202 00";

/// My Autonomous System 65001, and AS 65002 by the capability, which a 2-octet-AS speaker ignores (RFC 6793, section 4.1).
const UNSEEN: &str =
    "M 003101 04 fde9 005a c0000203 14 0212 010400010001 010400020001 41040000fdea";

/// The OPENs that BIRD 2.0.12 of AS 65001 without AS numbers of four octets and GoBGP 3.10.0 of AS 65001 with them sent each other.
const BIRD: &str = "M 0029 01 04 fde9 00f0 c0000209 0c 020a 010400010001 0200 4600";

const GOBGP: &str =
    "M 003b 01 04 fde9 005a c0000208 1e 021c 0200 490402766d00 010400010001 41040000fde9 0506000100010002";

/// AS 65001 that sends path identifiers of IPv6, and AS 65002 that receives them (RFC 7911, section 4).
const SENDS: &str =
    "M 003701 04 fde9 005a c0000201 1a 0218 010400010001 010400020001 41040000fde9 450400020102";

const READS: &str =
    "M 003701 04 fdea 005a c0000202 1a 0218 010400010001 010400020001 41040000fdea 450400020101";

/// One that offers to receive them for IPv6, but with a Send/Receive of 4 after a good one, and so isn't understood.
const UNKNOWN: &str =
    "M 003b01 04 fdea 005a c0000202 1e 021c 010400010001 010400020001 41040000fdea 4508 00020101 00010104";

/// An UPDATE with a route of IPv6, a path with numbers of four octets and LOCAL_PREF: each flag decides about one of these.
const UPDATE: &str =
    "M 0048 02 0000 0031 800e1a 0002 01 10 20010db8000000000000000000000001 00 2020010db8 40010100 40020602010000fdea 40050400000064";

/// Paths 1 of 2001:db8::/32 and 2 of ::/0 are withdrawn.
const PATHS: &str = "M 002b 02 0000 0014 800f11 0002 01 00000001 20 20010db8 00000002 00";

/// The commands that agree by both OPENs.
#[derive(Clone, Copy, Debug, PartialEq, Eq)]
enum Way {
    Show,
    Json,
    Check,
    Narrow,
    Clean,
    /// `Clean`, where both offer ROUTE-REFRESH.
    CleanRefresh,
}

const WAYS: [Way; 5] = [Way::Show, Way::Json, Way::Check, Way::Narrow, Way::Clean];

fn by_opens(
    alloc: Global,
    way: Way,
    theirs: &[u8],
    input: &mut Drip<'_>,
    output: &mut Sheet,
) -> Result<Tally, ToolFault> {
    match way {
        Way::Show => show_by_opens(alloc, theirs, false, input, output),
        Way::Json => show_json_by_opens(alloc, theirs, false, input, output),
        Way::Check => check_by_opens(alloc, theirs, false, input, output),
        Way::Narrow => narrow_by_opens(alloc, theirs, input, output),
        Way::Clean | Way::CleanRefresh => clean_by_opens(
            alloc,
            theirs,
            &OctetSet::new(),
            &Limits::none(),
            false,
            input,
            output,
        ),
    }
}

fn by_opens_within(
    alloc: Global,
    turns: u32,
    way: Way,
    theirs: &[u8],
    input: &mut Drip<'_>,
) -> Result<Tally, ToolFault> {
    let mut output = Sheet::new();
    match way {
        Way::Show => show_by_opens_within(alloc, turns, theirs, false, input, &mut output),
        Way::Json => show_json_by_opens_within(alloc, turns, theirs, false, input, &mut output),
        Way::Check => check_by_opens_within(alloc, turns, theirs, false, input, &mut output),
        Way::Narrow => narrow_by_opens_within(alloc, turns, theirs, input, &mut output),
        Way::Clean | Way::CleanRefresh => {
            let none = OctetSet::new();
            clean_by_opens_within(
                alloc,
                turns,
                theirs,
                &none,
                &Limits::none(),
                false,
                input,
                &mut output,
            )
        }
    }
}

fn by_flags(
    alloc: Global,
    way: Way,
    ctx: &Context,
    input: &mut Drip<'_>,
    output: &mut Sheet,
) -> Result<Tally, ToolFault> {
    match way {
        Way::Show => show(alloc, ctx, false, input, output),
        Way::Json => show_json(alloc, ctx, false, input, output),
        Way::Check => check(alloc, ctx, false, input, output),
        Way::Narrow => narrow_stream(alloc, &Context { as4: true, ..*ctx }, input, output),
        Way::Clean => clean_stream(
            alloc,
            ctx,
            &OctetSet::new(),
            &Limits::none(),
            false,
            input,
            output,
        ),
        Way::CleanRefresh => clean_under(
            alloc,
            &WideTerms::with_refresh(*ctx, Refreshes::Plain),
            &OctetSet::new(),
            &Limits::none(),
            false,
            input,
            output,
        ),
    }
}

fn stream_of(alloc: Global, first: &str, second: &str) -> Result<Vec<u8>, Fail> {
    let mut octets = input_of(alloc, Tool::Show, first)?;
    octets.extend_from_slice(input_of(alloc, Tool::Show, second)?.as_slice())?;
    Ok(octets)
}

/// The output by both OPENs is that by the flags, whatever follows the first message of either.
fn assert_agreed(
    rt: &(impl Abort + AllocGlobal),
    way: Way,
    ours: &str,
    theirs: &str,
    ctx: &Context,
) -> Result<(), Fail> {
    let stream = stream_of(rt.alloc(), ours, UPDATE)?;
    let other = stream_of(rt.alloc(), theirs, "M001304 00")?;
    for step in [1, 7, 4096] {
        let mut flagged = Sheet::new();
        let mut opened = Sheet::new();
        let mut reader = Drip::new(stream.as_slice(), step);
        let wanted = by_flags(rt.alloc(), way, ctx, &mut reader, &mut flagged);
        let mut reader = Drip::new(stream.as_slice(), step);
        let found = by_opens(rt.alloc(), way, other.as_slice(), &mut reader, &mut opened);
        assert_eq!(rt; found, wanted, "{way:?} {theirs}");
        assert!(rt;
            opened.text.as_slice() == flagged.text.as_slice(),
            "{way:?} {theirs}"
        );
        assert_eq!(rt; opened.writes, flagged.writes, "{way:?} {theirs}");
    }
    Ok(())
}

/// A context without a hold time.
fn context(internal: bool, as4: bool, families: bool) -> Context {
    Context {
        internal,
        as4,
        ip4: families,
        ip6: families,
        hold: 0,
    }
}

#[test]
fn contexts_of_two_opens(rt: HostRuntime) -> Result<(), Fail> {
    for way in [Way::Show, Way::Json, Way::Check, Way::Clean] {
        assert_agreed(&rt, way, OURS, THEIRS, &context(false, true, true))?;
        assert_agreed(&rt, way, THEIRS, OURS, &context(false, true, true))?;
        assert_agreed(&rt, way, OURS, NARROW, &context(true, false, true))?;
        assert_agreed(&rt, way, NARROW, OURS, &context(true, false, true))?;
        assert_agreed(&rt, way, OURS, PLAIN, &context(true, false, false))?;
        assert_agreed(&rt, way, THEIRS, PLAIN, &context(false, false, false))?;
        assert_agreed(&rt, way, UNSEEN, PLAIN, &context(true, false, false))?;
        assert_agreed(&rt, way, PLAIN, UNSEEN, &context(true, false, false))?;
        assert_agreed(&rt, way, UNSEEN, OURS, &context(false, true, true))?;
        assert_agreed(&rt, way, READS, SENDS, &context(false, true, true))?;
        assert_agreed(&rt, way, SENDS, UNKNOWN, &context(false, true, true))?;
    }
    for way in [Way::Show, Way::Json, Way::Check, Way::CleanRefresh] {
        let ip4 = Context {
            ip4: true,
            ..context(true, false, false)
        };
        assert_agreed(&rt, way, BIRD, GOBGP, &ip4)?;
        assert_agreed(&rt, way, GOBGP, BIRD, &ip4)?;
    }
    assert_agreed(&rt, Way::Narrow, OURS, THEIRS, &context(false, true, true))
}

/// Without a context nothing is written, and no more is read than the first message.
fn assert_no_context(
    rt: &(impl Abort + AllocGlobal),
    way: Way,
    ours: &str,
    theirs: &str,
    why: NoContext,
) -> Result<(), Fail> {
    let other = input_of(rt.alloc(), Tool::Show, theirs)?;
    let first = input_of(rt.alloc(), Tool::Show, ours)?;
    let stream = stream_of(rt.alloc(), ours, UPDATE)?;
    let mut reader = Drip::new(stream.as_slice(), 1);
    let mut sheet = Sheet::new();
    let outcome = by_opens(rt.alloc(), way, other.as_slice(), &mut reader, &mut sheet);
    assert_eq!(rt; outcome, Err(ToolFault::NoContext(why)), "{way:?}");
    assert!(rt;
        sheet.text.is_empty() && reader.calls as usize == first.len(),
        "{way:?}"
    );
    Ok(())
}

#[test]
fn no_open_to_agree_with(rt: HostRuntime) -> Result<(), Fail> {
    for way in WAYS {
        assert_no_context(&rt, way, "M001304", THEIRS, NoContext::NoOpen)?;
    }
    Ok(())
}

#[test]
fn path_identifiers_are_not_read(rt: HostRuntime) -> Result<(), Fail> {
    assert_no_context(&rt, Way::Clean, SENDS, READS, NoContext::Paths)
}

/// What is written of a stream in which paths 1 of 2001:db8::/32 and 2 of ::/0 are withdrawn ends so.
fn assert_paths(rt: &(impl Abort + AllocGlobal), way: Way, end: &str) -> Result<(), Fail> {
    let other = input_of(rt.alloc(), Tool::Show, READS)?;
    let stream = stream_of(rt.alloc(), SENDS, PATHS)?;
    for step in [1, 4096] {
        let mut reader = Drip::new(stream.as_slice(), step);
        let mut sheet = Sheet::new();
        let outcome = by_opens(rt.alloc(), way, other.as_slice(), &mut reader, &mut sheet);
        assert!(rt; outcome.is_ok(), "{way:?}");
        assert!(rt; sheet.text.as_slice().ends_with(end.as_bytes()), "{way:?}");
    }
    Ok(())
}

#[test]
fn path_identifiers_are_read(rt: HostRuntime) -> Result<(), Fail> {
    assert_paths(
        &rt,
        Way::Show,
        "32 path 1\n  mp_withdrawn 0000:0000:0000:0000:0000:0000:0000:0000/0 path 2\nend wait 0\n",
    )?;
    assert_paths(
        &rt,
        Way::Json,
        "\"withdrawn\":[\"2001:db8::/32\",\"::/0\"],\"withdrawn_paths\":[1,2]},\"others\":[],\"nlri\":[],\"nlri_paths\":[],\"notes\":[]}\n{\"kind\":\"END\",\"end\":\"wait\",\"octets\":0}\n",
    )?;
    assert_paths(
        &rt,
        Way::Check,
        "messages 2 took 2 withdraw 0 reset 0\nend wait 0\n",
    )?;
    assert_paths(&rt, Way::Narrow, "")
}

/// A reader that fails before the first message is complete is reported, whatever the other direction has.
fn assert_read_fault(
    rt: &(impl Abort + AllocGlobal),
    way: Way,
    open: &[u8],
    theirs: &[u8],
    calls: u32,
) {
    let mut reader = Drip::new(open, 10).failing_after(calls);
    let mut sheet = Sheet::new();
    let outcome = by_opens(rt.alloc(), way, theirs, &mut reader, &mut sheet);
    assert_eq!(rt; outcome, Err(ToolFault::Read), "{way:?}");
    assert!(rt; sheet.text.is_empty(), "{way:?}");
}

/// The same for one that isn't called often enough.
fn assert_too_few(
    rt: &(impl Abort + AllocGlobal),
    way: Way,
    open: &[u8],
    theirs: &[u8],
    turns: u32,
) {
    let mut reader = Drip::new(open, 10);
    let outcome = by_opens_within(rt.alloc(), turns, way, theirs, &mut reader);
    assert_eq!(rt; outcome, Err(ToolFault::Read), "{way:?}");
    assert_eq!(rt; reader.calls, turns, "{way:?}");
}

#[test]
fn a_read_that_fails_is_told_first(rt: HostRuntime) -> Result<(), Fail> {
    let open = input_of(rt.alloc(), Tool::Show, OURS)?;
    for theirs in [open.as_slice(), &[0; 19], &[]] {
        for way in WAYS {
            for calls in [0, 1, 4] {
                assert_read_fault(&rt, way, open.as_slice(), theirs, calls);
                assert_too_few(&rt, way, open.as_slice(), theirs, calls);
            }
        }
    }
    Ok(())
}
