//! Prefixes, runs and their text.

use bgp_prefix::*;
use std::cmp::Ordering;
use std::test::*;

#[test]
fn prefixes_of_four_octets(rt: HostRuntime) -> Result<(), Fail> {
    let ten = Prefix4::new(8, [10, 0, 0, 0]).ok_or("8 bits")?;
    assert!(rt; ten.len() == 8);
    assert!(rt; ten.addr() == [10, 0, 0, 0]);
    assert!(rt; format!(in rt.alloc(); "{ten}")?.as_str() == "10.0.0.0/8");
    assert!(rt; Prefix4::new(9, [10, 255, 0, 0]).is_none());
    assert!(rt; Prefix4::new(33, [0, 0, 0, 0]).is_none());
    assert!(rt; Prefix4::new(0, [0, 0, 0, 1]).is_none());
    assert!(rt; Prefix4::new(32, [255, 255, 255, 255]).is_some());
    Ok(())
}

#[test]
fn addresses_as_text(rt: HostRuntime) -> Result<(), Fail> {
    let first = Address([192, 0, 2, 1]);
    assert!(rt; format!(in rt.alloc(); "{first}")?.as_str() == "192.0.2.1");
    let second = Address([
        0x20, 1, 0x0d, 0xb8, 0, 0, 0, 0, 0, 0, 0, 0, 0, 0, 0xab, 0xcd,
    ]);
    assert!(rt;
        format!(in rt.alloc(); "{second}")?.as_str() == "2001:0db8:0000:0000:0000:0000:0000:abcd"
    );
    Ok(())
}

#[test]
fn prefixes_in_order(rt: HostRuntime) -> Result<(), Fail> {
    let ten = Prefix4::new(8, [10, 0, 0, 0]).ok_or("8 bits")?;
    let longer = Prefix4::new(9, [10, 0, 0, 0]).ok_or("9 bits")?;
    let eleven = Prefix4::new(8, [11, 0, 0, 0]).ok_or("8 bits")?;
    assert!(rt; ten < longer);
    assert!(rt; longer < eleven);
    assert!(rt; eleven.cmp(&longer) == Ordering::Greater);
    assert!(rt; ten.cmp(&ten) == Ordering::Equal);
    let low = Prefix6::new(128, [1; 16]).ok_or("128 bits")?;
    let high = Prefix6::new(1, [128, 0, 0, 0, 0, 0, 0, 0, 0, 0, 0, 0, 0, 0, 0, 0]).ok_or("1 bit")?;
    assert!(rt; low < high);
    Ok(())
}

#[test]
fn runs_of_four_octets(rt: HostRuntime) -> Result<(), Fail> {
    // Octets, the prefix in them, and its octets when it is written again.
    let rows: [(&[u8], u8, [u8; 4], &[u8]); 4] = [
        (&[0x09, 0x0a, 0xff], 9, [10, 128, 0, 0], &[0x09, 0x0a, 0x80]),
        (&[0x00], 0, [0, 0, 0, 0], &[0x00]),
        (&[0x08, 0x0a], 8, [10, 0, 0, 0], &[0x08, 0x0a]),
        (
            &[0x20, 192, 0, 2, 1],
            32,
            [192, 0, 2, 1],
            &[0x20, 192, 0, 2, 1],
        ),
    ];
    for (octets, len, addr, again) in rows {
        assert!(rt; check_run4(octets));
        let prefixes = read_run4(rt.alloc(), octets).ok().ok_or("a run")?;
        let wanted = Prefix4::new(len, addr).ok_or("a prefix")?;
        assert!(rt; prefixes.as_slice() == [wanted].as_slice());
        let mut out = vec![in rt.alloc(); 7u8]?;
        write_run4(prefixes.as_slice(), &mut out)?;
        assert!(rt; &out[1..] == again);
        assert!(rt; out[0] == 7);
    }
    Ok(())
}

#[test]
fn octets_that_are_no_run(rt: HostRuntime) {
    let faults: [(&[u8], RunFault); 4] = [
        (&[0x21], RunFault::TooLong),
        (&[0x18, 0x0a, 0x00], RunFault::PastEnd),
        (&[0x08, 0x0a, 0x21], RunFault::TooLong),
        (&[0x18, 0x0a, 0x21], RunFault::PastEnd),
    ];
    for (octets, fault) in faults {
        assert!(rt; !check_run4(octets));
        assert!(rt; matches!(read_run4(rt.alloc(), octets), Err(found) if found == fault));
    }
    assert!(rt; !check_run6(&[0x81]));
    assert!(rt; matches!(read_run6(rt.alloc(), &[0x81]), Err(RunFault::TooLong)));
    assert!(rt; matches!(read_run6(rt.alloc(), &[0x80]), Err(RunFault::PastEnd)));
}

#[test]
fn an_iterator_stops_at_the_first_fault(rt: HostRuntime) -> Result<(), Fail> {
    let mut iter = PrefixIter4::new(&[0x08, 0x0a, 0x21]);
    assert!(rt; iter.left() == 1);
    assert!(rt; iter.next() == Prefix4::new(8, [10, 0, 0, 0]));
    assert!(rt; iter.left() == 0);
    assert!(rt; iter.next() == None);
    assert!(rt; iter.next() == None);
    Ok(())
}

#[test]
fn runs_of_sixteen_octets(rt: HostRuntime) -> Result<(), Fail> {
    let octets = [0x20u8, 0x20, 0x01, 0x0d, 0xb8];
    assert!(rt; check_run6(&octets));
    let prefixes = read_run6(rt.alloc(), &octets).ok().ok_or("a run")?;
    assert!(rt; prefixes.len() == 1);
    for prefix in prefixes.iter() {
        assert!(rt;
            format!(in rt.alloc(); "{prefix}")?.as_str()
                == "2001:0db8:0000:0000:0000:0000:0000:0000/32"
        );
        assert!(rt; PrefixIter6::new(&octets).next() == Some(*prefix));
    }
    let mut out = Vec::new(rt.alloc());
    write_run6(prefixes.as_slice(), &mut out)?;
    assert!(rt; out.as_slice() == octets.as_slice());
    let all = Prefix6::new(128, [255; 16]).ok_or("128 bits")?;
    assert!(rt;
        format!(in rt.alloc(); "{all}")?.as_str() == "ffff:ffff:ffff:ffff:ffff:ffff:ffff:ffff/128"
    );
    assert!(rt; Prefix6::new(129, [0; 16]).is_none());
    Ok(())
}
