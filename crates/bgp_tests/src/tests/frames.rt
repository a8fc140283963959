//! A framer that is made by `Default`.

use bgp_frame::*;
use std::test::*;

#[test]
fn two_keepalives(rt: HostRuntime) {
    let keepalive = head(Kind::Keepalive, 0);
    assert!(rt;
        keepalive
            == [
                255, 255, 255, 255, 255, 255, 255, 255, 255, 255, 255, 255, 255, 255, 255, 255, 0,
                19, 4
            ]
    );
    let mut framer = Framer::default();
    for _ in 0..2u8 {
        assert!(rt; framer.feed(&keepalive) == 19);
        assert_eq!(rt; framer.feed(&keepalive), 0, "a message is held");
        match framer.step() {
            Step::Frame(frame) => assert!(rt;
                frame.kind == Kind::Keepalive && frame.body.is_empty()
            ),
            Step::More | Step::Fault(_) => assert!(rt; false, "a message is held"),
        }
        framer.take();
    }
    assert!(rt; framer.held() == 0);
}
