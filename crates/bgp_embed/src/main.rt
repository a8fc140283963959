//! A session in a host's own program: what the peer says is written here, and what is to be done is printed.
#![tactic(auto)]

use bgp_frame::{Kind, head};
use bgp_host::{Clock, Connection, Host, Observer};
use bgp_machine::{Event, State, Timer};
use bgp_open::{Config, own_frame};
use bgp_update::{PathInfo, Routes, Update};
use std::io;

/// Prints what it is asked to do, and does none of it.
#[derive(Clone, Copy)]
struct Paper<'a> {
    rt: &'a HostRuntime,
}

impl Connection for Paper<'_> {
    fn seek(&mut self) -> bool {
        println!(self.rt; "seek").is_ok()
    }

    fn send(&mut self, octets: &[u8]) -> bool {
        println!(self.rt; "send {} octets", octets.len()).is_ok()
    }

    fn close(&mut self) {
        let _ = println!(self.rt; "close");
    }
}

impl Clock for Paper<'_> {
    fn arm(&mut self, timer: Timer, seconds: u16) {
        let _ = println!(self.rt; "arm {timer:?} {seconds}");
    }

    fn disarm(&mut self, timer: Timer) {
        let _ = println!(self.rt; "disarm {timer:?}");
    }
}

impl Observer for Paper<'_> {
    fn announce(&mut self, update: &Update, _info: &PathInfo) {
        let _ = println!(self.rt; "{} routes", update.nlri.len());
    }

    fn withdraw(&mut self, routes: &Routes) {
        let _ = println!(self.rt; "{} routes gone", routes.ip4.len());
    }

    fn flush(&mut self) {
        let _ = println!(self.rt; "all routes gone");
    }

    fn stand(&mut self, state: State) {
        let _ = println!(self.rt; "state {state:?}");
    }
}

fn main(rt: HostRuntime) -> io::Result<()> {
    let own = Config::new(65002, 65001, [192, 0, 2, 2], 90, true, true, false).unwrap();
    let peer = Config::new(65001, 65002, [192, 0, 2, 1], 30, true, true, false).unwrap();
    let paper = Paper { rt: &rt };
    let mut host = Host::new(own, paper, paper, paper);
    host.tell(Event::Start);
    host.hear(rt.alloc(), &own_frame(&peer))?;
    host.hear(rt.alloc(), &head(Kind::Keepalive, 0))?;
    host.tell(Event::Expired(Timer::Keepalive));
    host.tell(Event::Stop);
    Ok(())
}
