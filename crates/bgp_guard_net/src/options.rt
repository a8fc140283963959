//! Options of a connection, and whether a descriptor is ready.

use crate::connecting::check;
use libc::net as c;
use libc::types::pollfd;
use mio::net::TcpStream;
use std::io;
use std::os::fd::{AsRawFd, RawFd};

/// After this many seconds of silence TCP sends a keepalive probe.
const IDLE_SECONDS: i32 = 90;

/// The seconds between two probes.
const PROBE_SECONDS: i32 = 30;

/// After this many unanswered probes the connection has failed.
const PROBES: i32 = 3;

// A value in C's form.
fn value(number: i32) -> [u8; 16] {
    let mut octets = [0_u8; 16];
    octets[..4].copy_from_slice(&number.to_ne_bytes());
    octets
}

/// Turns on TCP keepalives: an end that has vanished is found within 3 minutes.
///
/// # Errors
/// That of the system.
pub fn probe(stream: &TcpStream) -> io::Result<()> {
    let fd = stream.as_raw_fd();
    let tcp = c::IPPROTO_TCP;
    check(unsafe { c::setsockopt(fd, c::SOL_SOCKET, c::SO_KEEPALIVE, &value(1), 4) })?;
    check(unsafe { c::setsockopt(fd, tcp, c::TCP_KEEPIDLE, &value(IDLE_SECONDS), 4) })?;
    check(unsafe { c::setsockopt(fd, tcp, c::TCP_KEEPINTVL, &value(PROBE_SECONDS), 4) })?;
    check(unsafe { c::setsockopt(fd, tcp, c::TCP_KEEPCNT, &value(PROBES), 4) })
}

// Those of these events for which a descriptor is ready now, or that it has failed or ended.
fn ready(fd: RawFd, events: i16) -> i16 {
    let mut fds = [pollfd {
        fd,
        events,
        revents: 0,
    }];
    let _count = c::poll(&mut fds, 0);
    let [found] = fds;
    found.revents
}

/// Whether a short line can be written to a descriptor without blocking, and its other end is open.
pub fn has_room(fd: RawFd) -> bool {
    ready(fd, c::POLLOUT) & (c::POLLOUT | c::POLLERR) == c::POLLOUT
}

/// Whether reading a descriptor doesn't block: it has octets, or has ended.
pub fn has_input(fd: RawFd) -> bool {
    ready(fd, c::POLLIN) != 0
}
