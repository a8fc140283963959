//! A connection from an address of this machine that the command line names.

use bgp_guard_net::connect_from;
use std::io::ErrorKind;
use std::net::{IpAddr, SocketAddr, TcpStream};
use std::os::fd::OwnedFd;
use std::time::Duration;
use std::{io, thread};

/// The milliseconds slept between two checks of a connection that is being made.
const PAUSE: u64 = 20;

/// The number of checks: for 10 seconds.
const LOOKS: u64 = 500;

/// Connects from an address of this machine, of the same family as the other one, and waits until the connection is up.
pub(crate) fn connect(rt: &HostRuntime, source: IpAddr, to: SocketAddr) -> io::Result<TcpStream> {
    let stream = connect_from(rt, source, to)?;
    for _look in 0..LOOKS {
        if let Some(error) = stream.take_error()? {
            return Err(error);
        }
        if stream.peer_addr().is_ok() {
            return Ok(TcpStream::from(OwnedFd::from(stream)));
        }
        thread::sleep(rt, Duration::from_millis(PAUSE));
    }
    Err(io::Error::from(ErrorKind::TimedOut))
}
