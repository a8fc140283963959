//! The calls of C that make the connection.

ghost use Rattle.std.specs.Prelude.{◌↔◌, pos, ◌≤ℤ◌, IsOk};

use crate::address::raw;
use libc::net as c;
use mio::net::TcpStream;
use os::FromRawFd;
use std::io;
use std::net::{IpAddr, Net, SocketAddr};
use std::os::fd::{AsRawFd, OwnedFd};

/// The error of the last call, where its status is negative.
pub(crate) fn check(status: i32) -> io::Result<()>
    ensures { IsOk result ↔ (pos 0 ≤ℤ status) }
{
    if status < 0 {
        Err(io::Error::from_raw_os_error(os::errno()))
    } else {
        Ok(())
    }
}

// A non-blocking TCP socket, of the family of an address.
fn socket_for(address: SocketAddr) -> io::Result<OwnedFd> {
    let kind = c::SOCK_STREAM | c::SOCK_NONBLOCK | c::SOCK_CLOEXEC;
    let socket = match address {
        SocketAddr::V4(_) => unsafe { c::socket(c::AF_INET, kind, 0) },
        SocketAddr::V6(_) => unsafe { c::socket(c::AF_INET6, kind, 0) },
    };
    check(socket)?;
    Ok(unsafe { OwnedFd::from_raw_fd(socket) })
}

// Binds a socket to a local address; the system chooses the port.
fn bind(socket: &OwnedFd, source: IpAddr) -> io::Result<()> {
    let source = raw(SocketAddr::new(source, 0));
    check(unsafe { c::bind(socket.as_raw_fd(), &source.octets, source.len) })
}

/// Begins to connect from an address of this machine, of the same family as the other one, and returns at once. The
/// result is found as after [`TcpStream::connect`].
///
/// # Errors
/// That of the system, as where the address isn't this machine's.
pub fn connect_from(_net: &impl Net, source: IpAddr, to: SocketAddr) -> io::Result<TcpStream> {
    let socket = socket_for(to)?;
    bind(&socket, source)?;
    let to = raw(to);
    match check(unsafe { c::connect(socket.as_raw_fd(), &to.octets, to.len) }) {
        Err(error) if error.raw_os_error() != Some(libc::EINPROGRESS) => Err(error),
        _ => Ok(TcpStream::from(socket)),
    }
}
