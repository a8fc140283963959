//! A wire over TCP, within one process.

ghost use Rattle.std.specs.Prelude.{◌≡◌, true, IfOk, IfErr};
ghost use Rattle.bgp_engine.specs.declared.fault.ToolFault.TheVariants.{Net};
ghost use Rattle.bgp_session.specs.Prelude.{failed_after};
ghost use Rattle.bgp_loop.specs.Carried.{IsCarried, IsPassed};

use bgp_engine::ToolFault;
use bgp_session::{Side, Wire};
use std::io;
use std::io::{ErrorKind, Read, Write};
use std::net::{Net, OpenListener, OpenStream, TcpListener, TcpStream};
use std::time::Duration;

/// How long an end waits for octets that were sent to it.
const PATIENCE_SECONDS: u64 = 10;

/// The number of octets passed at once.
const PIECE: usize = 4096;

/// Both ends of one connection.
#[derive(Drop)]
struct Ends<S: Drop> {
    a: S,
    b: S,
}

/// A wire over TCP on 127.0.0.1, whose ends are both in this process: it listens, connects and accepts. Octets that
/// don't arrive unchanged count as not passed.
#[derive(Drop)]
pub struct TcpWire<'a, R: Net> {
    net: &'a R,
    listener: R::Listener,
    ends: Option<Ends<R::Stream>>,
    failures: u32,
}

// An end sends without delay, and waits for octets only for a limited time.
fn set_up<S: OpenStream>(end: &S) -> io::Result<()> {
    end.set_nodelay(true)?;
    end.set_read_timeout(Some(Duration::from_secs(PATIENCE_SECONDS)))
}

// Sends octets from one end to the other, and overwrites them with what arrived. Answers whether they arrived
// unchanged: then they were appended at the one end and consumed at the other.
fn carry<S: Read + Write>(from: &mut S, to: &mut S, octets: &mut [u8]) -> bool
    ensures { result ≡ true → IsCarried octets.old octets.new (S.contents from.old) (S.contents from.new) (S.remaining to.old) (S.remaining to.new) }
{
    let mut came = [0; PIECE];
    let Some(came) = came.get_mut(..octets.len()) else {
        return false;
    };
    if from.write_all(octets).is_err() {
        return false;
    }
    if to.read_exact(came).is_err() {
        return false;
    }
    let same = *came == *octets;
    octets.copy_from_slice(came);
    same
}

// Counts an answer.
fn count(failures: &mut u32, answer: bool)
    ensures { failures.new ≡ failed_after failures.old answer }
{
    if !answer {
        *failures = failures.saturating_add(1);
    }
}

// Passes octets to an end from the other, where there is a connection.
fn pass_between<S: Read + Write + Drop>(
    ends: &mut Option<Ends<S>>,
    to: Side,
    octets: &mut [u8],
) -> bool
    ensures { result ≡ true → IsPassed (record { contents = S.contents; remaining = S.remaining }) to ends.old ends.new octets.old octets.new }
{
    match (ends, to) {
        (Some(ends), Side::A) => carry(&mut ends.b, &mut ends.a, octets),
        (Some(ends), Side::B) => carry(&mut ends.a, &mut ends.b, octets),
        (None, _) => false,
    }
}

impl<'a, R: Net> TcpWire<'a, R> {
    /// A wire that listens on a free port of 127.0.0.1.
    ///
    /// # Errors
    /// `Net` where that can't be set up.
    pub fn new(net: &'a R) -> Result<TcpWire<'a, R>, ToolFault>
        ensures ok { IfOk result (λ wire. wire.failures ≡ 0) }
        ensures fault { IfErr result (λ fault. fault ≡ Net) }
    {
        match TcpListener::bind(net, "127.0.0.1:0") {
            Ok(listener) => Ok(TcpWire {
                net,
                listener,
                ends: None,
                failures: 0,
            }),
            Err(_) => Err(ToolFault::Net),
        }
    }

    // Connects to its own listener.
    fn connect(&self) -> io::Result<Ends<R::Stream>> {
        let a = TcpStream::connect(self.net, self.listener.local_addr()?)?;
        let (b, peer) = self.listener.accept()?;
        if a.local_addr()? != peer {
            return Err(io::Error::from(ErrorKind::ConnectionRefused));
        }
        set_up(&a)?;
        set_up(&b)?;
        Ok(Ends { a, b })
    }
}

impl<R: Net> Wire for TcpWire<'_, R> {
    ghost use Rattle.std.specs.Prelude.{true};

    ghost honest = { λ _. true };

    ghost failed = { λ wire. wire.failures };

    fn join(&mut self) -> bool {
        self.ends = self.connect().ok();
        let joined = self.ends.is_some();
        count(&mut self.failures, joined);
        joined
    }

    fn pass(&mut self, to: Side, octets: &mut [u8]) -> bool
        ensures passed { result ≡ true → IsPassed (record { contents = R.Stream.contents; remaining = R.Stream.remaining }) to self.old.ends self.new.ends octets.old octets.new }
        ensures same { result ≡ true → octets.new ≡ octets.old }
        ensures failed { self.new.failures ≡ failed_after self.old.failures result }
    {
        let passed = pass_between(&mut self.ends, to, octets);
        count(&mut self.failures, passed);
        passed
    }

    fn cut(&mut self) {
        self.ends = None;
    }

    fn failures(&self) -> u32 {
        self.failures
    }
}
