//! The callers of a server: connections of this machine over TCP, one after the other.

use std::io;
use std::io::{ErrorKind, Read};
use std::net::{IpAddr, Ipv4Addr, Net, OpenListener, OpenStream, Shutdown, SocketAddr};
use std::time::Duration;

const PORT: u16 = 9996;

// So many seconds a caller may send nothing, or take nothing, until its line fails.
const PATIENCE: u64 = 5;

// So many milliseconds one that was answered may be silent, while what it still sends is dropped.
const FAREWELL: u64 = 250;

/// Who is served.
#[derive(Drop)]
pub enum Caller<S: Drop> {
    /// Standard input and output, until the first connection.
    Standard,
    Connected(S),
    Nobody,
}

/// A listener on port 9996 of 127.0.0.1, opened for the first caller, and who is served now.
#[derive(Drop)]
pub struct HostCallers<R: Net> {
    listener: Option<R::Listener>,
    pub caller: Caller<R::Stream>,
}

impl<R: Net> HostCallers<R> {
    pub fn new() -> HostCallers<R> {
        HostCallers {
            listener: None,
            caller: Caller::Standard,
        }
    }

    /// Leaves the caller that is served now, where it is one of these.
    pub fn leave(&mut self) {
        if let Caller::Connected(caller) = std::mem::replace(&mut self.caller, Caller::Nobody) {
            leave(caller);
        }
    }

    /// Leaves the caller that is served now, and waits for the next one.
    pub fn next(&mut self, rt: &R) -> io::Result<()> {
        self.leave();
        let listener = match self.listener.take() {
            Some(listener) => listener,
            None => rt.bind(SocketAddr::new(IpAddr::V4(Ipv4Addr::LOCALHOST), PORT))?,
        };
        let accepted = accept::<R>(&listener);
        self.listener = Some(listener);
        self.caller = Caller::Connected(accepted?);
        Ok(())
    }
}

fn accept<R: Net>(listener: &R::Listener) -> io::Result<R::Stream> {
    let (caller, _) = listener.accept()?;
    let patience = Some(Duration::from_secs(PATIENCE));
    caller.set_read_timeout(patience)?;
    caller.set_write_timeout(patience)?;
    Ok(caller)
}

// Says that nothing more is sent, and drops what the caller still sends: a connection that is closed over bytes that
// nobody took is reset, and its caller may lose the reply.
fn leave<S: Read + OpenStream + Drop>(caller: S) {
    let mut caller = caller;
    let _ = caller.shutdown(Shutdown::Write);
    let _ = caller.set_read_timeout(Some(Duration::from_millis(FAREWELL)));
    let mut dropped = [0; 65_536];
    for _ in 0..256 {
        match caller.read(&mut dropped) {
            Ok(0) | Err(_) => return,
            Ok(_) => {}
        }
    }
}

/// The error where nobody is served.
pub fn nobody() -> io::Error {
    io::Error::from(ErrorKind::NotConnected)
}
