//! The receivers of status messages.

use crate::said::{not_opened, say_receiver};
use play_outside::FileFault;
use std::alloc::{AllocError, Global};
use std::io::{self, Eprint, Error, ErrorKind};
use std::net::{Net, SocketAddr, ToSocketAddrs, UdpSocket};

/// Where a socket is bound whose receiver has an address of IPv4.
const ANY_V4: &str = "0.0.0.0:0";

/// Where a socket is bound whose receiver has an address of IPv6.
const ANY_V6: &str = "[::]:0";

/// A receiver of datagrams.
#[derive(Drop)]
pub struct Receiver {
    socket: UdpSocket,
    address: SocketAddr,
    /// Whether the last datagram could not be sent.
    has_failed: bool,
}

impl Receiver {
    /// Looks up a host and a port, and makes a socket from which datagrams are sent there.
    pub fn find<R: Net>(rt: &R, receiver: &str) -> io::Result<Receiver> {
        let Some(address) = receiver.to_socket_addrs(rt)?.next() else {
            return Err(Error::from(ErrorKind::NotFound));
        };
        let any = if address.is_ipv4() { ANY_V4 } else { ANY_V6 };
        let socket = UdpSocket::bind(rt, any)?;
        socket.set_nonblocking(true)?;
        Ok(Receiver {
            socket,
            address,
            has_failed: false,
        })
    }

    /// Sends datagrams without waiting. What the system does not take is lost, and standard error says the first error
    /// after a datagram that was sent.
    fn send<E: Eprint>(&mut self, errors: &E, datagrams: &[Vec<u8>]) {
        for datagram in datagrams {
            match self.socket.send_to(datagram.as_slice(), self.address) {
                Ok(_) => self.has_failed = false,
                Err(error) => self.miss(errors, &error),
            }
        }
    }

    /// Reports an error, unless the last datagram met one too.
    fn miss<E: Eprint>(&mut self, errors: &E, error: &Error) {
        if !self.has_failed {
            self.has_failed = true;
            say_receiver(errors, &self.address, error);
        }
    }
}

/// Looks up all receivers, and reports the first one that is not found.
pub fn find_receivers<R: Net + Eprint>(
    rt: &R,
    alloc: Global,
    names: &[String],
) -> Result<Vec<Receiver>, FileFault> {
    let mut receivers = Vec::new(alloc);
    for name in names {
        match Receiver::find(rt, name.as_str()) {
            Ok(receiver) => add(&mut receivers, receiver)?,
            Err(error) => return Err(not_opened(rt, name.as_str(), &error)),
        }
    }
    Ok(receivers)
}

/// Adds a receiver.
fn add(receivers: &mut Vec<Receiver>, receiver: Receiver) -> Result<(), AllocError> {
    receivers.push(receiver)?;
    Ok(())
}

/// Sends each datagram to each receiver.
pub fn send_all<E: Eprint>(errors: &E, receivers: &mut Vec<Receiver>, datagrams: &[Vec<u8>]) {
    for receiver in receivers.iter_mut() {
        receiver.send(errors, datagrams);
    }
}
