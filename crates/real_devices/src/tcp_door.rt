//! A listening socket for connections over TCP.
ghost use Rattle.std.specs.Prelude.{◌≡◌, ◌↔◌, ◌<◌, IfOk, IsTrue};
ghost use Rattle.std.specs.IoError.{raw_os_error};
ghost use Rattle.play_outside.specs.Listener.{Arrives, IfCame};
ghost use Rattle.play_outside.specs.declared.listener.TheConstants.{MOST_AWAY};
ghost use Rattle.real_devices.specs.Fresh.{quiet_door, quiet_sink};
ghost use Rattle.real_devices.specs.State.{door_state, link_state};
ghost use Rattle.real_devices.specs.inner.Accepting.{HasFailed};

use crate::complaint::{complain, complain_of_client, complain_of_socket, say_left_out};
use crate::door_group::DoorGroup;
use crate::place::Place;
use crate::tcp_link::{TcpLink, is_pause};
use play_outside::{Arrival, Listener};
use std::io::{self, Eprint, ErrorKind};
use std::net::{SocketAddr, TcpListener, TcpStream};
use std::os::fd::OwnedFd;
use std::thread;
use std::time::{Clock, Duration};

/// For how many milliseconds a door waits for a connection in one call.
const LOOK_MILLIS: u64 = 1_000;

/// For how many milliseconds a door sleeps after an error of its socket that passes.
const PAUSE_MILLIS: u64 = 100;

/// Linux's numbers of the errors of `accept` that do not pass.
const BAD_DESCRIPTOR: i32 = 9;

const BAD_ADDRESS: i32 = 14;

const INVALID_ARGUMENT: i32 = 22;

const NOT_A_SOCKET: i32 = 88;

/// A listening socket, which doors may share. It reports on standard error why a call failed. Its state does not hold
/// what was given back.
#[derive(Drop)]
pub struct TcpDoor<R> {
    listener: TcpListener,
    rt: R,
    place: Place,
    away: u32,
    faults: u64,
    idles: u64,
    mark: u64,
}

impl<R: Clock + Eprint + Copy + Drop> TcpDoor<R> {
    /// Takes a listening socket, whose calls wait for a second at most from then on. The door takes a place of `group`,
    /// which all doors of the socket share. It has this mark, and no call of it was made yet. Fails with the error of
    /// the system, or if the group has no place left.
    pub fn new(listener: TcpListener, rt: R, group: DoorGroup, mark: u64) -> io::Result<TcpDoor<R>>
        ensures { IfOk result (λ door. door_state door ≡ quiet_door mark) }
    {
        listener.set_nonblocking(false)?;
        limit_wait(&listener)?;
        Ok(TcpDoor {
            listener,
            rt,
            place: group.place()?,
            away: 0,
            faults: 0,
            idles: 0,
            mark,
        })
    }

    /// Returns the address that the socket listens on, with the port that the system chose if 0 was asked for.
    pub fn address(&self) -> io::Result<SocketAddr> {
        self.listener.local_addr()
    }

    /// Reports how many lines about the doors of the group and their connections were left out since the last ones.
    pub fn say_left_out(&self) {
        say_left_out(&self.rt, "connections", self.place.group().clients().take());
        say_left_out(
            &self.rt,
            "listening socket",
            self.place.group().socket().take(),
        );
    }

    /// Makes a link of a connection that was accepted, unless its client has reset it since.
    fn link(&self, stream: TcpStream, client: SocketAddr) -> io::Result<TcpLink<TcpStream, R>>
        ensures { IfOk result (λ link. link_state link ≡ quiet_sink self.now.mark) }
    {
        if let Some(error) = stream.take_error()? {
            return Err(error);
        }
        TcpLink::new(stream, client, self.rt, self.place.try_clone()?, self.mark)
    }

    /// Accepts a connection, if one comes within a second. The door is free until its link is made.
    fn look(&mut self) -> Arrival<TcpLink<TcpStream, R>>
        requires { self.old.away < MOST_AWAY }
        ensures arrives { Arrives result (door_state self.old) (door_state self.new) }
        ensures fresh { IfCame result (λ line. link_state line ≡ quiet_sink self.old.mark) }
    {
        self.place.be_free();
        match self.listener.accept() {
            Ok((stream, client)) => match self.link(stream, client) {
                Ok(line) => {
                    self.away += 1;
                    Arrival::Came(line)
                }
                Err(error) => {
                    complain_of_client(&self.rt, self.place.group().clients(), &client, &error);
                    self.idles = self.idles.saturating_add(1);
                    Arrival::Again
                }
            },
            Err(error) if has_failed(&error) => {
                complain(&self.rt, "listening socket", &error);
                self.faults = self.faults.saturating_add(1);
                Arrival::Failed
            }
            Err(error) => {
                self.wait_after(&error);
                self.idles = self.idles.saturating_add(1);
                Arrival::Again
            }
        }
    }

    /// Reports what is wrong with the socket, and sleeps for a moment, unless the error only means that no connection
    /// has come.
    fn wait_after(&self, error: &io::Error) {
        if is_pause(error.kind()) || is_of_client(error.kind()) {
            return;
        }
        complain_of_socket(&self.rt, self.place.group().socket(), error);
        thread::sleep(&self.rt, Duration::from_millis(PAUSE_MILLIS));
    }
}

impl<R: Clock + Eprint + Copy + Drop + Send> Listener for TcpDoor<R> {
    type Line = TcpLink<TcpStream, R>;

    ghost state = { door_state };

    /// Accepts a connection. It returns `Again` if none comes within a second, if the client ends it before it is
    /// accepted, or if the system is short of something that may come back.
    fn next(&mut self) -> Arrival<TcpLink<TcpStream, R>> {
        self.place.group().begin_call();
        let arrival = self.look();
        self.place.group().end_call();
        arrival
    }

    /// Closes the connection. The door is free from then on.
    fn give_back(&mut self, line: TcpLink<TcpStream, R>) {
        self.place.group().begin_call();
        self.place.be_free();
        line.close(&self.rt);
        self.away -= 1;
        self.place.group().end_call();
    }
}

/// Limits how long a call of `accept` waits. The system has one limit for the reads of a stream and for the calls of a
/// listening socket.
fn limit_wait(listener: &TcpListener) -> io::Result<()> {
    let socket = OwnedFd::from(listener.try_clone()?);
    let wait = Duration::from_millis(LOOK_MILLIS);
    TcpStream::from(socket).set_read_timeout(Some(wait))
}

/// Returns whether an error of the listening socket does not pass. All others may: too many open files, lack of memory,
/// what a firewall forbids, and faults of the network or of a single connection.
fn has_failed(error: &io::Error) -> bool
    ensures { IsTrue result ↔ HasFailed (raw_os_error error.now) }
{
    match error.raw_os_error() {
        Some(code) => matches!(
            code,
            BAD_DESCRIPTOR | BAD_ADDRESS | INVALID_ARGUMENT | NOT_A_SOCKET
        ),
        None => false,
    }
}

/// Returns whether an error of the listening socket means that the client of a connection has gone.
fn is_of_client(kind: ErrorKind) -> bool {
    matches!(
        kind,
        ErrorKind::ConnectionAborted | ErrorKind::ConnectionReset
    )
}
