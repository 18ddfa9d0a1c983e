//! Clients that send no command while their places are wanted, over simulated streams and a simulated time.
use crate::sockets::arrived;
use play_outside::{Arrival, Link, LinkStep, Listener};
use real_devices::{DoorGroup, Place, TcpDoor, TcpLink};
use std::alloc::Global;
use std::fmt::Display;
use std::io::{self, Eprint, Error, ErrorKind, Read, Write};
use std::net::{Ipv4Addr, OpenStream, Shutdown, SocketAddr, TcpListener, TcpStream};
use std::sync::atomic::{AtomicU64, Ordering};
use std::test::Fail;
use std::time::{self, Duration};

/// Seconds that pass only when a test sets them, and a standard error that is discarded.
#[derive(Clone, Copy)]
struct Seconds<'a>(&'a AtomicU64);

impl Seconds<'_> {
    fn now(self) -> u64 {
        self.0.load(Ordering::SeqCst)
    }
}

impl time::Clock for Seconds<'_> {
    fn monotonic(&self) -> io::Result<Duration> {
        Ok(Duration::from_secs(self.now()))
    }

    fn since_1970(&self) -> io::Result<Duration> {
        self.monotonic()
    }
}

impl Eprint for Seconds<'_> {
    fn eprint<D: Display + Drop>(&self, _value: D) -> io::Result<()> {
        Ok(())
    }

    fn eprintln<D: Display + Drop>(&self, _value: D) -> io::Result<()> {
        Ok(())
    }
}

/// What a client sends.
#[derive(Clone, Copy)]
enum Client {
    /// These bytes at this second, and nothing else.
    Once(u64, &'static [u8]),
    /// These bytes at each second that is a multiple of this number.
    Each(u64, &'static [u8]),
    /// A word every other minute, and the end of its line in the minute after it.
    Halves,
    /// These bytes at each read.
    Flood(&'static [u8]),
    /// A command at each read of the first second. Its reply never ends, so that the client is read no more.
    Answered,
}

const VERSION: &[u8] = b"VERSION\r\n";

impl Client {
    /// Returns what the client sends at a second, and nothing if it has sent that already.
    fn sends(self, second: u64, is_sent: bool) -> &'static [u8] {
        match self {
            Client::Flood(bytes) => bytes,
            Client::Answered => VERSION,
            Client::Once(at, bytes) if second == at && !is_sent => bytes,
            Client::Each(seconds, bytes) if second.checked_rem(seconds) == Some(0) && !is_sent => {
                bytes
            }
            Client::Halves if second % 120 == 60 && !is_sent => b"VERSION",
            Client::Halves if second % 120 == 0 && !is_sent => b"\r\n",
            Client::Once(_, _) | Client::Each(_, _) | Client::Halves => b"",
        }
    }
}

/// The connection of a client.
#[derive(Drop)]
struct Wire<'a> {
    client: Client,
    time: Seconds<'a>,
    /// When the client last sent something.
    sent: Option<u64>,
}

impl Read for Wire<'_> {
    fn read(&mut self, buf: &mut [u8]) -> io::Result<usize> {
        let second = self.time.now();
        let bytes = self.client.sends(second, self.sent == Some(second));
        let count = bytes.len().min(buf.len());
        if count == 0 {
            return Err(Error::from(ErrorKind::WouldBlock));
        }
        self.sent = Some(second);
        buf[..count].copy_from_slice(&bytes[..count]);
        Ok(count)
    }
}

impl Write for Wire<'_> {
    fn write(&mut self, buf: &[u8]) -> io::Result<usize> {
        Ok(buf.len())
    }

    fn flush(&mut self) -> io::Result<()> {
        Ok(())
    }
}

impl OpenStream for Wire<'_> {
    fn shutdown(&self, _how: Shutdown) -> io::Result<()> {
        Ok(())
    }

    fn set_nodelay(&self, _nodelay: bool) -> io::Result<()> {
        Ok(())
    }

    fn set_read_timeout(&self, _dur: Option<Duration>) -> io::Result<()> {
        Ok(())
    }

    fn set_write_timeout(&self, _dur: Option<Duration>) -> io::Result<()> {
        Ok(())
    }
}

/// How many seconds a row lasts.
const LAST: u64 = 1_100;

/// Returns whether the connections are read at a second: at each of the first ones, at every twentieth, and at each around those at
/// which a client may be disconnected.
fn is_read_at(second: u64) -> bool {
    matches!(second, 0..=10 | 595..=625 | 995..=1_005) || second % 20 == 0
}

/// How many seconds after a client was disconnected another takes its place, which sends `VERSION` each minute.
const FREE_SECONDS: u64 = 10;

/// A name; clients that come at second 0, each to a place of its own; how many places are free beside them, and how many have a door
/// that was never asked; and who is disconnected: the second and the place.
type Row = (
    &'static str,
    &'static [Client],
    [u32; 2],
    &'static [(u64, usize)],
);

/// No place is free, and each door was asked.
const TAKEN: [u32; 2] = [0, 0];

const NOTHING: Client = Client::Once(0, b"");

static ROWS: [Row; 20] = [
    ("it says nothing", &[NOTHING], TAKEN, &[(600, 0)]),
    (
        "empty lines",
        &[Client::Each(60, b"\r\n")],
        TAKEN,
        &[(600, 0)],
    ),
    (
        "blanks",
        &[Client::Each(60, b" \t \r\n")],
        TAKEN,
        &[(600, 0)],
    ),
    (
        "half lines",
        &[Client::Each(60, b"VERSION")],
        TAKEN,
        &[(600, 0)],
    ),
    ("drips", &[Client::Each(1, b"V")], TAKEN, &[(600, 0)]),
    (
        "a flood without an end",
        &[Client::Flood(b"V")],
        TAKEN,
        &[(600, 0)],
    ),
    (
        "a flood of empty lines",
        &[Client::Flood(b"\r\n")],
        TAKEN,
        &[(600, 0)],
    ),
    ("a flood of lines", &[Client::Flood(b"V\r\n")], TAKEN, &[]),
    ("commands", &[Client::Each(60, VERSION)], TAKEN, &[]),
    ("a command in two pieces", &[Client::Halves], TAKEN, &[]),
    (
        "a command in time",
        &[Client::Each(599, VERSION)],
        TAKEN,
        &[],
    ),
    (
        "a command too late",
        &[Client::Each(601, VERSION)],
        TAKEN,
        &[(600, 0)],
    ),
    (
        "the first is silent for longer",
        &[NOTHING, Client::Once(5, VERSION)],
        TAKEN,
        &[(600, 0), (610, 1)],
    ),
    (
        "the second is silent for longer",
        &[Client::Once(5, VERSION), NOTHING],
        TAKEN,
        &[(600, 1), (611, 0)],
    ),
    (
        "all are silent for as long",
        &[NOTHING, NOTHING, NOTHING],
        TAKEN,
        &[(600, 0), (610, 1), (620, 2)],
    ),
    (
        "all places are taken again",
        &[NOTHING, Client::Once(400, VERSION)],
        TAKEN,
        &[(600, 0), (1_000, 1)],
    ),
    (
        "commands beside empty lines",
        &[Client::Each(60, VERSION), Client::Each(60, b"\r\n")],
        TAKEN,
        &[(600, 1)],
    ),
    (
        "one is being answered",
        &[Client::Answered, Client::Once(2, VERSION)],
        TAKEN,
        &[(602, 1)],
    ),
    (
        "a place is free",
        &[NOTHING, Client::Flood(b"V")],
        [1, 0],
        &[],
    ),
    ("a door was not asked", &[NOTHING], [0, 1], &[(600, 0)]),
];

/// A place, and the client there, if it is not free.
#[derive(Drop)]
struct Guest<'a> {
    place: Place,
    time: Seconds<'a>,
    client: Client,
    link: Option<TcpLink<Wire<'a>, Seconds<'a>>>,
    /// When the last client was disconnected.
    left: u64,
}

impl<'a> Guest<'a> {
    /// Returns a place with a client.
    fn new(place: Place, time: Seconds<'a>, client: Client) -> Result<Guest<'a>, Fail> {
        let mut guest = Guest {
            place,
            time,
            client,
            link: None,
            left: 0,
        };
        guest.sit(client)?;
        Ok(guest)
    }

    /// Lets a client come to the place.
    fn sit(&mut self, client: Client) -> Result<(), Fail> {
        self.place.be_free();
        let time = self.time;
        let wire = Wire {
            client,
            time,
            sent: None,
        };
        let address = SocketAddr::from((Ipv4Addr::LOCALHOST, 1));
        let link = TcpLink::new(wire, address, time, self.place.try_clone()?, 1)?;
        self.client = client;
        self.link = Some(link);
        Ok(())
    }

    /// Reads what the client sends at the present second, or lets another come. Returns whether the client is disconnected.
    fn turn(&mut self) -> Result<bool, Fail> {
        let second = self.time.now();
        let Some(link) = &mut self.link else {
            if second >= self.left.saturating_add(FREE_SECONDS) {
                self.sit(Client::Each(60, VERSION))?;
            }
            return Ok(false);
        };
        if matches!(self.client, Client::Answered) && second > 1 {
            return Ok(false);
        }
        if !fails(link) {
            return Ok(false);
        }
        self.place.be_free();
        self.link = None;
        self.left = second;
        Ok(true)
    }
}

/// Reads three times, or until a read fails. Returns whether one did.
fn fails<L: Link>(link: &mut L) -> bool {
    let mut buf = [0; 16];
    for _ in 0..3 {
        if matches!(link.read(&mut buf), LinkStep::Failed) {
            return true;
        }
    }
    false
}

/// Returns when which of these clients are disconnected, and how many places are free at the end.
fn play(
    alloc: Global,
    clients: &[Client],
    beside: [u32; 2],
) -> Result<(Vec<(u64, usize)>, usize), Fail> {
    let time = AtomicU64::new(0);
    let [free, unasked] = beside;
    let Ok(count) = u32::try_from(clients.len()) else {
        return Err(Fail::from("fewer clients"));
    };
    let all = count.saturating_add(free).saturating_add(unasked);
    let group = DoorGroup::new(alloc, all)?;
    let mut guests = Vec::new(alloc);
    for client in clients {
        guests.push(Guest::new(group.place()?, Seconds(&time), *client)?)?;
    }
    for _ in 0..free {
        group.place()?.be_free();
    }
    let mut gone = Vec::new(alloc);
    for second in 1..=LAST {
        if !is_read_at(second) {
            continue;
        }
        time.store(second, Ordering::SeqCst);
        for (at, guest) in guests.iter_mut().enumerate() {
            if guest.turn()? {
                gone.push((second, at))?;
            }
        }
    }
    Ok((gone, group.free()))
}

/// No clause says which client is disconnected and when.
#[test]
fn the_longest_silent_goes(rt: HostRuntime) -> Result<(), Fail> {
    for (name, clients, beside, gone) in ROWS {
        let (left, free) = play(rt.alloc(), clients, beside)?;
        assert_eq!(rt; left.as_slice(), gone, "{name}");
        assert_eq!(rt; free, beside[0] as usize, "{name}");
    }
    Ok(())
}

/// No clause says how many places are free. The door has the one place of its group.
#[test]
fn a_place_is_free_once(rt: HostRuntime) -> Result<(), Fail> {
    let time = AtomicU64::new(0);
    let listener = TcpListener::bind(&rt, "127.0.0.1:0")?;
    let port = listener.local_addr()?.port();
    let group = DoorGroup::new(rt.alloc(), 1)?;
    let mut door = TcpDoor::new(listener, Seconds(&time), group.try_clone()?, 1)?;
    assert_eq!(rt; group.free(), 0);
    for _ in 0..2 {
        let _client = TcpStream::connect(&rt, ("127.0.0.1", port))?;
        let mut link = arrived(&mut door).ok_or("a link")?;
        assert_eq!(rt; group.free(), 0);
        time.fetch_add(599, Ordering::SeqCst);
        assert!(rt; !fails(&mut link));
        time.fetch_add(1, Ordering::SeqCst);
        assert!(rt; fails(&mut link));
        assert_eq!(rt; group.free(), 1);
        door.give_back(link);
        assert_eq!(rt; group.free(), 1);
    }
    let _client = TcpStream::connect(&rt, ("127.0.0.1", port))?;
    drop(arrived(&mut door).ok_or("a link")?);
    assert_eq!(rt; group.free(), 0);
    assert!(rt; matches!(door.next(), Arrival::Again));
    assert_eq!(rt; group.free(), 1);
    Ok(())
}
