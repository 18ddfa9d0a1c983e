//! Devices of the operating system: a connection over loopback, the time of pulses, and files.
ghost use Rattle.std.specs.Prelude.{◌≡◌, ◌<◌, IfSome};

use play_outside::{Arrival, Beat, Clock, FileFault, Link, LinkStep, Listener, Rest, Sent, send};
use play_types::{Channel, ChannelList, Config, Text};
use real_devices::{DoorGroup, RateClock, RealDevices, TcpDoor, finish, ready, start_threads};
use std::alloc::{AllocGlobal, Global};
use std::fs::{File, Files};
use std::io::Write;
use std::net::{TcpListener, TcpStream};
use std::process::Abort;
use std::test::Fail;
use std::time::{Duration, Instant};
use std::{fs, io, thread};

/// How often a door is asked for a connection that has been made, at most.
const LOOKS: u32 = 200;

/// Returns a connection that comes to a door.
pub(crate) fn arrived<D: Listener>(door: &mut D) -> Option<D::Line>
    requires { (D.state door.old).away ≡ 0 }
    ensures { IfSome result (λ line. (D.state door.new).away ≡ 1) }
{
    for _ in 0..LOOKS {
        match door.next() {
            Arrival::Came(line) => return Some(line),
            Arrival::Again | Arrival::Closed | Arrival::Failed => {}
        }
    }
    None
}

/// Takes a connection that comes to a door, reads nine bytes of it, answers, and gives it back.
fn serve<D: Listener>(door: &mut D) -> Option<(LinkStep, Sent)>
    requires { (D.state door.old).away ≡ 0 }
{
    let mut line = arrived(door)?;
    let mut buf = [0; 9];
    let step = line.read(&mut buf);
    let sent = send(b"201 VERSION OK\r\n", &mut line);
    door.give_back(line);
    Some((step, sent))
}

/// No clause says which bytes a client receives. A client that sends more than is read still gets its reply.
#[test]
fn answers_a_client(rt: HostRuntime) -> Result<(), Fail> {
    let listener = TcpListener::bind(&rt, "127.0.0.1:0")?;
    let port = listener.local_addr()?.port();
    let mut door = TcpDoor::new(listener, rt, DoorGroup::new(rt.alloc(), 1)?, 1)?;
    let mut client = TcpStream::connect(&rt, ("127.0.0.1", port))?;
    client.write_all(b"VERSION\r\nINFO\r\n")?;
    let served = serve(&mut door);
    assert_eq!(rt; served, Some((LinkStep::Got(9), Sent::All)));
    let reply = io::read_to_string(rt.alloc(), client)?;
    assert_eq!(rt; reply.as_str(), "201 VERSION OK\r\n");
    Ok(())
}

/// No clause speaks of time.
#[test]
fn gives_pulses_in_time(rt: HostRuntime) -> Result<(), Fail> {
    let start = Instant::now(&rt)?;
    let mut clock = RateClock::new(rt, 240, 1);
    for _ in 0..24 {
        assert_eq!(rt; clock.next(), Beat::Pulse);
    }
    assert!(rt; start.elapsed(&rt)? >= Duration::from_millis(90));
    Ok(())
}

/// Returns a configuration with an address, a media folder, and an output for each of two channels.
fn config_of(
    alloc: Global,
    address: &str,
    media: &str,
    outputs: [&str; 2],
) -> Result<Config, Fail> {
    let mut channels = ChannelList::new(alloc);
    for output in outputs {
        let channel = Channel::new(1, 1, 0, Text::copy(alloc, output)?);
        channels.push(channel.ok_or("no channel")?)?;
    }
    let (address, media) = (Text::copy(alloc, address)?, Text::copy(alloc, media)?);
    Ok(Config::new(address, media, 25, 3, 9, channels).ok_or("no configuration")?)
}

/// The paths of the outputs.
const OUTPUTS: [&str; 2] = ["real_devices_test/a", "real_devices_test/b"];

/// Writes to each output and to the history, and returns whether all was taken.
fn write_to_all(devices: RealDevices<HostRuntime>) -> bool {
    let mut devices = devices;
    let mut all = matches!(send(b"history", &mut devices.history), Sent::All);
    for out in devices.outs.iter_mut() {
        all = all && matches!(send(b"frame", out), Sent::All);
    }
    all
}

/// No clause says what a file holds, and none that devices are made.
#[test]
fn makes_devices(rt: HostRuntime) -> Result<(), Fail> {
    let alloc = rt.alloc();
    fs::create_dir_all(&rt, "real_devices_test")?;
    for path in OUTPUTS {
        fs::write(&rt, path, "what an earlier run wrote")?;
    }
    let config = config_of(alloc, "127.0.0.1:0", "m", OUTPUTS)?;
    let devices = ready(rt, &rt, alloc, &config, None, None, None)?;
    assert!(rt; write_to_all(devices));
    for path in OUTPUTS {
        assert_eq!(rt; fs::read_to_string(&rt, path)?.as_str(), "frame");
    }
    fs::remove_dir_all(&rt, "real_devices_test")?;
    Ok(())
}

/// Addresses, outputs and a path of the history for which no devices are made. There is no folder `none`.
const NOT_READY: [(&str, [&str; 2], &str); 5] = [
    ("127.0.0.1:0", ["none/a", "none/a"], "none/h"),
    ("127.0.0.1:0", ["none/a", "none/b"], "none/b"),
    ("127.0.0.1:0", [".", "none/b"], "none/h"),
    ("127.0.0.1:0", ["none/a", "none/b"], "none/h"),
    ("127.0.0.1", ["none/a", "none/b"], "none/h"),
];

/// No clause says when no devices are made.
#[test]
fn makes_no_devices(rt: HostRuntime) -> Result<(), Fail> {
    let alloc = rt.alloc();
    for (address, outputs, history) in NOT_READY {
        let config = config_of(alloc, address, "m", outputs)?;
        let fault = ready(rt, &rt, alloc, &config, None, None, Some(history)).err();
        assert_eq!(rt; fault, Some(FileFault::Failed));
    }
    Ok(())
}

/// A folder of its own, for files that have a use already.
const USED: &str = "used_files_test";

/// Outputs of two channels, and a path of the history, of which two are one file, or one is the configuration `c` or the
/// clip `d.RCLP`. `l` is a link to `c`.
const ONE_FILE: [([&str; 2], &str); 6] = [
    (["used_files_test/a", "used_files_test/./a"], "/dev/null"),
    (["/dev/null", "used_files_test/a"], "used_files_test//a"),
    (["/dev/null", "used_files_test/a.part"], "used_files_test/a"),
    (["/dev/null", "used_files_test/l"], "/dev/null"),
    (["/dev/null", "/dev/null"], "used_files_test/l"),
    (["used_files_test/d.RCLP", "/dev/null"], "/dev/null"),
];

/// Makes a configuration, a clip, and a second name for the configuration.
fn make_used_files(rt: HostRuntime) -> Result<(), Fail> {
    fs::create_dir_all(&rt, USED)?;
    fs::write(&rt, "used_files_test/c", "a configuration")?;
    fs::write(&rt, "used_files_test/d.RCLP", "a clip")?;
    fs::hard_link(&rt, "used_files_test/c", "used_files_test/l")?;
    Ok(())
}

/// No clause says which files are one, and none that a file is left as it is.
#[test]
fn leaves_files_that_have_a_use(rt: HostRuntime) -> Result<(), Fail> {
    make_used_files(rt)?;
    let alloc = rt.alloc();
    let source = Some("used_files_test/c");
    for (outputs, history) in ONE_FILE {
        let config = config_of(alloc, "127.0.0.1:0", USED, outputs)?;
        let fault = ready(rt, &rt, alloc, &config, source, None, Some(history)).err();
        assert_eq!(rt; fault, Some(FileFault::Failed));
    }
    let config = config_of(alloc, "127.0.0.1:0", USED, ["/dev/null", "/dev/null"])?;
    let fault = ready(rt, &rt, alloc, &config, source, None, Some("/dev/null")).err();
    assert_eq!(rt; fault, None);
    let kept = fs::read_to_string(&rt, "used_files_test/c")?;
    assert_eq!(rt; kept.as_str(), "a configuration");
    let kept = fs::read_to_string(&rt, "used_files_test/d.RCLP")?;
    assert_eq!(rt; kept.as_str(), "a clip");
    fs::remove_dir_all(&rt, USED)?;
    Ok(())
}

/// Writes a history, finishes the devices, and returns whether both were done.
fn leave_history(devices: RealDevices<HostRuntime>, history: &[u8]) -> bool {
    let mut devices = devices;
    let sent = send(history, &mut devices.history);
    finish(devices).is_ok() && matches!(sent, Sent::All)
}

/// Checks that files of a folder hold these texts and that others are not there, and removes the folder.
fn check_files<R: Files<File = File> + AllocGlobal + Abort>(
    rt: &R,
    folder: &str,
    texts: &[(&str, &str)],
    missing: &[&str],
) -> Result<(), Fail> {
    let alloc = rt.alloc();
    for (name, text) in texts {
        let path = format!(in alloc; "{folder}/{name}")?;
        let read = fs::read_to_string(rt, path.as_str())?;
        assert_eq!(rt; read.as_str(), *text, "{name}");
    }
    for name in missing {
        let path = format!(in alloc; "{folder}/{name}")?;
        assert!(rt; !fs::exists(rt, path.as_str())?, "{name}");
    }
    Ok(fs::remove_dir_all(rt, folder)?)
}

/// No clause says what a file is called.
#[test]
fn keeps_earlier_histories(rt: HostRuntime) -> Result<(), Fail> {
    let alloc = rt.alloc();
    fs::create_dir_all(&rt, "journal_test")?;
    let config = config_of(alloc, "127.0.0.1:0", "m", ["/dev/null", "/dev/null"])?;
    for history in [&b"first"[..], b"", b"second", b"", b"third"] {
        let devices = ready(rt, &rt, alloc, &config, None, None, Some("journal_test/h"))?;
        assert!(rt; leave_history(devices, history));
    }
    let texts = [("h", "third"), ("h.1", "first"), ("h.2", "second")];
    check_files(&rt, "journal_test", &texts, &["h.part", "h.3"])
}

/// Writes a log, and returns whether all was taken. The devices are not finished, as after a crash.
fn leave_log(devices: RealDevices<HostRuntime>, log: &[u8]) -> bool {
    let mut devices = devices;
    matches!(send(log, &mut devices.log), Sent::All)
}

/// Writes a log and a history, finishes the devices, and returns whether all was done.
fn leave_both(devices: RealDevices<HostRuntime>) -> bool {
    let mut devices = devices;
    let sent = send(b"third", &mut devices.log);
    devices.log.rest();
    leave_history(devices, b"a history") && matches!(sent, Sent::All)
}

/// No clause says what becomes of a log.
#[test]
fn keeps_earlier_logs(rt: HostRuntime) -> Result<(), Fail> {
    let alloc = rt.alloc();
    fs::create_dir_all(&rt, "log_test")?;
    let config = config_of(alloc, "127.0.0.1:0", "m", ["/dev/null", "/dev/null"])?;
    for log in [&b"first"[..], b"second"] {
        let devices = ready(rt, &rt, alloc, &config, None, None, Some("log_test/h"))?;
        assert!(rt; leave_log(devices, log));
    }
    let devices = ready(rt, &rt, alloc, &config, None, None, Some("log_test/h"))?;
    assert!(rt; leave_both(devices));
    let texts = [
        ("h.log.1", "first"),
        ("h.log.2", "second"),
        ("h", "a history"),
    ];
    check_files(&rt, "log_test", &texts, &["h.log", "h.part"])
}

/// How many looks at the threads of the program, of ten milliseconds each, may still find one that has ended.
const ENDED_LOOKS: u32 = 500;

/// Returns how many threads the program has.
fn count_threads(rt: HostRuntime) -> Result<usize, Fail> {
    let mut count = 0usize;
    for thread in fs::read_dir(&rt, "/proc/self/task")? {
        thread?;
        count = count.saturating_add(1);
    }
    Ok(count)
}

/// Waits for the program to have this many threads, and returns whether it does. The system lists a thread for a moment after its
/// end.
fn comes_to(rt: HostRuntime, count: usize) -> Result<bool, Fail> {
    for _ in 0..ENDED_LOOKS {
        if count_threads(rt)? == count {
            return Ok(true);
        }
        thread::sleep(&rt, Duration::from_millis(10));
    }
    Ok(false)
}

/// No clause says that threads are started and that they end.
#[test]
fn starts_and_ends_threads(rt: HostRuntime) -> Result<(), Fail> {
    let before = count_threads(rt)?;
    for count in [0, 1, 4, 65] {
        assert_eq!(rt; start_threads(&rt, rt.alloc(), count)?, count as usize);
        assert!(rt; comes_to(rt, before)?);
    }
    Ok(())
}
