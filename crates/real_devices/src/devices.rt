//! Making all devices of a server.
ghost use Rattle.std.specs.Prelude.{◌≡◌, None, IsNone, IfOk, length, map};
ghost use Rattle.std.specs.List.{range_with_len};
ghost use Rattle.real_devices.specs.Fresh.{quiet_clock, quiet_door, quiet_sink};
ghost use Rattle.real_devices.specs.State.{door_state, file_of, file_state, signal_clock_state, signal_of};

use crate::complaint::{say_taken, say_unread};
use crate::door_group::DoorGroup;
use crate::file_limit::{FileRoom, largest_file};
use crate::file_sink::FileSink;
use crate::journal_names::{JournalNames, NewFile, PartFault, log_name, make_log};
use crate::live::{FirstReaders, LiveRuntime};
use crate::outs::{RunFiles, make_empty_outs, make_sink, not_made, refuse_used};
use crate::signal_clock::SignalClock;
use crate::signals::Signals;
use crate::tcp_door::TcpDoor;
use crate::used_files::{Use, files_in_use};
use play_outside::{Devices, FileFault};
use play_types::Config;
use std::alloc::{AllocError, Global};
use std::fs::{self, File};
use std::io::{self, Eprint};
use std::net::{Net, TcpListener, TcpStream};
use std::rt::Files;
use std::thread::Threads;
use std::time::Clock;

/// How many symbolic links are followed at most, as in the system.
const MOST_LINKS: u32 = 40;

/// The real devices of a server, over a runtime of this type.
pub type RealDevices<R> = Devices<SignalClock<R>, TcpDoor<R>, FileSink<File, R>>;

/// Makes the devices that a configuration names: a clock of its rate, a door for each of its connection workers, all on
/// one listening socket, an output for each of its channels, one for the history, and one for the log. The doors and
/// the outputs have the marks 1, 2 and so on, and the outputs of the history and of the log have the mark 0. No call of
/// a device was made yet.
///
/// `source` is the path of the configuration's own file, if it has one, and `resumed` that of the history that the run
/// goes on from, if it goes on from one. Each output file is created if it does not exist; existing ones are emptied once all devices could be made. The history is written to a file beside its path,
/// and [`finish`] renames it; only if something else than a regular file has the path, the history is written there
/// directly. Without a path the output of the history takes every byte and keeps none. The file beside the path is made
/// before any output is opened, and stays locked until the devices are finished. The log is the file of that path with
/// `.log` after it, which is made at that time too, and [`finish`] removes it once the history has its name. A file
/// that an earlier run left there is kept under a name with a number, unless it is empty. Without a path, or if
/// something else than a regular file has it, there is no log.
///
/// An output that listens, or that is a named pipe, is live: it takes every byte and waits for nobody, and its contents
/// are not known. Its thread is started over `host`. The call waits for the first readers of all pipes, for two seconds
/// at most, or until a signal asks for the end, on which the clock closes then.
///
/// `Failed` comes if the address cannot be read or listened on, a file cannot be written, another server writes its
/// history to that path, or an output has a file that is the configuration, a clip of the media folder, the history or
/// another output, by whatever path. It also comes if an output, the history or the log has the file of `resumed`.
/// Standard error names the cause. Any number of outputs may write to a character device.
pub fn ready<
    R: Net<Listener = TcpListener, Stream = TcpStream>
        + Files<File = File>
        + Threads
        + Clock
        + Eprint
        + AllocGlobal
        + Copy
        + Drop,
    T: LiveRuntime,
>(
    rt: R,
    host: &T,
    alloc: Global,
    config: &Config,
    source: Option<&str>,
    resumed: Option<&str>,
    history: Option<&str>,
) -> Result<RealDevices<R>, FileFault>
    ensures doors { IfOk result (λ devices. map door_state devices.doors.items
        ≡ map quiet_door (range_with_len 1 config.now.connections)) }
    ensures outs { IfOk result (λ devices. map file_state devices.outs.items
        ≡ map quiet_sink (range_with_len 1 (length config.now.channels))) }
    ensures clock { IfOk result (λ devices. signal_clock_state devices.clock ≡ quiet_clock) }
    ensures signal { IfOk result (λ devices. signal_of devices.clock ≡ None) }
    ensures history { IfOk result (λ devices. file_state devices.history ≡ quiet_sink 0) }
    ensures kept { IfOk result (λ devices. IsNone history.entry → file_of devices.history ≡ None) }
    ensures log { IfOk result (λ devices. file_state devices.log ≡ quiet_sink 0) }
    ensures log_kept { IfOk result (λ devices. IsNone history.entry → file_of devices.log ≡ None) }
{
    let Ok(group) = DoorGroup::new(alloc, config.connections()) else {
        return Err(FileFault::OutOfMemory);
    };
    let address = config.listen().as_str();
    let doors = match listen(rt, alloc, address, &group, config.connections()) {
        Ok(doors) => doors,
        Err(error) => return Err(not_made(&rt, address, &error)),
    };
    let mut run = RunFiles {
        used: files_in_use(rt, alloc, config, source, resumed)?,
        largest: largest_file(&rt),
        group,
        firsts: FirstReaders::new(alloc),
    };
    let Texts { history, log } = make_texts(rt, alloc, history, &mut run)?;
    match make_empty_outs(rt, host, alloc, config, history.path_when_whole(), &mut run) {
        Ok(outs) => {
            let clock = SignalClock::new(rt, config.rate(), config.journal_limit());
            wait_for_readers(&rt, &run.firsts, clock.signals());
            Ok(Devices {
                clock,
                doors,
                outs,
                history,
                log,
            })
        }
        Err(fault) => {
            run.firsts.go_on(&rt);
            log.end_log(true);
            let _ = history.finish();
            Err(fault)
        }
    }
}

/// Waits until each named pipe has a reader, for two seconds at most. If one has none then, standard error says so.
fn wait_for_readers<R: Files<File = File> + Clock + Eprint>(
    rt: &R,
    firsts: &FirstReaders,
    signals: &Signals,
) {
    if !firsts.wait(rt, signals) {
        say_unread(rt);
        firsts.go_on(rt);
    }
}

/// Ends the devices of a run. Each live output hands out what waits, for two seconds at most. The history gets its name
/// if it was written and no write of it failed; a file that already has the name is kept under a name with a number,
/// unless it is empty. Then the log is removed; if the history did not get its name, the log stays. The listening
/// socket and all files are closed. `Failed` comes if the history did not get its name, and standard error says why.
pub fn finish<R: Files<File = File> + Clock + Eprint + Copy + Drop>(
    devices: RealDevices<R>,
) -> Result<(), FileFault> {
    let Devices {
        doors,
        outs,
        history,
        log,
        ..
    } = devices;
    if let Some(door) = doors.first() {
        door.say_left_out();
    }
    for out in &outs {
        out.note_ending();
    }
    let finished = history.finish();
    log.end_log(finished.is_ok());
    for out in outs {
        let _ = out.finish();
    }
    finished
}

/// Makes `count` doors of a group on one socket that listens on `address`. The first has the mark 1.
fn listen<R: Net<Listener = TcpListener, Stream = TcpStream> + Clock + Eprint + Copy + Drop>(
    rt: R,
    alloc: Global,
    address: &str,
    group: &DoorGroup,
    count: u32,
) -> io::Result<Vec<TcpDoor<R>>>
    ensures { IfOk result (λ doors. map door_state doors.items ≡ map quiet_door (range_with_len 1 count)) }
{
    let listener = TcpListener::bind(&rt, address)?;
    let mut doors = Vec::new(alloc);
    for place in 0..count {
        let mark = u64::from(place) + 1;
        let door = TcpDoor::new(listener.try_clone()?, rt, group.try_clone()?, mark)?;
        doors.push(door)?;
    }
    Ok(doors)
}

/// The outputs for the text of a history.
#[derive(Drop)]
struct Texts<R> {
    /// The output of the whole text, at the end.
    history: FileSink<File, R>,
    /// The output of the text so far.
    log: FileSink<File, R>,
}

/// Makes the output of the history, and then that of the log.
fn make_texts<R: Files<File = File> + Clock + Eprint + Copy + Drop>(
    rt: R,
    alloc: Global,
    path: Option<&str>,
    run: &mut RunFiles,
) -> Result<Texts<R>, FileFault>
    ensures history { IfOk result (λ texts. file_state texts.history ≡ quiet_sink 0) }
    ensures kept { IfOk result (λ texts. IsNone path.entry → file_of texts.history ≡ None) }
    ensures log { IfOk result (λ texts. file_state texts.log ≡ quiet_sink 0) }
    ensures log_kept { IfOk result (λ texts. IsNone path.entry → file_of texts.log ≡ None) }
{
    let Some(path) = path else {
        return Ok(Texts {
            history: no_file(rt, alloc),
            log: no_file(rt, alloc),
        });
    };
    let history = make_history(rt, alloc, path, run)?;
    match make_log_of(rt, alloc, &history, run) {
        Ok(log) => Ok(Texts { history, log }),
        Err(fault) => {
            let _ = history.finish();
            Err(fault)
        }
    }
}

/// Returns a sink that takes every byte and keeps none, with the mark 0.
fn no_file<R: Clock + Eprint + Drop>(rt: R, alloc: Global) -> FileSink<File, R>
    ensures state { file_state result ≡ quiet_sink 0 }
    ensures file { file_of result ≡ None }
{
    FileSink::new(String::new(alloc), None, rt, 0)
}

/// Makes the output of the history. If the path is of a regular file, or of nothing yet, the output writes to a file
/// beside it.
fn make_history<R: Files<File = File> + Clock + Eprint + Copy + Drop>(
    rt: R,
    alloc: Global,
    path: &str,
    run: &mut RunFiles,
) -> Result<FileSink<File, R>, FileFault>
    ensures { IfOk result (λ sink. file_state sink ≡ quiet_sink 0) }
{
    match file_at(&rt, alloc, path)? {
        FileAt::Special => make_sink(rt, alloc, path, 0, run),
        FileAt::Regular(path) => make_part(rt, alloc, path.as_str(), run),
    }
}

/// Makes the file that a history is written to until it is whole, and fails if another server has it.
fn make_part<R: Files<File = File> + Clock + Eprint + Copy + Drop>(
    rt: R,
    alloc: Global,
    path: &str,
    run: &mut RunFiles,
) -> Result<FileSink<File, R>, FileFault>
    ensures { IfOk result (λ sink. file_state sink ≡ quiet_sink 0) }
{
    refuse_used(&rt, path, &run.used)?;
    let mut names = JournalNames::new(alloc, path)?;
    let name = String::from_str(alloc, names.part())?;
    let Ok(group) = run.group.try_clone() else {
        return Err(FileFault::OutOfMemory);
    };
    let (file, found) = match names.make_part(&rt) {
        Ok(made) => made,
        Err(fault) => return Err(not_written(&rt, names.path(), names.part(), fault)),
    };
    let sink = FileSink::new(name, Some(file), rt, 0)
        .of_run(FileRoom::new(run.largest), group)
        .with_names(names);
    match run.used.add(&found, Use::Output) {
        Ok(()) => Ok(sink),
        Err(AllocError) => {
            let _ = sink.finish();
            Err(FileFault::OutOfMemory)
        }
    }
}

/// Makes the output of the log of a history, beside its file. If the history has no regular file, the log is written
/// nowhere.
fn make_log_of<R: Files<File = File> + Clock + Eprint + Copy + Drop>(
    rt: R,
    alloc: Global,
    history: &FileSink<File, R>,
    run: &mut RunFiles,
) -> Result<FileSink<File, R>, FileFault>
    ensures { IfOk result (λ sink. file_state sink ≡ quiet_sink 0) }
{
    let Some(path) = history.path_when_whole() else {
        return Ok(no_file(rt, alloc));
    };
    let name = log_name(alloc, path)?;
    refuse_used(&rt, name.as_str(), &run.used)?;
    let Ok(group) = run.group.try_clone() else {
        return Err(FileFault::OutOfMemory);
    };
    let NewFile { file, found, .. } = match make_log(&rt, alloc, name.as_str()) {
        Ok(made) => made,
        Err(fault) => return Err(not_written(&rt, path, name.as_str(), fault)),
    };
    let sink = FileSink::log(name, file, rt, 0).of_run(FileRoom::new(run.largest), group);
    match run.used.add(&found, Use::Output) {
        Ok(()) => Ok(sink),
        Err(AllocError) => {
            sink.end_log(true);
            Err(FileFault::OutOfMemory)
        }
    }
}

/// Reports why the file `name` of a history, beside `path`, was not made, and returns the fault.
fn not_written<E: Eprint>(errors: &E, path: &str, name: &str, fault: PartFault) -> FileFault {
    match fault {
        PartFault::Taken => {
            say_taken(errors, path);
            FileFault::Failed
        }
        PartFault::Failed(error) => not_made(errors, name, &error),
    }
}

/// What is at the path of a history.
#[derive(Drop)]
enum FileAt {
    /// The path of a regular file that is no symbolic link, or of nothing yet.
    Regular(String),
    /// A device, a pipe or another special file, or a path that no file can have.
    Special,
}

/// Follows the symbolic links of a path, and returns what is there.
fn file_at<R: Files + Eprint>(rt: &R, alloc: Global, path: &str) -> Result<FileAt, FileFault> {
    if path.is_empty() {
        return Ok(FileAt::Special);
    }
    if let Ok(found) = fs::metadata(rt, path) {
        if !found.is_file() {
            return Ok(FileAt::Special);
        }
    }
    let mut path = String::from_str(alloc, path)?;
    for _ in 0..MOST_LINKS {
        match fs::symlink_metadata(rt, path.as_str()) {
            Ok(found) if found.is_symlink() => match target_of(rt, alloc, path.as_str()) {
                Ok(target) => path = target,
                Err(error) => return Err(not_made(rt, path.as_str(), &error)),
            },
            _ => return Ok(FileAt::Regular(path)),
        }
    }
    Ok(FileAt::Special)
}

/// Returns the path that a symbolic link leads to, which need not exist.
fn target_of<R: Files>(rt: &R, alloc: Global, link: &str) -> io::Result<String> {
    let target = rt.read_link(alloc, link)?.into_string();
    match link.rsplit_once('/') {
        Some((folder, _)) if !target.as_str().starts_with('/') => {
            Ok(format!(in alloc; "{folder}/{}", target.as_str())?)
        }
        _ => Ok(target),
    }
}
