//! Making the outputs of a run.
ghost use Rattle.std.specs.Prelude.{◌≡◌, IfOk, length, map};
ghost use Rattle.std.specs.List.{range_with_len};
ghost use Rattle.real_devices.specs.Fresh.{quiet_sink};
ghost use Rattle.real_devices.specs.State.{file_state};

use crate::complaint::{complain, say_open_output, say_waits_for_reader};
use crate::door_group::DoorGroup;
use crate::file_limit::FileRoom;
use crate::file_sink::FileSink;
use crate::live::{
    FirstReaders, LiveRuntime, LiveSink, OpenPipe, address_of, is_pipe, open_pipe, set_nonblocking,
    start_listener, start_pipe,
};
use crate::used_files::{Use, UsedFiles};
use play_outside::FileFault;
use play_types::{Channel, Config};
use std::alloc::Global;
use std::fs::{self, File, Metadata, OpenOptions};
use std::io::{self, Eprint, ErrorKind};
use std::net::{Net, TcpListener, TcpStream};
use std::rt::Files;
use std::thread::Threads;
use std::time::Clock;

/// What the outputs of a run share while they are made.
#[derive(Drop)]
pub(crate) struct RunFiles {
    /// The files that are in use already.
    pub(crate) used: UsedFiles,
    /// The most bytes of a file, if that is limited.
    pub(crate) largest: Option<u64>,
    /// The doors that serve the run.
    pub(crate) group: DoorGroup,
    /// The pipes whose first readers are waited for.
    pub(crate) firsts: FirstReaders,
}

/// Makes the output of each channel. The output of channel 1 has the mark 1.
fn make_outs<
    R: Net<Listener = TcpListener, Stream = TcpStream>
        + Files<File = File>
        + Threads
        + Clock
        + Eprint
        + Copy
        + Drop,
    T: LiveRuntime,
>(
    rt: R,
    host: &T,
    alloc: Global,
    config: &Config,
    run: &mut RunFiles,
) -> Result<Vec<FileSink<File, R>>, FileFault>
    ensures { IfOk result (λ outs. map file_state outs.items ≡ map quiet_sink (range_with_len 1 (length config.now.channels))) }
{
    let mut outs = Vec::new(alloc);
    let mut mark = 0;
    for channel in config.channels().iter() {
        mark += 1;
        let out = make_out(rt, host, alloc, channel, mark, run)?;
        let Ok(()) = outs.push(out) else {
            return Err(FileFault::OutOfMemory);
        };
    }
    Ok(outs)
}

/// Makes the output of each channel, and empties those that are regular files once all are made. None of them may be
/// the file at `history`.
pub(crate) fn make_empty_outs<
    R: Net<Listener = TcpListener, Stream = TcpStream>
        + Files<File = File>
        + Threads
        + Clock
        + Eprint
        + Copy
        + Drop,
    T: LiveRuntime,
>(
    rt: R,
    host: &T,
    alloc: Global,
    config: &Config,
    history: Option<&str>,
    run: &mut RunFiles,
) -> Result<Vec<FileSink<File, R>>, FileFault>
    ensures { IfOk result (λ outs. map file_state outs.items ≡ map quiet_sink (range_with_len 1 (length config.now.channels))) }
{
    let outs = make_outs(rt, host, alloc, config, run)?;
    if let Some(path) = history {
        refuse_used(&rt, path, &run.used)?;
    }
    empty_all(&rt, config, &outs)?;
    Ok(outs)
}

/// Makes the output of a channel, with this mark. It is live if it listens, or if its path is of a named pipe.
fn make_out<
    R: Net<Listener = TcpListener, Stream = TcpStream>
        + Files<File = File>
        + Threads
        + Clock
        + Eprint
        + Copy
        + Drop,
    T: LiveRuntime,
>(
    rt: R,
    host: &T,
    alloc: Global,
    channel: &Channel,
    mark: u64,
    run: &mut RunFiles,
) -> Result<FileSink<File, R>, FileFault>
    ensures { IfOk result (λ sink. file_state sink ≡ quiet_sink mark) }
{
    let output = channel.output().as_str();
    let size = usize::try_from(channel.geometry().frame_bytes()).unwrap_or(usize::MAX);
    let live = if let Some(address) = address_of(output) {
        let listener = listen(&rt, output, address)?;
        start_listener(&rt, host, alloc, size, listener)
    } else if is_pipe(&rt, output) {
        let pipe = open_unused(&rt, alloc, output, run)?;
        start_pipe(&rt, host, alloc, size, pipe, &mut run.firsts)
    } else {
        return make_sink(rt, alloc, output, mark, run);
    };
    let name = String::from_str(alloc, output)?;
    match live {
        Ok(live) => Ok(FileSink::live(name, live, rt, mark)),
        Err(error) => Err(not_made(&rt, output, &error)),
    }
}

/// Listens for the readers of an output. Standard error says so if other machines can reach the address.
fn listen<R: Net<Listener = TcpListener, Stream = TcpStream> + Eprint>(
    rt: &R,
    output: &str,
    address: &str,
) -> Result<TcpListener, FileFault> {
    let listener = match TcpListener::bind(rt, address) {
        Ok(listener) => listener,
        Err(error) => return Err(not_made(rt, output, &error)),
    };
    if let Ok(at) = listener.local_addr() {
        if !at.ip().is_loopback() {
            say_open_output(rt, output, &at);
        }
    }
    Ok(listener)
}

/// Opens a named pipe and adds it to the files in use. It fails if the pipe is in use already.
fn open_unused<R: Files<File = File> + Eprint>(
    rt: &R,
    alloc: Global,
    path: &str,
    run: &mut RunFiles,
) -> Result<OpenPipe, FileFault> {
    refuse_used(rt, path, &run.used)?;
    let (end, found) = match open_pipe(rt, path) {
        Ok(opened) => opened,
        Err(error) => return Err(not_made(rt, path, &error)),
    };
    run.used.add(&found, Use::Output)?;
    let path = String::from_str(alloc, path)?;
    Ok(OpenPipe { path, end, found })
}

/// Fails if a file is in use already, and reports its use.
pub(crate) fn refuse_used<R: Files + Eprint>(
    rt: &R,
    path: &str,
    used: &UsedFiles,
) -> Result<(), FileFault> {
    let Ok(found) = fs::metadata(rt, path) else {
        return Ok(());
    };
    match used.find(&found) {
        Some(has) => {
            complain(rt, path, &has);
            Err(FileFault::Failed)
        }
        None => Ok(()),
    }
}

/// Opens a file without emptying it, or makes it, for a sink with this mark, and adds it to the files in use. It fails
/// if the file is in use already. If the path is of a named pipe, the call waits until somebody reads it, and standard
/// error says so.
pub(crate) fn make_sink<R: Files<File = File> + Clock + Eprint + Copy + Drop>(
    rt: R,
    alloc: Global,
    path: &str,
    mark: u64,
    run: &mut RunFiles,
) -> Result<FileSink<File, R>, FileFault>
    ensures { IfOk result (λ sink. file_state sink ≡ quiet_sink mark) }
{
    let name = String::from_str(alloc, path)?;
    refuse_used(&rt, path, &run.used)?;
    if is_pipe(&rt, path) {
        say_waits_for_reader(&rt, path);
    }
    let (file, found) = match open(&rt, path) {
        Ok(opened) => opened,
        Err(error) => return Err(not_made(&rt, path, &error)),
    };
    run.used.add(&found, Use::Output)?;
    let Ok(group) = run.group.try_clone() else {
        return Err(FileFault::OutOfMemory);
    };
    let room = FileRoom::new(run.largest.filter(|_| found.is_file()));
    Ok(FileSink::new(name, Some(file), rt, mark).of_run(room, group))
}

/// Opens a file to write, or makes it, and returns it with its metadata. If it is no regular file, no write to it
/// waits.
fn open<R: Files<File = File>>(rt: &R, path: &str) -> io::Result<(File, Metadata)> {
    let mut how = OpenOptions::new();
    let file = how.write(true).create(true).open(rt, path)?;
    let found = file.metadata()?;
    if !found.is_file() {
        set_nonblocking(&file)?;
    }
    Ok((file, found))
}

/// Empties the outputs of all channels that are regular files.
fn empty_all<R: Clock + Eprint + Drop>(
    rt: &R,
    config: &Config,
    outs: &[FileSink<File, R>],
) -> Result<(), FileFault> {
    for (out, channel) in outs.iter().zip(config.channels().iter()) {
        if let Err(error) = empty(out.file()) {
            return Err(not_made(rt, channel.output().as_str(), &error));
        }
    }
    Ok(())
}

/// Empties a file, if it is a regular one.
fn empty(file: Option<&File>) -> io::Result<()> {
    let Some(file) = file else {
        return Ok(());
    };
    if file.metadata()?.is_file() {
        file.set_len(0)?;
    }
    Ok(())
}

/// Reports why a device was not made, and returns the fault.
pub(crate) fn not_made<E: Eprint>(errors: &E, of: &str, why: &io::Error) -> FileFault {
    complain(errors, of, why);
    match why.kind() {
        ErrorKind::OutOfMemory => FileFault::OutOfMemory,
        _ => FileFault::Failed,
    }
}
