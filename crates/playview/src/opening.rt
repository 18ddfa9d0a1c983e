//! Opening what a viewer waits for.

use crate::helpers::Helpers;
use crate::input::LogInput;
use crate::looks::Looks;
use crate::outside::Outside;
use crate::receivers::find_receivers;
use crate::said::{not_opened, say_listening};
use host_system::ProgramFile;
use play_outside::FileFault;
use play_viewer::ViewerWords;
use std::alloc::Global;
use std::fs::File;
use std::io::{self, Eprint};
use std::net::{Net, TcpListener, TcpStream};
use std::rt::Files;
use std::sync::Wait;

/// Opens the log, the receivers of status messages and the address for browsers that the words name, in this order, and
/// reports where browsers reach the viewer. A failed call was reported.
pub fn open_outside<
    R: Net<Listener = TcpListener, Stream = TcpStream> + Files<File = File> + Wait + Eprint,
>(
    rt: &R,
    alloc: Global,
    words: &ViewerWords,
    helpers: Helpers,
    program: &ProgramFile,
) -> Result<Outside, FileFault> {
    let Helpers { door, input } = helpers;
    let log = LogInput::open(rt, alloc, words.log.as_str(), input)?;
    let receivers = find_receivers(rt, alloc, words.receivers.as_slice())?;
    match listen(rt, words.address(), program) {
        Ok(listener) => door.open(rt, listener),
        Err(error) => return Err(not_opened(rt, words.address(), &error)),
    }
    Ok(Outside::new(log, door, receivers, Looks::new(rt)))
}

/// Listens on an address, and reports it.
fn listen<R: Net<Listener = TcpListener, Stream = TcpStream> + Eprint>(
    rt: &R,
    address: &str,
    program: &ProgramFile,
) -> io::Result<TcpListener> {
    let listener = TcpListener::bind(rt, address)?;
    let address = listener.local_addr()?;
    say_listening(rt, &address, program);
    Ok(listener)
}
