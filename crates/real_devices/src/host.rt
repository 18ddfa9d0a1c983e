//! A runtime that never waits for the reader of standard error.
use crate::error_lines::ErrorLines;
use std::alloc::{Allocator, Global};
use std::env::{Env, FillError};
use std::fmt::Display;
use std::fs::{Metadata, OpenOptions, Permissions};
use std::io::{self, Eprint, PipeReader, PipeWriter};
use std::net::{Net, SocketAddr, UdpSocket};
use std::os::fd::{BorrowedFd, OwnedFd};
use std::os::unix::net as unix;
use std::os::unix::net::UnixStream;
use std::path::PathBuf;
use std::rt::Files;
use std::sync::Wait;
use std::thread::Threads;
use std::time::{Clock, Duration};

/// A runtime that writes standard error by a thread of its own, and does all else as `rt`.
#[derive(Clone, Copy)]
pub struct Host<'a, R> {
    rt: R,
    lines: &'a ErrorLines,
}

impl<'a, R> Host<'a, R> {
    /// Returns a runtime over `rt` that writes standard error through `lines`.
    pub fn new(rt: R, lines: &'a ErrorLines) -> Host<'a, R> {
        Host { rt, lines }
    }
}

impl<R: Wait + Eprint> Eprint for Host<'_, R> {
    fn eprint<D: Display + Drop>(&self, value: D) -> io::Result<()> {
        self.lines.say(&self.rt, value)
    }

    fn eprintln<D: Display + Drop>(&self, value: D) -> io::Result<()> {
        self.lines.say(&self.rt, format_args!("{value}\n"))
    }
}

impl<R: Threads> Threads for Host<'_, R> {}

impl<R: Alloc<A = Global>> Alloc for Host<'_, R> {
    type A = Global;

    fn alloc(&self) -> Global {
        self.rt.alloc()
    }
}

impl<R: Clock> Clock for Host<'_, R> {
    fn monotonic(&self) -> io::Result<Duration> {
        self.rt.monotonic()
    }

    fn since_1970(&self) -> io::Result<Duration> {
        self.rt.since_1970()
    }

    fn sleep(&self, duration: Duration) {
        self.rt.sleep(duration)
    }
}

impl<R: Env> Env for Host<'_, R> {
    fn arg(&self, i: usize, buf: &mut [u8]) -> Result<usize, FillError> {
        self.rt.arg(i, buf)
    }

    fn var(&self, name: &str, buf: &mut [u8]) -> Result<usize, FillError> {
        self.rt.var(name, buf)
    }

    fn var_at(&self, i: usize, buf: &mut [u8]) -> Result<usize, FillError> {
        self.rt.var_at(i, buf)
    }

    fn current_dir(&self, buf: &mut [u8]) -> io::Result<usize> {
        self.rt.current_dir(buf)
    }

    fn set_current_dir(&self, path: &str) -> io::Result<()> {
        self.rt.set_current_dir(path)
    }
}

impl<R: Net> Net for Host<'_, R> {
    type Stream = R::Stream;

    type Listener = R::Listener;

    fn bind(&self, addr: SocketAddr) -> io::Result<R::Listener> {
        self.rt.bind(addr)
    }

    fn connect(&self, addr: SocketAddr) -> io::Result<R::Stream> {
        self.rt.connect(addr)
    }

    fn connect_timeout(&self, addr: SocketAddr, timeout: Duration) -> io::Result<R::Stream> {
        self.rt.connect_timeout(addr, timeout)
    }

    fn bind_udp(&self, addr: SocketAddr) -> io::Result<UdpSocket> {
        self.rt.bind_udp(addr)
    }

    fn lookup_host(&self, host: &str, port: u16, found: &mut [SocketAddr]) -> io::Result<usize> {
        self.rt.lookup_host(host, port, found)
    }

    fn connect_unix(&self, addr: &unix::SocketAddr) -> io::Result<UnixStream> {
        self.rt.connect_unix(addr)
    }

    fn unix_pair(&self) -> io::Result<(UnixStream, UnixStream)> {
        self.rt.unix_pair()
    }

    fn unix_socket(&self) -> io::Result<OwnedFd> {
        self.rt.unix_socket()
    }
}

impl<R: Files> Files for Host<'_, R> {
    type File = R::File;

    type Dir = R::Dir;

    fn open_file(&self, how: &OpenOptions, path: &str) -> io::Result<R::File> {
        self.rt.open_file(how, path)
    }

    fn open_dir(&self, path: &str) -> io::Result<R::Dir> {
        self.rt.open_dir(path)
    }

    fn metadata(&self, path: &str) -> io::Result<Metadata> {
        self.rt.metadata(path)
    }

    fn symlink_metadata(&self, path: &str) -> io::Result<Metadata> {
        self.rt.symlink_metadata(path)
    }

    fn copy(&self, from: &str, to: &str) -> io::Result<u64> {
        self.rt.copy(from, to)
    }

    fn rename(&self, from: &str, to: &str) -> io::Result<()> {
        self.rt.rename(from, to)
    }

    fn remove_file(&self, path: &str) -> io::Result<()> {
        self.rt.remove_file(path)
    }

    fn create_dir(&self, path: &str) -> io::Result<()> {
        self.rt.create_dir(path)
    }

    fn remove_dir(&self, path: &str) -> io::Result<()> {
        self.rt.remove_dir(path)
    }

    fn remove_dir_all<B: Allocator>(&self, alloc: B, path: &str) -> io::Result<()> {
        self.rt.remove_dir_all(alloc, path)
    }

    fn canonicalize<B: Allocator>(&self, alloc: B, path: &str) -> io::Result<PathBuf<B>> {
        self.rt.canonicalize(alloc, path)
    }

    fn read_link<B: Allocator>(&self, alloc: B, path: &str) -> io::Result<PathBuf<B>> {
        self.rt.read_link(alloc, path)
    }

    fn hard_link(&self, original: &str, link: &str) -> io::Result<()> {
        self.rt.hard_link(original, link)
    }

    fn set_permissions(&self, path: &str, perm: Permissions) -> io::Result<()> {
        self.rt.set_permissions(path, perm)
    }

    fn symlink(&self, original: &str, link: &str) -> io::Result<()> {
        self.rt.symlink(original, link)
    }

    fn pipe(&self) -> io::Result<(PipeReader, PipeWriter)> {
        self.rt.pipe()
    }

    fn chown(&self, path: &str, uid: Option<u32>, gid: Option<u32>) -> io::Result<()> {
        self.rt.chown(path, uid, gid)
    }

    fn lchown(&self, path: &str, uid: Option<u32>, gid: Option<u32>) -> io::Result<()> {
        self.rt.lchown(path, uid, gid)
    }

    fn create_dir_with_mode(&self, path: &str, mode: u32) -> io::Result<()> {
        self.rt.create_dir_with_mode(path, mode)
    }

    fn bind_unix(&self, socket: BorrowedFd<'_>, addr: &unix::SocketAddr) -> io::Result<()> {
        self.rt.bind_unix(socket, addr)
    }
}
