//! Clients over loopback. No clause says which bytes a client gets, and none speaks of time.
use super::*;
use bytes::Bytes;
use std::alloc::{AllocError, AllocGlobal, Global};
use std::io::{self, Read, Write};
use std::net::{Net, Shutdown, TcpListener, TcpStream};
use std::random::RandomSource;
use std::test::Fail;
use std::thread::{self, Threads};
use std::time::{Clock, Duration, Instant};

/// Pages for tests: a text at `/`, and the query at `/query`.
#[derive(Clone, Copy)]
struct Letters;

impl Pages for Letters {
    ghost shows = { λ _ _ _ _. Unit {0} };

    fn page(
        &self,
        alloc: Global,
        path: &str,
        query: Option<&str>,
    ) -> Result<Option<Page>, AllocError> {
        let (status, content, text) = match path {
            "/" => (Status::Shown, ContentType::Html, "<p>front"),
            "/query" => match query {
                Some(text) => (Status::Shown, ContentType::Json, text),
                None => (Status::BadRequest, ContentType::Plain, "no query"),
            },
            _ => return Ok(None),
        };
        let bytes = Bytes::copy_from_slice(alloc, text.as_bytes())?;
        Ok(Some(Page {
            status,
            content,
            bytes,
        }))
    }

    fn share(&self) -> Result<Letters, AllocError> {
        Ok(Letters)
    }
}

/// Starts a server, and returns its port.
fn start<
    R: Net<Listener = TcpListener, Stream = TcpStream>
        + Threads
        + Clock
        + AllocGlobal
        + RandomSource
        + Copy
        + Send
        + Drop
        + 'static,
>(rt: &R) -> Result<u16, Fail> {
    let listener = TcpListener::bind(rt, "127.0.0.1:0")?;
    let port = listener.local_addr()?.port();
    let rt = *rt;
    thread::spawn(&rt, move || {
        let _ = serve_pages(&rt, &listener, &Letters);
    })?;
    Ok(port)
}

/// Connects to a server.
fn connect<R: Net<Listener = TcpListener, Stream = TcpStream>>(
    rt: &R,
    port: u16,
) -> io::Result<TcpStream> {
    TcpStream::connect(rt, ("127.0.0.1", port))
}

/// Sends a text over a connection, and returns all that comes until its end.
fn ask<R: Net<Listener = TcpListener, Stream = TcpStream> + AllocGlobal>(
    rt: &R,
    port: u16,
    text: &str,
) -> io::Result<String> {
    let mut client = connect(rt, port)?;
    client.write_all(text.as_bytes())?;
    client.shutdown(Shutdown::Write)?;
    io::read_to_string(rt.alloc(), client)
}

/// A request, and how its answer begins and ends.
#[derive(Clone, Copy)]
struct Row {
    request: &'static str,
    head: &'static str,
    end: &'static str,
}

const FIELDS: &str = "\r\ncache-control: no-store\r\nx-content-type-options: nosniff\r\n";

const ROWS: [Row; 9] = [
    Row {
        request: "GET / HTTP/1.1\r\nHost: a\r\nConnection: close\r\n\r\n",
        head: "HTTP/1.1 200 OK\r\ncontent-type: text/html; charset=utf-8\r\ncache-control: no-store\r\n",
        end: "\r\n\r\n<p>front",
    },
    Row {
        request: "HEAD / HTTP/1.1\r\nHost: a\r\nConnection: close\r\n\r\n",
        head: "HTTP/1.1 200 OK\r\ncontent-type: text/html; charset=utf-8\r\ncache-control: no-store\r\n",
        end: "\r\n\r\n",
    },
    Row {
        request: "GET /query?a=b%20c HTTP/1.1\r\nHost: a\r\n\r\n",
        head: "HTTP/1.1 200 OK\r\ncontent-type: application/json; charset=utf-8\r\n",
        end: "\r\n\r\na=b%20c",
    },
    Row {
        request: "GET http://a/query HTTP/1.0\r\n\r\n",
        head: "HTTP/1.0 400 Bad Request\r\ncontent-type: text/plain; charset=utf-8\r\n",
        end: "\r\n\r\nno query",
    },
    Row {
        request: "GET /../etc/passwd HTTP/1.1\r\nHost: a\r\n\r\n",
        head: "HTTP/1.1 404 Not Found\r\n",
        end: "\r\n\r\nThere is no such page.\n",
    },
    Row {
        request: "POST / HTTP/1.1\r\nHost: a\r\nContent-Length: 2\r\n\r\nab",
        head: "HTTP/1.1 405 Method Not Allowed\r\nallow: GET, HEAD\r\n",
        end: "\r\n\r\nPages can only be read.\n",
    },
    Row {
        request: "rubbish\r\n\r\n",
        head: "HTTP/1.1 400 Bad Request\r\n",
        end: "\r\n\r\n",
    },
    Row {
        request: "GET / HTTP/1.1\r\nHost: a b\r\n\r\n",
        head: "HTTP/1.1 400 Bad Request\r\n",
        end: "\r\n\r\n",
    },
    Row {
        request: "GET / HTTP/1.1\r\nHost: a\r\n\r\nHEAD /query?x HTTP/1.1\r\nHost: a\r\n\r\nGET /query?y HTTP/1.1\r\nHost: a\r\n\r\n",
        head: "HTTP/1.1 200 OK\r\ncontent-type: text/html; charset=utf-8\r\n",
        end: "\r\n\r\ny",
    },
];

#[test]
fn a_client_gets_the_answers_to_its_requests(rt: HostRuntime) -> Result<(), Fail> {
    let port = start(&rt)?;
    for Row { request, head, end } in ROWS {
        let answer = ask(&rt, port, request)?;
        assert!(rt; answer.starts_with(head), "{request}: {answer}");
        assert!(rt; answer.ends_with(end), "{request}: {answer}");
    }
    Ok(())
}

#[test]
fn every_answer_of_a_page_has_the_fields_for_browsers(rt: HostRuntime) -> Result<(), Fail> {
    let port = start(&rt)?;
    let answer = ask(&rt, port, "GET / HTTP/1.1\r\nHost: a\r\n\r\n")?;
    assert!(rt; answer.contains(FIELDS));
    assert!(rt;
        answer.contains("\r\ncontent-security-policy: default-src 'none'; script-src 'sha256-")
    );
    assert!(rt; answer.contains("\r\ncontent-length: 8\r\n"));
    Ok(())
}

#[test]
fn a_head_of_more_than_8_kib_is_refused(rt: HostRuntime) -> Result<(), Fail> {
    let port = start(&rt)?;
    let mut request = String::new(rt.alloc());
    request.push_str("GET / HTTP/1.1\r\nHost: a\r\nX: ")?;
    for _ in 0..9_000 {
        request.push('x')?;
    }
    request.push_str("\r\n\r\n")?;
    let answer = ask(&rt, port, request.as_str())?;
    assert!(rt; answer.starts_with("HTTP/1.1 431 "), "{answer}");
    Ok(())
}

/// Asks for the front page until it comes, for five seconds at most.
fn is_served<R: Net<Listener = TcpListener, Stream = TcpStream> + AllocGlobal + Clock>(
    rt: &R,
    port: u16,
) -> io::Result<bool> {
    for _ in 0..50 {
        if let Ok(answer) = ask(rt, port, "GET / HTTP/1.0\r\n\r\n") {
            if answer.ends_with("<p>front") {
                return Ok(true);
            }
        }
        thread::sleep(rt, Duration::from_millis(100));
    }
    Ok(false)
}

#[test]
fn a_client_above_64_is_closed_at_once(rt: HostRuntime) -> Result<(), Fail> {
    let port = start(&rt)?;
    let mut clients = Vec::new(rt.alloc());
    for _ in 0..MAX_CLIENTS {
        clients.push(connect(&rt, port)?)?;
    }
    let mut further = connect(&rt, port)?;
    further.set_read_timeout(Some(Duration::from_secs(5)))?;
    let mut buf = [0; 1];
    assert_eq!(rt; further.read(&mut buf)?, 0);
    clients.pop();
    assert!(rt; is_served(&rt, port)?);
    Ok(())
}

/// Sends a byte each half second, for twenty seconds at most, and returns whether the connection was closed.
fn is_closed<R: Clock>(rt: &R, client: &mut TcpStream) -> bool {
    for _ in 0..40 {
        thread::sleep(rt, Duration::from_millis(500));
        if client.write_all(b"T").is_err() {
            return true;
        }
    }
    false
}

#[test]
fn slow_clients_are_closed_after_ten_seconds(rt: HostRuntime) -> Result<(), Fail> {
    let port = start(&rt)?;
    let begin = Instant::now(&rt)?;
    let mut silent = connect(&rt, port)?;
    let mut slow = connect(&rt, port)?;
    slow.write_all(b"GET / HT")?;
    assert!(rt; is_served(&rt, port)?);
    assert!(rt; is_closed(&rt, &mut slow));
    let mut buf = [0; 1];
    assert_eq!(rt; silent.read(&mut buf)?, 0);
    assert!(rt; begin.elapsed(&rt)? >= Duration::from_secs(9));
    Ok(())
}
