//! A client over loopback, served by a whole run.
ghost use Rattle.std.specs.Prelude.{◌≡◌, ◌<◌, All, IfOk, length, vec_len};
ghost use Rattle.play_outside.specs.declared.listener.TheConstants.{MOST_AWAY};
ghost use Rattle.real_devices.specs.State.{door_state};

use clip_format::MediaTable;
use play_outside::{Devices, PlainSink};
use play_types::{Channel, ChannelList, Config, Text};
use real_devices::{DoorGroup, RateClock, TcpDoor};
use server_run::{ServeEnd, serve};
use std::alloc::Global;
use std::io::{self, Write};
use std::net::{TcpListener, TcpStream};
use std::test::Fail;

/// Returns a configuration of one channel of one pixel and one connection.
fn config(alloc: Global) -> Result<Config, Fail>
    ensures { IfOk result (λ config. (config.connections ≡ 1) × (length config.channels ≡ 1)) }
{
    let mut channels = ChannelList::new(alloc);
    let output = Text::copy(alloc, "o")?;
    channels.push(Channel::new(1, 1, 0, output).ok_or("a channel")?)?;
    let (listen, media) = (Text::copy(alloc, "l")?, Text::copy(alloc, "m")?);
    Ok(Config::new(listen, media, 240, 1, 9, channels).ok_or("a configuration")?)
}

/// Returns the devices of a run whose only door is over `listener`.
fn devices(
    rt: HostRuntime,
    listener: TcpListener,
) -> Result<Devices<RateClock<HostRuntime>, TcpDoor<HostRuntime>, PlainSink>, Fail>
    ensures doors { IfOk result (λ devices. vec_len devices.doors ≡ 1) }
    ensures outs { IfOk result (λ devices. vec_len devices.outs ≡ 1) }
    ensures quiet { IfOk result (λ devices. All (λ door. (door_state door).away < MOST_AWAY) devices.doors.items) }
{
    let alloc = rt.alloc();
    let mut doors = Vec::new(alloc);
    let group = DoorGroup::new(alloc, 1)?;
    doors.push(TcpDoor::new(listener, rt, group, 1)?)?;
    let mut outs = Vec::new(alloc);
    outs.push(PlainSink::new(1))?;
    Ok(Devices {
        clock: RateClock::new(rt, 240, 9),
        doors,
        outs,
        history: PlainSink::new(0),
        log: PlainSink::new(0),
    })
}

/// No clause says that a client receives what was written. The system keeps what the client sends until the run begins.
#[test]
fn serves_a_client(rt: HostRuntime) -> Result<(), Fail> {
    let alloc = rt.alloc();
    let listener = TcpListener::bind(&rt, "127.0.0.1:0")?;
    let port = listener.local_addr()?.port();
    let mut client = TcpStream::connect(&rt, ("127.0.0.1", port))?;
    client.write_all(b"VERSION\r\nPLAY 1-0 RED\r\nKILL\r\n")?;
    let config = config(alloc)?;
    let media = MediaTable::empty(alloc)?;
    let devices = devices(rt, listener)?;
    let end = serve(&rt, alloc, &config, &media, 1, devices).end;
    assert_eq!(rt; end, ServeEnd::Ended);
    let reply = io::read_to_string(alloc, client)?;
    assert_eq!(rt;
        reply.as_str(),
        "201 VERSION OK\r\n2.0 PLAYD\r\n202 PLAY OK\r\n202 KILL OK\r\n"
    );
    Ok(())
}
