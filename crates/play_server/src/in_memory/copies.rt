//! Copies of the arguments of `ready`, which a site in memory keeps.
ghost use Rattle.std.specs.Prelude.{◌≡◌, ◌∷◌, ◌++◌, ◌+◌, ◌<◌, [], false, IfOk, length, option_map, vec_len, vec_capacity};
ghost use Rattle.play_server.specs.Site.{ready_call};

use crate::site::ReadyCall;
use play_types::{ByteList, Channel, ChannelList, Config, Text};
use std::alloc::{AllocError, Global};

/// Copies the arguments of `ready` as a call that gave no devices, and reserves room for it in `calls`.
pub(crate) fn new_call(
    alloc: Global,
    config: &Config,
    history: Option<&str>,
    calls: &mut Vec<ReadyCall>,
) -> Result<ReadyCall, AllocError>
    ensures call { IfOk result (λ call. call ≡ ready_call config.now (option_map (λ path. path.now) history.entry) false) }
    ensures room { IfOk result (λ _. vec_len calls.new < vec_capacity calls.new) }
    ensures calls { calls.new.items ≡ calls.old.items }
{
    let call = copy_call(alloc, config, history)?;
    calls.reserve(1)?;
    Ok(call)
}

/// Copies the arguments of `ready` as a call that gave no devices.
fn copy_call(alloc: Global, config: &Config, history: Option<&str>) -> Result<ReadyCall, AllocError>
    ensures { IfOk result (λ call. call ≡ ready_call config.now (option_map (λ path. path.now) history.entry) false) }
{
    let config = copy_config(alloc, config)?;
    let history = history
        .map(|path| Vec::from_slice(alloc, path.as_bytes()))
        .transpose()?
        .map(ByteList::new);
    Ok(ReadyCall {
        config,
        history,
        ok: false,
    })
}

/// Copies a configuration.
fn copy_config(alloc: Global, config: &Config) -> Result<Config, AllocError>
    ensures { IfOk result (λ copy. copy ≡ config.now) }
{
    let listen = Text::copy(alloc, config.listen().as_str())?;
    let media = Text::copy(alloc, config.media().as_str())?;
    let channels = copy_channels(alloc, config.channels())?;
    let copy = Config::new(
        listen,
        media,
        config.rate(),
        config.connections(),
        config.journal_limit(),
        channels,
    );
    Ok(copy.unwrap())
}

/// Copies the channels.
fn copy_channels(alloc: Global, channels: &ChannelList) -> Result<ChannelList, AllocError>
    ensures { IfOk result (λ copy. copy ≡ channels.now) }
{
    let mut copies = ChannelList::new(alloc);
    for channel in channels.iter() {
        let copy = copy_channel(alloc, channel)?;
        copies.push(copy)?;
    }
    Ok(copies)
}

/// Copies a channel.
fn copy_channel(alloc: Global, channel: &Channel) -> Result<Channel, AllocError>
    ensures { IfOk result (λ copy. copy ≡ channel.now) }
{
    let output = Text::copy(alloc, channel.output().as_str())?;
    let copy = Channel::new(channel.width(), channel.height(), channel.pairs(), output);
    Ok(copy.unwrap())
}

/// Appends `line` and a line feed. There must be room for both.
pub(crate) fn push_line(to: &mut Vec<u8>, line: &[u8])
    requires { vec_len to.old + length line.now < vec_capacity to.old }
    ensures { to.new.items ≡ to.old.items ++ line.now ++ 10 ∷ [] }
{
    for byte in line {
        to.push_reserved(*byte);
    }
    to.push_reserved(b'\n');
}
