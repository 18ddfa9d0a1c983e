//! The effect of a command on the layer at a place.
ghost use Rattle.std.specs.Prelude.{◌≡◌};
ghost use Rattle.history_model.specs.stage.Life.{effect};
ghost use Rattle.history_model.specs.stage.Live.{is_live};

use layer_state::Layer;
use play_types::Cmd;

/// Returns whether a layer holds a foreground or a background.
pub(crate) fn is_live(layer: &Layer) -> bool
    ensures { result ≡ is_live layer.now }
{
    layer.front().is_some() || layer.back().is_some()
}

/// Returns the layer at the place of a command after the command.
pub(crate) fn layer_after(cmd: &Cmd, before: Layer) -> Layer
    ensures { result ≡ effect cmd.now before }
{
    let mut layer = before;
    match cmd {
        Cmd::Load(_, take) => layer.load(*take),
        Cmd::LoadBg(_, take) => layer.load_bg(*take),
        Cmd::Play(_) => layer.play(),
        Cmd::PlayTake(_, take) => {
            layer.load_bg(take.without_auto());
            layer.play();
        }
        Cmd::Pause(_) => layer.pause(),
        Cmd::Resume(_) => layer.resume(),
        Cmd::StopLayer(_) => layer.stop(),
        Cmd::ClearLayer(_) => layer.clear(),
        Cmd::ClearChannel(_) => layer.clear(),
        Cmd::SwapLayers(..)
        | Cmd::SwapChannels(..)
        | Cmd::Set(_)
        | Cmd::CommitMixer(_)
        | Cmd::ResetLayer(_)
        | Cmd::ResetChannel(_)
        | Cmd::AddFile(..)
        | Cmd::RemoveFile(_)
        | Cmd::Value(..)
        | Cmd::Info => {}
    }
    layer
}
