//! The settings of a channel that wait.
ghost use Rattle.std.specs.Prelude.{◌≡◌, ◌<◌, ◌≤◌, ◌∷◌, ◌++◌, [], length, IfOk};
ghost use Rattle.play_types.specs.declared.setting.TheConstants.{MAX_WAITING_SETTINGS};

use play_types::{MAX_WAITING_SETTINGS, Setting};
use std::alloc::{AllocError, Global};
use std::marker::Model;

/// Settings that wait for a commit of their channel, in the order in which they came. There are at most 1,024, and the memory for
/// all of them is allocated when the list is created.
#[derive(Debug, Drop)]
pub(crate) struct WaitingList {
    settings: Vec<Setting>,
}

impl Model for WaitingList {
    ghost use Rattle.std.specs.Prelude.{◌≡◌, ◌≤◌, List};
    ghost use Rattle.std.specs.Vec.{vec_capacity, vec_len};
    ghost use Rattle.play_types.specs.Setting.{SettingView};
    ghost use Rattle.play_types.specs.declared.setting.TheConstants.{MAX_WAITING_SETTINGS};

    ghost Value = { List SettingView };

    ghost view = { λ w. w.settings.items };

    ghost invariant = { λ w. (vec_capacity w.settings ≡ MAX_WAITING_SETTINGS)
        × (vec_len w.settings ≤ MAX_WAITING_SETTINGS) };
}

impl WaitingList {
    /// Creates an empty list with memory for 1,024 settings.
    pub(crate) fn new(alloc: Global) -> Result<WaitingList, AllocError>
        ensures { IfOk result (λ waiting. waiting ≡ []) }
    {
        Ok(WaitingList {
            settings: Vec::with_capacity(alloc, MAX_WAITING_SETTINGS)?,
        })
    }

    /// Returns the settings in the order in which they came.
    pub(crate) fn as_slice(&self) -> &[Setting]
        ensures value { result.now ≡ self.now }
        ensures range { length self.now ≤ MAX_WAITING_SETTINGS }
    {
        self.settings.as_slice()
    }

    /// Adds a setting at the end.
    pub(crate) fn push(&mut self, setting: Setting)
        requires { length self.old < MAX_WAITING_SETTINGS }
        ensures { self.new ≡ self.old ++ setting ∷ [] }
    {
        self.settings.push_reserved(setting);
    }

    /// Removes all settings.
    pub(crate) fn clear(&mut self)
        ensures { self.new ≡ [] }
    {
        self.settings.clear();
    }
}
