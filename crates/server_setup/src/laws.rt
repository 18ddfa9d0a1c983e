//! Laws of the definitions in `specs/`, each the contract of a function that does nothing.
ghost use Rattle.std.specs.Prelude.{◌≡◌, ℕ, List, Result, Some};
ghost use Rattle.play_outside.specs.FolderState.{Files, FolderState};
ghost use Rattle.server_setup.specs.Setup.{SetsUp, TellsFirst, fault_of_files};
ghost use Rattle.server_setup.specs.declared.fault.RunFault.{RunFault};
ghost use Rattle.server_setup.specs.declared.setup.ServerSetup.{ServerSetup};

/// If the files of the folder are known, their first fault decides the result of a set-up, unless a read fails or
/// memory runs out.
pub fn first_fault_decides()
    ensures { (path : List ℕ) (result : Result ServerSetup RunFault) (before after : FolderState) (files : Files) →
        before.files ≡ Some files → SetsUp path result before after → TellsFirst result (fault_of_files path files) }
{}
