//! Files of the system, whose contents no clause states, and words with ample memory.
use host_system::{FolderMedia, Progress, words_of};
use play_outside::{FileFault, MediaDir};
use std::test::Fail;
use std::{env, fs};

#[test]
fn files_of_a_folder_are_read_and_missing_ones_fail(rt: HostRuntime) -> Result<(), Fail> {
    let alloc = rt.alloc();
    fs::create_dir_all(&rt, "host_system_test/inner")?;
    fs::write(&rt, "host_system_test/one", "abc")?;
    let large = vec![in alloc; 7; 1_048_577]?;
    fs::write(&rt, "host_system_test/.large", large.as_slice())?;
    let mut media = FolderMedia::new(rt.clone()?, "host_system", Progress::Total);
    let read = media.config(alloc, "host_system_test/one")?;
    assert_eq!(rt; read.as_slice(), b"abc".as_slice());
    let read = media.bytes(alloc, "host_system_test", "one")?;
    assert_eq!(rt; read.as_slice(), b"abc".as_slice());
    let read = media.bytes(alloc, "host_system_test", ".large")?;
    assert_eq!(rt; read.len(), large.len());
    // A file that is missing, and a folder, cannot be read.
    for name in ["two", "inner"] {
        let fault = media.bytes(alloc, "host_system_test", name).err();
        assert_eq!(rt; fault, Some(FileFault::Failed));
    }
    let mut names = media.names(alloc, "host_system_test")?;
    names.as_mut_slice().sort_unstable();
    assert_eq!(rt; names.len(), 3);
    assert_eq!(rt; names[0].as_str(), ".large");
    assert_eq!(rt; names[1].as_str(), "inner");
    assert_eq!(rt; names[2].as_str(), "one");
    let fault = media.names(alloc, "host_system_test/none").err();
    assert_eq!(rt; fault, Some(FileFault::Failed));
    fs::remove_dir_all(&rt, "host_system_test")?;
    Ok(())
}

#[test]
fn the_words_of_the_program_are_taken(rt: HostRuntime) -> Result<(), Fail> {
    assert!(rt; words_of(rt.alloc(), env::args(&rt)).is_ok());
    Ok(())
}
