//! Reads clip files.
ghost use Rattle.std.specs.Prelude.{◌≡◌, ◌≢◌, ◌≤◌, length, drop, Ok, Err, IfOk, IfErr};
ghost use Rattle.play_types.specs.ClipFile.{ClipView, IsClipFile};
ghost use Rattle.clip_format.specs.Decoding.{clip_of};
ghost use Rattle.clip_format.specs.Preparing.{AreBytes};
ghost use Rattle.clip_format.specs.inner.FileClip.{file_clip};

use crate::header::{HEADER_LEN, Header, announced_len, fault_of, numbers_in};
use play_types::{ByteList, Clip, ClipFault};

/// Reads a clip file. The clip keeps the bytes after the header as they are.
///
/// Fewer than 20 bytes are `Short` with 20 needed. Then comes the first field of the header that is not accepted, and
/// then `Short` or `Long` if the bytes are not as many as the header announces. `OutOfMemory` never comes.
pub fn decode(bytes: Vec<u8>) -> Result<Clip, ClipFault>
    ensures exact { result ≡ clip_of bytes.items }
    ensures is_file { IfOk result (λ clip. IsClipFile bytes.items clip) }
    ensures of_bytes { IfOk result (λ clip. AreBytes clip.bytes) }
    ensures each_file { (clip : ClipView) → IsClipFile bytes.items clip → result ≡ Ok clip }
    ensures takes_no_memory { IfErr result (λ fault. fault ≢ ClipFault.OutOfMemory) }
{
    let header = read_header(bytes.as_slice())?;
    let frames = ByteList::new(after_header(bytes));
    Ok(Clip::new(header.version, header.size, header.frames, frames).unwrap())
}

/// Returns the header of a clip file, or the fault of the file, of which its length is checked too.
fn read_header(bytes: &[u8]) -> Result<Header, ClipFault>
    ensures clip { IfOk result (λ header. clip_of bytes.now ≡ Ok (file_clip header bytes.now)) }
    ensures is_file { IfOk result (λ header. IsClipFile bytes.now (file_clip header bytes.now)) }
    ensures of_bytes { IfOk result (λ header. AreBytes bytes.now) }
    ensures fault { IfErr result (λ fault. clip_of bytes.now ≡ Err fault) }
    ensures of_file { IfErr result (λ fault. fault ≢ ClipFault.OutOfMemory) }
{
    let had = bytes.len() as u64;
    if had < HEADER_LEN as u64 {
        return Err(ClipFault::Short {
            needed: HEADER_LEN as u64,
            had,
        });
    }
    if let Some(fault) = fault_of(bytes) {
        return Err(fault);
    }
    let needed = announced_len(bytes);
    if had < needed {
        return Err(ClipFault::Short { needed, had });
    }
    if needed < had {
        let extra = had - needed;
        return Err(ClipFault::Long { extra });
    }
    Ok(numbers_in(bytes))
}

/// Returns the bytes after the header, moved to the front of their buffer.
fn after_header(mut bytes: Vec<u8>) -> Vec<u8>
    requires { 20 ≤ length bytes.items }
    ensures { result.items ≡ drop 20 bytes.items }
{
    let kept = bytes.len() - HEADER_LEN;
    bytes.copy_within(HEADER_LEN.., 0);
    bytes.truncate(kept);
    bytes
}
