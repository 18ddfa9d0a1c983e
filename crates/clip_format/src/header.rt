//! The 20 bytes before the frames of a clip file.
ghost use Rattle.std.specs.Prelude.{◌≡◌, ◌≢◌, ◌+◌, ◌≤◌, None, length, IfSome};
ghost use Rattle.play_types.specs.ClipFile.{header_bytes};
ghost use Rattle.play_types.specs.declared.clip.TheConstants.{MAX_FRAMES};
ghost use Rattle.clip_format.specs.Decoding.{announced, header_fault, header_frames, header_size, header_version, is_within, number_of_2, number_of_4};

use play_types::{
    Clip, ClipFault, Geometry, MAX_FRAMES, MAX_PAIRS, MAX_SIDE, MULTIPLIED, STRAIGHT,
};

/// The length of a header, in bytes.
pub(crate) const HEADER_LEN: usize = 20;

/// The version, the size and the number of frames in a header.
#[derive(Clone, Copy)]
pub(crate) struct Header {
    pub(crate) version: u16,
    pub(crate) size: Geometry,
    pub(crate) frames: u32,
}

/// Returns the header of a clip.
pub(crate) fn header_of(clip: &Clip) -> [u8; HEADER_LEN]
    ensures { result ≡ header_bytes clip.now.version clip.now.geometry clip.now.frames }
{
    header_with(clip.version(), clip.geometry(), clip.frames())
}

/// Returns the header of a clip of this version, this size and this number of frames.
pub(crate) fn header_with(version: u16, size: Geometry, frames: u32) -> [u8; HEADER_LEN]
    ensures { result ≡ header_bytes version size frames }
{
    let [v0, v1] = version.to_be_bytes();
    let [w0, w1] = size.width.to_be_bytes();
    let [h0, h1] = size.height.to_be_bytes();
    let [f0, f1, f2, f3] = frames.to_be_bytes();
    let [p0, p1] = size.pairs.to_be_bytes();
    [
        b'R', b'C', b'L', b'P', v0, v1, 0, 0, w0, w1, h0, h1, f0, f1, f2, f3, p0, p1, 0, 0,
    ]
}

/// Returns the fault of the first field that is not accepted.
#[tactic(auto, using(std::proofs::lemmas::Bool::Decides::nat_tests), unfolding(crate::specs::Decoding::header_fault))]
pub(crate) fn fault_of(bytes: &[u8]) -> Option<ClipFault>
    requires { 20 ≤ length bytes.now }
    ensures value { result ≡ header_fault bytes.now }
    ensures of_file { IfSome result (λ fault. fault ≢ ClipFault.OutOfMemory) }
{
    if &bytes[..4] != b"RCLP".as_slice() {
        return Some(ClipFault::BadMagic);
    }
    if !(MULTIPLIED..=STRAIGHT).contains(&u16_at(bytes, 4)) {
        return Some(ClipFault::BadVersion);
    }
    if u16_at(bytes, 6) != 0 {
        return Some(ClipFault::BadField { at: 6 });
    }
    if !(1..=MAX_SIDE).contains(&u16_at(bytes, 8)) {
        return Some(ClipFault::BadField { at: 8 });
    }
    if !(1..=MAX_SIDE).contains(&u16_at(bytes, 10)) {
        return Some(ClipFault::BadField { at: 10 });
    }
    if !is_frame_count(u32_at(bytes, 12)) {
        return Some(ClipFault::BadField { at: 12 });
    }
    if u16_at(bytes, 16) > MAX_PAIRS {
        return Some(ClipFault::BadField { at: 16 });
    }
    if u16_at(bytes, 18) != 0 {
        return Some(ClipFault::BadField { at: 18 });
    }
    None
}

/// Returns the version, the size and the number of frames that a header names.
pub(crate) fn numbers_in(bytes: &[u8]) -> Header
    requires { 20 ≤ length bytes.now }
    ensures { result ≡ record { version = header_version bytes.now; size = header_size bytes.now; frames = header_frames bytes.now } }
{
    Header {
        version: u16_at(bytes, 4),
        size: Geometry {
            width: u16_at(bytes, 8),
            height: u16_at(bytes, 10),
            pairs: u16_at(bytes, 16),
        },
        frames: u32_at(bytes, 12),
    }
}

/// Returns the length of the file that a header without a fault announces, in bytes.
pub(crate) fn announced_len(bytes: &[u8]) -> u64
    requires long { 20 ≤ length bytes.now }
    requires no_fault { header_fault bytes.now ≡ None }
    ensures { result ≡ announced bytes.now }
{
    let header = numbers_in(bytes);
    HEADER_LEN as u64 + u64::from(header.frames) * header.size.frame_bytes()
}

/// Returns whether a clip may have `frames` frames.
fn is_frame_count(frames: u32) -> bool
    ensures { result ≡ is_within 1 MAX_FRAMES frames }
{
    (1..=MAX_FRAMES).contains(&frames)
}

/// Returns the number of two bytes, the higher one first.
fn u16_at(bytes: &[u8], at: usize) -> u16
    requires { at + 2 ≤ length bytes.now }
    ensures { result ≡ number_of_2 bytes.now at }
{
    u16::from_be_bytes([bytes[at], bytes[at + 1]])
}

/// Returns the number of four bytes, the highest one first.
fn u32_at(bytes: &[u8], at: usize) -> u32
    requires { at + 4 ≤ length bytes.now }
    ensures { result ≡ number_of_4 bytes.now at }
{
    u32::from_be_bytes([bytes[at], bytes[at + 1], bytes[at + 2], bytes[at + 3]])
}
