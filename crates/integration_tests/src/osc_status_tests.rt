//! Messages of OSC, with ample memory and room: their bytes, which were worked out by hand, bytes that are no message, and names of
//! clips in the status of a layer.
ghost use Rattle.std.specs.Prelude.{◌≡◌, true, false, All};
ghost use Rattle.std.specs.List.{list_any};
ghost use Rattle.osc_status.specs.Message.{begins_with};
ghost use Rattle.osc_status.specs.Texts.{is_zero};
ghost use Rattle.osc_status.specs.Written.{HasNoZero};

use osc_status::{
    ArgList, LayerStatus, OscArg, OscFault, OscValue, read_message, write_layer_status,
    write_message,
};
use play_outside::{MemSink, Sent};
use play_types::{MediaName, MediaNames, Spec, Text};
use std::alloc::{AllocError, Global};
use std::test::Fail;

/// Returns whether this argument was read.
fn is_arg(value: &OscValue, arg: &OscArg<'_>) -> bool {
    match (value, arg) {
        (OscValue::Int(read), OscArg::Int(number)) => *read == *number,
        (OscValue::Word(read), OscArg::Word(word)) => read.as_str() == *word,
        (OscValue::Int(_), OscArg::Word(_)) | (OscValue::Word(_), OscArg::Int(_)) => false,
    }
}

/// Returns whether these arguments were read.
fn are_args(values: &ArgList, args: &[OscArg<'_>]) -> bool {
    let mut same = values.len() == args.len();
    for (value, arg) in values.iter().zip(args) {
        same &= is_arg(value, arg);
    }
    same
}

/// Returns whether the bytes are read as the message of an address and of arguments.
fn is_read(
    alloc: Global,
    address: &str,
    args: &[OscArg<'_>],
    bytes: &[u8],
) -> Result<bool, OscFault> {
    let message = read_message(alloc, bytes)?;
    Ok(message.address.as_str() == address && are_args(&message.args, args))
}

/// Returns whether the message of an address and of arguments is written as these bytes, and they are read as this message.
fn has_bytes(alloc: Global, address: &str, args: &[OscArg<'_>], bytes: &[u8]) -> Result<bool, Fail>
    requires slash { begins_with 47 address.now ≡ true }
    requires address { list_any is_zero address.now ≡ false }
    requires words { All HasNoZero args.now }
{
    let mut sink = MemSink::new(alloc, 0, 99, 7, Vec::new(alloc))?;
    let sent = write_message(address, args, &mut sink);
    let is_written = sent == Sent::All && sink.taken() == bytes;
    Ok(is_written && is_read(alloc, address, args, bytes)?)
}

#[test]
fn addresses_are_padded_to_four_bytes(rt: HostRuntime) -> Result<(), Fail> {
    let alloc = rt.alloc();
    assert!(rt; has_bytes(alloc, "/", &[], b"/\0\0\0,\0\0\0")?);
    assert!(rt; has_bytes(alloc, "/a", &[], b"/a\0\0,\0\0\0")?);
    assert!(rt; has_bytes(alloc, "/ab", &[], b"/ab\0,\0\0\0")?);
    assert!(rt; has_bytes(alloc, "/abc", &[], b"/abc\0\0\0\0,\0\0\0")?);
    Ok(())
}

#[test]
fn words_are_padded_to_four_bytes(rt: HostRuntime) -> Result<(), Fail> {
    let alloc = rt.alloc();
    let words = [
        OscArg::Word(""),
        OscArg::Word("a"),
        OscArg::Word("ab"),
        OscArg::Word("abc"),
        OscArg::Word("abcd"),
    ];
    assert!(rt;
        has_bytes(
            alloc,
            "/",
            &words,
            b"/\0\0\0,sssss\0\0\0\0\0\0a\0\0\0ab\0\0abc\0abcd\0\0\0\0"
        )?
    );
    Ok(())
}

#[test]
fn numbers_have_four_bytes_after_padded_letters(rt: HostRuntime) -> Result<(), Fail> {
    let alloc = rt.alloc();
    let (one, least) = (OscArg::Int(1), OscArg::Int(-2_147_483_648));
    assert!(rt; has_bytes(alloc, "/", &[one], b"/\0\0\0,i\0\0\0\0\0\x01")?);
    assert!(rt;
        has_bytes(
            alloc,
            "/",
            &[one, least],
            b"/\0\0\0,ii\0\0\0\0\x01\x80\0\0\0"
        )?
    );
    assert!(rt;
        has_bytes(
            alloc,
            "/",
            &[one, OscArg::Word("é"), least],
            b"/\0\0\0,isi\0\0\0\0\0\0\0\x01\xc3\xa9\0\0\x80\0\0\0"
        )?
    );
    Ok(())
}

/// A message with a word beyond ASCII, an empty word, and numbers.
static MESSAGE: &[u8] =
    b"/abc\0\0\0\0,sisi\0\0\0a\"\xc3\xa9\0\0\0\0\xff\xff\xff\xff\0\0\0\0\0\0\x01\0";

/// Returns whether the bytes are no message.
fn is_refused(alloc: Global, bytes: &[u8]) -> bool {
    read_message(alloc, bytes).err() == Some(OscFault::NoMessage)
}

#[test]
fn cut_messages_are_refused(rt: HostRuntime) {
    for len in 0..MESSAGE.len() {
        assert!(rt; is_refused(rt.alloc(), &MESSAGE[..len]), "at {len}");
    }
    assert!(rt; read_message(rt.alloc(), MESSAGE).is_ok());
}

/// Returns whether the message is refused with these bytes after it.
fn is_refused_with(alloc: Global, more: &[u8]) -> Result<bool, AllocError> {
    let mut bytes = Vec::from_slice(alloc, MESSAGE)?;
    bytes.extend_from_slice(more)?;
    Ok(is_refused(alloc, bytes.as_slice()))
}

#[test]
fn longer_messages_are_refused(rt: HostRuntime) -> Result<(), Fail> {
    assert!(rt; is_refused_with(rt.alloc(), b"\0")?);
    assert!(rt; is_refused_with(rt.alloc(), b"a")?);
    assert!(rt; is_refused_with(rt.alloc(), b"\0\0\0\0")?);
    Ok(())
}

/// Bytes that are no message, and why.
static REFUSED: [(&[u8], &str); 9] = [
    (b"abc\0,\0\0\0", "no slash"),
    (b"/ab\0i\0\0\0\0\0\0\x01", "no comma"),
    (b"/ab\0,f\0\0\0\0\0\x01", "an argument of another kind"),
    (b"/abc,\0\0\0", "an address without a zero byte"),
    (b"/a\0b,\0\0\0", "an address with a zero byte in it"),
    (b"/ab\0,s\0\0a\0b\0", "a word with a zero byte in it"),
    (
        b"/ab\0,s\0\0abc\0\0\0\0\0",
        "a word with too many zero bytes",
    ),
    (b"/ab\0,s\0\0\xc3\0\0\0", "a word that is not UTF-8"),
    (b"/ab\0,ii\0\0\0\0\x01", "a number too few"),
];

#[test]
fn bytes_that_are_no_message_are_refused(rt: HostRuntime) {
    for (bytes, cause) in &REFUSED {
        assert!(rt; is_refused(rt.alloc(), bytes), "{cause}");
    }
}

/// The end of the lines of a layer that plays one frame: its frame, and that it is not paused.
static LATER_LINES: &str = "
O 7 2f6368616e6e656c2f312f6c617965722f302f6672616d65000000002c6969000000000000000001
O 7 2f6368616e6e656c2f312f6c617965722f302f7061757365640000002c69000000000000
";

/// Names of clips, and the digits of their texts.
static NAMES: [(&str, &str); 4] = [
    ("A\"B", "41224200"),
    ("A\\B", "415c4200"),
    ("ÄB", "c3844200"),
    ("A\0B", "41420000"),
];

/// Returns the lines of a layer that plays a clip of a name.
fn lines_of(alloc: Global, name: &str) -> Result<String, Fail> {
    let mut names = MediaNames::new(alloc);
    names.push(MediaName::unreadable(Text::copy(alloc, name)?))?;
    let layer = LayerStatus {
        channel: 1,
        layer: 0,
        spec: Spec::Clip(0),
        frame: 0,
        length: 1,
        paused: false,
    };
    let mut sink = MemSink::new(alloc, 0, 999, 999, Vec::new(alloc))?;
    match write_layer_status(7, &layer, &names, &mut sink) {
        Sent::All => Ok(String::from_utf8_lossy(alloc, sink.taken())?),
        Sent::Failed => Err("room for the lines")?,
    }
}

/// Returns the digits of the text in the lines of a layer.
fn text_in(lines: &str) -> Option<&str> {
    let text = lines.strip_prefix(
        "O 7 2f6368616e6e656c2f312f6c617965722f302f70726f6475636572002c730000",
    )?;
    text.strip_suffix(LATER_LINES)
}

#[test]
fn names_of_clips_have_no_quotes_and_no_zero_bytes(rt: HostRuntime) -> Result<(), Fail> {
    for (name, digits) in &NAMES {
        let lines = lines_of(rt.alloc(), name)?;
        assert_eq!(rt; text_in(lines.as_str()), Some(*digits));
    }
    Ok(())
}
