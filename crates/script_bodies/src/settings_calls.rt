// The calls of settings.
use script_said::{Refused, Written};
use script_text::{read_hex, read_number};
use settings::{Settings, Stored, Version, WriteError};
use std::fmt;
use std::fmt::Write;

// The version that the word is.
fn read_version(word: &str) -> Option<Version> {
    let number: u8 = read_number(word)?;
    Version::try_from(number).ok()
}

// Makes the call `settings read` by a reader of this version.
fn read(reader: Version, bytes: &[u8], text: &mut impl Write) -> fmt::Result {
    match settings::read(reader, bytes) {
        Ok(Stored { settings, used }) => write!(
            text,
            "settings {} {} {} used {used}",
            settings.max_chunk_size, settings.room, settings.camera_kind
        ),
        Err(error) => write!(text, "{}", Refused(error.number())),
    }
}

// Makes the call `settings write`.
fn write(
    version: Version,
    settings: Settings,
    output: &mut [u8],
    text: &mut impl Write,
) -> fmt::Result {
    let count = settings::write(version, settings, output).map_err(WriteError::number);
    write!(text, "{}", Written { count, output })
}

// Makes the call that the words are, and puts its answer; none where they are no call. More output than there is cannot be lent.
pub fn make_settings(
    words: &[&str],
    bytes: &mut [u8],
    output: &mut [u8],
    text: &mut impl Write,
) -> Option<()> {
    match *words {
        ["settings", "read", reader, hex] => {
            read(read_version(reader)?, read_hex(hex, bytes)?, text).ok()
        }
        ["settings", "write", version, size, room, kind, out] => {
            let settings = Settings {
                max_chunk_size: read_number(size)?,
                room: read_number(room)?,
                camera_kind: read_number(kind)?,
            };
            let lent = output.get_mut(..read_number(out)?)?;
            write(read_version(version)?, settings, lent, text).ok()
        }
        _ => None,
    }
}
