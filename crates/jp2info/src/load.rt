// A file by its name, into the room that is lent. Where that fails, standard error has a line with the name and the reason.
ghost use Rattle.std.specs.Prelude.{◌≡◌, ◌≤◌, length, IfOk, IfSome};

use crate::{ROOM, quote};
use std::fs::File;
use std::io::{Cursor, Read, Write};
use std::rt::Files;
use std::{fmt, io};

// Why a file is not shown, or what is said of it does not arrive.
#[derive(Debug, Drop)]
pub(crate) enum Failure {
    NameNotUtf8,
    TooLarge,
    System(io::Error),
}

impl From<io::Error> for Failure {
    fn from(e: io::Error) -> Self {
        Failure::System(e)
    }
}

impl fmt::Display for Failure {
    fn fmt<W: fmt::Write>(&self, f: &mut fmt::Formatter<W>) -> fmt::Result {
        match self {
            Failure::NameNotUtf8 => f.write_str("the name is not UTF-8"),
            Failure::TooLarge => {
                write!(f, "larger than the {ROOM} bytes that jp2info has room for")
            }
            Failure::System(e) => reason(e, f),
        }
    }
}

// What is printed of a reason, of 512 bytes at most, and how many bytes that is.
fn printed(reason: impl fmt::Display + Drop) -> ([u8; 512], usize) {
    let mut said = Cursor::new([0u8; 512]);
    let _ = write!(said, "{reason}");
    let n = said.position() as usize;
    (said.into_inner(), n)
}

// The system's text, of 256 bytes at most, without its number. With the number it has room.
fn reason<W: fmt::Write>(e: &io::Error, f: &mut fmt::Formatter<W>) -> fmt::Result {
    let (bytes, n) = printed(e);
    let Ok(words) = str::from_utf8(box_number::part(&bytes, 0, n)) else {
        return Ok(());
    };
    match words.split_once(" (os error ") {
        Some((text, _)) => f.write_str(text),
        None => f.write_str(words),
    }
}

// The bytes of a file. A name that is not UTF-8 cannot be opened.
pub(crate) fn load<'a, R: Files>(
    rt: &R,
    name: &[u8],
    room: &'a mut [u8],
) -> Result<&'a [u8], Failure>
    ensures { IfOk result (λ f. length f.now ≤ length room.old) }
{
    let path = str::from_utf8(name).map_err(|_| Failure::NameNotUtf8)?;
    let mut file = File::open(rt, path)?;
    read(&mut file, room)
}

// The file whole: where it is known what the input has left, all of that. After the last byte one more read distinguishes the file's end from a failure, as with a folder, and from a file that is too large.
fn read<'a, I: Read>(file: &mut I, room: &'a mut [u8]) -> Result<&'a [u8], Failure>
    ensures lies { IfOk result (λ f. length f.now ≤ length room.old) }
    ensures whole { IfOk result (λ f. IfSome (I.remaining file.old) (λ xs. f.now ≡ xs)) }
{
    let n = text::input::read_full(file, room);
    let mut more = [0u8; 1];
    if file.read(&mut more)? > 0 {
        return Err(Failure::TooLarge);
    }
    Ok(&room[..n])
}

// One line in one write. The name, of 4096 bytes at most, has room in the list even where each byte takes four.
pub(crate) fn complain(err: &impl Print, name: &[u8], reason: impl fmt::Display + Drop) {
    let (bytes, n) = printed(format_args!("{reason}\n"));
    let mut d = [0u8; 65536];
    let at = text::text(&mut d, 0, b"jp2info: ");
    let at = quote::quote(&mut d, at, false, name);
    let at = text::text(&mut d, at, box_number::part(&bytes, 0, n));
    let _ = err.write_all(box_number::part(&d, 0, at));
}
