// What --help prints.
use crate::ROOM;

pub(crate) fn usage(out: &impl Print) {
    let _ = out.print(format_args!(
        "usage: jp2info [--json] FILE..\n\
        \n\
        Prints what the boxes of each JP2 file say, up to the codestream, a field a line.\n\
        The names are those of ISO/IEC 15444-1 Annex I. A file that is turned down comes\n\
        with the number, the cause and the offset of the box at fault.\n\
        \n\
        \x20 --json   the files after this word come as JSON, a line each\n\
        \x20 --help   this text\n\
        \n\
        A file may have {ROOM} bytes at most. A file that cannot be read, and one that is\n\
        empty, is named on standard error, and the rest is still done. A file whose name is\n\
        one of these words is given as ./--json.\n\
        \n\
        Control bytes, and bytes that are not UTF-8, are shown as \\x1b, in JSON as \\u001b.\n",
    ));
}
