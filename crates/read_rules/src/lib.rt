// Reading a file: its definitions (specs/File.antt), theorems about what a file is read to, and small files with their whole record (specs/Records.antt). The code, `opj_jp2_read_header_procedure` of jp2.rs, is in read_file.
#![tactic(auto)]

use read_record::Jp2;

// Where reading a file ended: at the codestream, with its offset, or at the end of the file.
#[derive(Clone, Copy, Debug, PartialEq, Eq)]
pub enum FileEnd {
    Codestream(u32),
    Ended,
}

// Where it ended, and the record then. A file that is refused has neither: its answer is an error.
#[derive(Clone, Copy)]
pub struct Reading {
    pub end: FileEnd,
    pub jp2: Jp2,
}
