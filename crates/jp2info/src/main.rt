// Prints what the boxes of JP2 files say, for people or, after the word --json, for machines.
// A file that cannot be read is named on standard error, and the files after it are still read.
#![tactic(auto)]

mod items;
mod lists;
mod load;
mod quote;
mod record;
mod say;
mod usage;
mod utf8;

use load::{Failure, complain};
use say::Report;
use std::env::{Env, FillError};
use std::rt::Files;

// Most bytes of a file. They lie on the stack, since nothing is allocated; it usually has 8 MiB, of which the arguments may take 2. The number is part of what is printed of a larger file.
const ROOM: usize = 5242880;

fn main(rt: HostRuntime) {
    let count = arg_count(&rt);
    if count < 2 {
        usage::usage(&rt.stderr());
        return;
    }
    let mut room = text::input::room::<u8, ROOM>(0);
    let mut run = Run {
        rt: &rt,
        err: rt.stderr(),
        json: false,
        room: &mut room,
    };
    for i in 1..count {
        run.word(i);
    }
}

// How many arguments there are, the program's own name among them.
fn arg_count(rt: &impl Env) -> usize {
    let mut none = [0u8; 0];
    for i in 0..usize::MAX {
        if let Err(FillError::NotPresent) = rt.arg(i, &mut none) {
            return i;
        }
    }
    usize::MAX
}

// Where output and complaints go, whether files come as JSON from here on, and the room for a file.
#[derive(Drop)]
struct Run<'a, R, E> {
    rt: R,
    err: E,
    json: bool,
    room: &'a mut [u8],
}

impl<R: Env + Files + Print, E: Print> Run<'_, R, E> {
    // Argument i.
    fn word(&mut self, i: usize) {
        let mut name = [0u8; 4096];
        match self.rt.arg(i, &mut name) {
            Ok(n) => self.obey(&name[..n]),
            Err(_) => complain(&self.err, &name, "..: File name too long"),
        }
    }

    // One of the two words, or a file's name.
    fn obey(&mut self, s: &[u8]) {
        match s {
            b"--json" => self.json = true,
            b"--help" => usage::usage(&self.rt),
            _ => self.file(s),
        }
    }

    fn file(&mut self, name: &[u8]) {
        match load::load(&self.rt, name, self.room) {
            Ok(file) => show(&self.rt, &self.err, self.json, name, file),
            Err(e) => complain(&self.err, name, format_args!(": {e}")),
        }
    }
}

// Where output no longer arrives, this is where it is noticed. No method: the file is a part of the room that a `Run` lends.
fn show(rt: &impl Print, err: &impl Print, json: bool, name: &[u8], file: &[u8]) {
    if file.is_empty() {
        complain(err, name, ": empty file");
    }
    let report = Report { rt, json, file };
    if let Err(e) = report.reading(name, read_file::read_file(file)) {
        let e = Failure::System(e);
        complain(err, b"standard output", format_args!(": {e}"));
    }
}
