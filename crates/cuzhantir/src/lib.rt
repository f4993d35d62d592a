// The entries for callers from C and Rust: plain lists and numbers, in the parameters that C has. The crate `cuzhantir_c` exports them to C. Each entry answers 0 or document 01's number; 30 where the list for its numbers is too short, and then it does nothing.
#![tactic(auto)]

ghost use Rattle.std.specs.Prelude.{◌≡◌, length};
ghost use Rattle.box_number.specs.Number.{placed};
ghost use Rattle.picture_rules.specs.Answers.{answered, records_after, samples_after};
ghost use Rattle.picture_rules.specs.Handed.{settings};
ghost use Rattle.picture_rules.specs.Whole.{handed, pictured};
ghost use Rattle.write_rules.specs.Writing.{write, destination};
ghost use Rattle.write_rules.specs.Request.{request};
ghost use Rattle.export_rules.specs.Places.{reading_length, answer_length};
ghost use Rattle.export_rules.specs.Room.{room};
ghost use Rattle.export_rules.specs.Numbers.{numbers, refusal_number};
ghost use Rattle.export_rules.specs.Answers.{of_told, returned};
ghost use Rattle.export_rules.specs.FinishReading.{finish_reading};
ghost use Rattle.export_rules.specs.TwoSteps.{ReadingOf};
ghost use Rattle.export_rules.specs.Rule.{ToldRight};
ghost use Rattle.export_rules.specs.CutTold.{CutTold};
ghost use Rattle.read_rules.specs.File as jp2;
ghost use Rattle.write_boxes.specs.Answers as written;

mod answers;
mod numbers;
mod readings;

use answers::ANSWER_LENGTH;
use box_refusal::Cause;
use numbers::READING_LENGTH;
use picture_rules::Settings;
use write_rules::{Area, Request};

// The number of a destination that is too short.
const TOO_SHORT: u32 = Cause::DestinationTooShort as u32;

// Reads a file and gives the 44 numbers of its reading. Where reading has no room for them nothing is done.
// The last clause is request R-1: where the file was broken off, the numbers agree with the whole file.
pub fn cuzhantir_read(file: &[u8], reading: &mut [u64]) -> u32
    ensures value { result ≡ room reading_length reading.old 30 (refusal_number (jp2.read file.now)) }
    ensures reading_after { reading.new ≡ room reading_length reading.old reading.old (placed reading.old 0 (numbers (jp2.read file.now))) }
    ensures cut_told { CutTold file.now reading.old reading.new }
{
    if reading.len() < READING_LENGTH {
        return TOO_SHORT;
    }
    let r = read_file::read_file(file);
    reading[..READING_LENGTH].copy_from_slice(&numbers::of_reading(r));
    numbers::refusal_number(r)
}

// Reads a file, finishes its picture and gives the 4 numbers of the answer. Where answer has no room for them nothing is done. The flag edition2 picks the edition of the camera rules: 0 is edition 1, any other number edition 2.
// The last clause is demand 3: where the answer is "done", every sample of the finished planes in the destinations is the right one, in whatever order the file has its definitions; and in edition 2 every mark is its own channel's.
pub fn cuzhantir_picture(
    file: &[u8],
    ignore: u32,
    edition2: u32,
    comps: &[u32],
    count: u32,
    samples: &[i32],
    records: &mut [u32],
    planes: &mut [i32],
    answer: &mut [u64],
) -> u32
    ensures value { result ≡ room answer_length answer.old 30 (returned (of_told (answered (pictured (handed file.now (settings ignore edition2) comps.now count samples.now records.old planes.old))))) }
    ensures answer_after { answer.new ≡ room answer_length answer.old answer.old (placed answer.old 0 (of_told (answered (pictured (handed file.now (settings ignore edition2) comps.now count samples.now records.old planes.old))))) }
    ensures records_after { records.new ≡ room answer_length answer.old records.old (records_after (pictured (handed file.now (settings ignore edition2) comps.now count samples.now records.old planes.old)) records.old) }
    ensures planes_after { planes.new ≡ room answer_length answer.old planes.old (samples_after (pictured (handed file.now (settings ignore edition2) comps.now count samples.now records.old planes.old)) planes.old) }
    ensures told_right { ToldRight (handed file.now (settings ignore edition2) comps.now count samples.now records.old planes.old) answer.old answer.new records.new planes.old planes.new }
{
    if answer.len() < ANSWER_LENGTH {
        return TOO_SHORT;
    }
    let s = Settings { ignore, edition2 };
    let r = picture_finish::read_picture(file, s, comps, count, samples, records, planes);
    answers::give(r, answer)
}

// Finishes a picture whose file was read before: reading has the 44 numbers of that reading. It gives the 4 numbers of the answer; where answer has no room for them nothing is done.
// The last clause is demand 3, as for both in one step, where reading begins with the numbers that `cuzhantir_read` gives for this file.
pub fn cuzhantir_finish(
    file: &[u8],
    reading: &[u64],
    ignore: u32,
    edition2: u32,
    comps: &[u32],
    count: u32,
    samples: &[i32],
    records: &mut [u32],
    planes: &mut [i32],
    answer: &mut [u64],
) -> u32
    ensures value { result ≡ room answer_length answer.old 30 (returned (of_told (answered (finish_reading (handed file.now (settings ignore edition2) comps.now count samples.now records.old planes.old) reading.now)))) }
    ensures answer_after { answer.new ≡ room answer_length answer.old answer.old (placed answer.old 0 (of_told (answered (finish_reading (handed file.now (settings ignore edition2) comps.now count samples.now records.old planes.old) reading.now)))) }
    ensures records_after { records.new ≡ room answer_length answer.old records.old (records_after (finish_reading (handed file.now (settings ignore edition2) comps.now count samples.now records.old planes.old) reading.now) records.old) }
    ensures planes_after { planes.new ≡ room answer_length answer.old planes.old (samples_after (finish_reading (handed file.now (settings ignore edition2) comps.now count samples.now records.old planes.old) reading.now) planes.old) }
    ensures told_right { ReadingOf file.now reading.now → ToldRight (handed file.now (settings ignore edition2) comps.now count samples.now records.old planes.old) answer.old answer.new records.new planes.old planes.new }
{
    if answer.len() < ANSWER_LENGTH {
        return TOO_SHORT;
    }
    let s = Settings { ignore, edition2 };
    let r = readings::finish_reading(file, reading, s, comps, count, samples, records, planes);
    answers::give(r, answer)
}

// Writes all boxes before a codestream of the given length and the header of its box, and gives the 4 numbers of the answer. Where answer has no room for them nothing is done.
pub fn cuzhantir_write(
    comps: &[u32],
    count: u32,
    x0: u32,
    y0: u32,
    x1: u32,
    y1: u32,
    space: u32,
    profile: &[u8],
    codestream: u64,
    d: &mut [u8],
    answer: &mut [u64],
) -> u32
    ensures value { result ≡ room answer_length answer.old 30 (returned (of_told (written.answered (write (request comps.now count x0 y0 x1 y1 space profile.now codestream (length d.old)))))) }
    ensures answer_after { answer.new ≡ room answer_length answer.old answer.old (placed answer.old 0 (of_told (written.answered (write (request comps.now count x0 y0 x1 y1 space profile.now codestream (length d.old)))))) }
    ensures d_after { d.new ≡ room answer_length answer.old d.old (destination d.old (write (request comps.now count x0 y0 x1 y1 space profile.now codestream (length d.old)))) }
{
    if answer.len() < ANSWER_LENGTH {
        return TOO_SHORT;
    }
    let r = Request {
        comps,
        count,
        area: Area { x0, y0, x1, y1 },
        space,
        profile,
        codestream,
    };
    let r = write_boxes::write_boxes(&r, d);
    answers::give(r, answer)
}
