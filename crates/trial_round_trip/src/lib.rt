// Writing and reading back in one step.
#![tactic(auto)]

ghost use Rattle.std.specs.Prelude.{◌≡◌, length};
ghost use Rattle.box_refusal.specs.Told.{told};
ghost use Rattle.read_rules.specs.File.{walked};
ghost use Rattle.write_rules.specs.Writing.{write, destination};
ghost use Rattle.write_rules.specs.Request.{asked};
ghost use Rattle.write_boxes.specs.Answers.{answered};
ghost use Rattle.trial_round_trip.specs.Back.{reading_of, ComesBack};

use box_refusal::Refusal;
use read_rules::Reading;
use write_rules::Request;

// What writing answered, and the reading of the bytes that were written: of none after a refusal.
#[derive(Clone, Copy)]
pub struct Back {
    pub written: Result<u32, Refusal<u64>>,
    pub reading: Result<Reading, Refusal<u32>>,
}

// Writes all boxes before a codestream, as write_boxes does, and reads them back. The last clause is the round trip: the codestream is found where writing says, and every field that was
// put in the file is read back the same.
pub fn write_and_read(r: &Request<'_>, d: &mut [u8]) -> Back
    ensures written_value { told result.written ≡ answered (write (asked r.now (length d.old))) }
    ensures d_after { d.new ≡ destination d.old (write (asked r.now (length d.old))) }
    ensures reading_value { walked result.reading ≡ reading_of (told result.written) d.new }
    ensures comes_back { ComesBack (asked r.now (length d.old)) (told result.written) d.new (walked result.reading) }
{
    let written = write_boxes::write_boxes(r, d);
    let n = written.unwrap_or(0) as usize;
    let reading = read_file::read_file(box_number::part(d, 0, n));
    Back { written, reading }
}
