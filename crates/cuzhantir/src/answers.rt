// The four numbers of an answer of finishing or writing.
ghost use Rattle.std.specs.Prelude.{◌≡◌, ◌≤◌, length};
ghost use Rattle.box_number.specs.Number.{placed};
ghost use Rattle.box_refusal.specs.Told.{told};
ghost use Rattle.export_rules.specs.Places.{answer_length};
ghost use Rattle.export_rules.specs.Answers.{of_told, returned};

use box_refusal::Refusal;

// How many numbers an answer has.
pub const ANSWER_LENGTH: usize = 4;

// The kinds of an answer: numbers, as C has them.
const DONE: u64 = 0;

const REFUSED: u64 = 1;

// Gives the four numbers, and answers document 01's.
pub fn give(r: Result<u32, Refusal<u64>>, answer: &mut [u64]) -> u32
    requires { answer_length ≤ length answer.old }
    ensures value { result ≡ returned (of_told (told r)) }
    ensures answer_after { answer.new ≡ placed answer.old 0 (of_told (told r)) }
{
    match r {
        Ok(n) => {
            answer[..ANSWER_LENGTH].copy_from_slice(&[DONE, 0, 0, u64::from(n)]);
            0
        }
        Err(e) => {
            let number = e.cause.number();
            answer[..ANSWER_LENGTH].copy_from_slice(&[REFUSED, u64::from(number), e.place, 0]);
            number
        }
    }
}
