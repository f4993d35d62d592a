// What the test programs share: lines on standard output, and counts of the results.
#![tactic(auto)]

ghost use Rattle.std.specs.Prelude.{◌≡◌, length, slice_index};
ghost use Rattle.text.specs.Text.{filled};
ghost use Rattle.test_lines.specs.Lines.{printed, tallied};

// Prints a shape in which each # is replaced by the next of the numbers. Answers how many bytes that is: 4096 at most, the rest is left out.
// A shape and no format string: what it prints is promised.
pub fn say(rt: &impl Print, shape: &[u8], numbers: &[usize]) -> usize
    ensures { result ≡ printed (filled shape.now numbers.now) }
{
    let mut d = [0u8; 4096];
    let n = text::fill(&mut d, 0, shape, numbers);
    let _ = rt.write_all(box_number::part(&d, 0, n));
    n
}

// Prints how many bytes s has, and each of them. Answers how many, counted as they are printed: the length of the list says only how many there are.
pub fn bytes(rt: &impl Print, s: &[u8]) -> usize
    ensures { result ≡ length s.now }
{
    let shape: &[u8] = if s.len() == 1 { b"# byte" } else { b"# bytes" };
    say(rt, shape, &[s.len()]);
    let mut n = 0;
    for b in s {
        let _ = print!(rt; " {b:02x}");
        n += 1;
    }
    n
}

// Adds 1 to count k of a tally; a k past its end changes nothing.
// A write through `get_mut` leaves a slice's elements unknown to a proof, so the test and the index stay.
pub fn count(tally: &mut [usize], k: usize)
    ensures { tally.new ≡ tallied k tally.old }
{
    if k < tally.len() {
        tally[k] = tally[k].wrapping_add(1);
    }
}

// Number i, 0 past the last.
pub fn at(numbers: &[u64], i: usize) -> u64
    ensures { result ≡ slice_index numbers.now i }
{
    numbers.get(i).copied().unwrap_or(0)
}
