// Input that is read into a lent list.
ghost use Rattle.std.specs.Prelude.{◌≡◌, ◌≤◌, length, take, All};
ghost use Rattle.std.specs.Io.KnownBytes.{Consumes};

use std::io::Read;

// Reads until d is full, the input ends or a read fails. Answers how many bytes were read; they are the first of d. Where it is known what the input
// has left (`remaining` of std's `Read`), these are the next bytes of it.
// The loop stands here, since `read_exact` loses the count where the input ends early, and `read_to_end` allocates.
pub fn read_full<I: Read>(input: &mut I, d: &mut [u8]) -> usize
    ensures within { result ≤ length d.new }
    ensures bytes { Consumes (I.remaining input.old) (I.remaining input.new) (take result d.new) }
{
    let mut n = 0;
    while n < d.len()
        && let Ok(got @ 1..) = input.read(&mut d[n..])
    {
        n += got;
    }
    n
}

// A list of N elements that are all the same, into which input is read. It is made here, under a contract that counts its elements, since a check
// that sees a long list being made in its reader writes the list out. Inlined: a call has the list on the stack a second time, and the 5 MiB of `jp2info` have room there once.
#[inline(always)]
pub fn room<T: Copy, const N: usize>(element: T) -> [T; N]
    ensures long { length result ≡ N }
    ensures same { All (λ x. x ≡ element) result }
{
    [element; N]
}
