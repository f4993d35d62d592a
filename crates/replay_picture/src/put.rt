// The content of the lent lists: the listed numbers, and behind them a pattern that a finished picture hardly has.
ghost use Rattle.std.specs.Prelude.{◌≡◌, ℕ, [], length, map};
ghost use Rattle.std.specs.Int.{w32};
ghost use Rattle.std.specs.List.{range_with_len};
ghost use Rattle.std.proofs.Common.{to_z, of_z};
ghost use Rattle.replay_picture.specs.Private.Listed.{numbers_of, content_at};

use crate::list;

// An element of a lent list, by its 32 bits: a number, or a sample, of which one below 0 is listed as itself plus 4294967296.
pub(crate) trait Element: Copy {
    ghost of_bits: { ℕ → Self };

    ghost bits: { Self → ℕ };

    fn from_bits(n: u32) -> Self
        ensures { result ≡ of_bits n };

    fn to_bits(self) -> u32
        ensures { result ≡ bits self };
}

impl Element for u32 {
    ghost of_bits = { λ n. n };

    ghost bits = { λ n. n };

    fn from_bits(n: u32) -> u32 {
        n
    }

    fn to_bits(self) -> u32 {
        self
    }
}

impl Element for i32 {
    ghost of_bits = { to_z w32 };

    ghost bits = { of_z w32 };

    fn from_bits(n: u32) -> i32 {
        n.cast_signed()
    }

    fn to_bits(self) -> u32 {
        self.cast_unsigned()
    }
}

// The content at place i. No two neighbours in the pattern are the same.
pub(crate) fn expected(listed: &[u8], i: usize) -> u32
    ensures { result ≡ content_at listed.now i }
{
    if i < listed.len() / 4 {
        list::number(listed, i)
    } else {
        (i % 65536) as u32 + 0xa5a5_0000
    }
}

// The list begins with its length.
pub(crate) fn fill<T: Element>(listed: &[u8], d: &mut [T])
    ensures { d.new ≡ map (λ i. T.of_bits (content_at (numbers_of listed.now) i)) (range_with_len 0 (length d.old)) }
{
    let numbers = list::numbers(listed);
    for (i, e) in d.iter_mut().enumerate() {
        *e = T::from_bits(expected(numbers, i));
    }
}
