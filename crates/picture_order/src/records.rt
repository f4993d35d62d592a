// A list of records: what a reorder does to it, whether its elements are numbers, thirteen a record, or whole records.
ghost use Rattle.std.specs.Prelude.{◌≡◌, ℕ, ◌+◌, ◌*◌, ◌≤◌, ◌<◌, List, length, set};
ghost use Rattle.picture_order.specs.Private.Steps.{Exchanged};

use read_record::{ALPHA, COMPONENT_NUMBERS};

// An element of a list of records. `numbers` is the numbers of the list's records, one after the other.
pub(crate) trait Element: Copy {
    ghost numbers: { List Self → List ℕ };

    // How many whole records the list has.
    fn count(list: &[Self]) -> usize
        ensures { (13 * result ≤ length (numbers list.now)) × (length (numbers list.now) < 13 * result + 13) };

    // Exchanges the records p and q.
    fn exchange(list: &mut [Self], p: usize, q: usize)
        requires p_bound { 13 * p + 13 ≤ length (numbers list.old) }
        requires q_bound { 13 * q + 13 ≤ length (numbers list.old) }
        ensures exchanged { Exchanged p q (numbers list.old) (numbers list.new) }
        ensures size { length (numbers list.new) ≡ length (numbers list.old) };

    // Stores the mark t in the record p.
    fn mark(list: &mut [Self], p: usize, t: u16)
        requires { 13 * p + 13 ≤ length (numbers list.old) }
        ensures { numbers list.new ≡ set (numbers list.old) (13 * p + 12) t };
}

impl Element for u32 {
    ghost numbers = { λ l. l };

    fn count(list: &[u32]) -> usize {
        list.len() / COMPONENT_NUMBERS
    }

    // Inlined, the compiler sees that p and q differ, and moves four numbers at a time. `list.swap` asks for each number which index is lower, and takes nearly twice as long.
    #[inline(always)]
    fn exchange(list: &mut [u32], p: usize, q: usize) {
        if p == q {
            return;
        }
        let a = COMPONENT_NUMBERS * p;
        let b = COMPONENT_NUMBERS * q;
        for k in 0..COMPONENT_NUMBERS {
            let x = list[a + k];
            list[a + k] = list[b + k];
            list[b + k] = x;
        }
    }

    fn mark(list: &mut [u32], p: usize, t: u16) {
        list[COMPONENT_NUMBERS * p + ALPHA as usize] = u32::from(t);
    }
}
