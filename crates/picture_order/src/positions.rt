// The positions of the channels: `positions[c]` is the position of channel c, and `channels[p]` the channel at position p. The crate renames every later definition at each swap. With these two lists a run takes as many steps as there are definitions and channels.
ghost use Rattle.std.specs.Prelude.{ℕ, ◌≤◌, ◌<◌, ◌≡◌, get_or, set};
ghost use Rattle.std.proofs.Props.{props};
ghost use Rattle.picture_rules.specs.Edition.{marked_position};
ghost use Rattle.picture_order.specs.Private.Positions.{Positioned};

// Asoc of a channel that belongs to no colour, among the channels' indices.
const UNASSOCIATED: usize = read_channels::UNASSOCIATED as usize;

// A definition: its channel (Cn), its type (Typ) and its association (Asoc).
#[derive(Clone, Copy)]
pub(crate) struct Definition {
    pub channel: usize,
    pub typ: u16,
    pub asoc: usize,
}

// What a definition asks of the records: i and j change places, and then i takes the mark.
#[derive(Clone, Copy)]
pub(crate) struct Ask {
    pub i: usize,
    pub j: usize,
    pub mark: u16,
}

// n channels, each at a position of its own, in two lists of N places. n stands beside lists of a fixed length, since the core has no heap.
#[derive(Drop)]
pub(crate) struct Positions<const N: usize> {
    pub n: usize,
    pub positions: [u16; N],
    pub channels: [u16; N],
    ghost positioned: { Positioned n positions channels } by { Prim.hlevel props },
}

// A colour definition moves its channel's record from position p to position q: the position whose record then takes the mark. The edition is a number here too, as in `Definitions`. In edition 1 it is the old one, in edition 2 that of the channel's own record.
fn marked_position(edition2: u32, p: usize, q: usize) -> usize
    ensures { result ≡ marked_position edition2 p q }
{
    if edition2 == 0 { p } else { q }
}

impl<const N: usize> Positions<N> {
    ghost use Rattle.picture_order.specs.Private.Steps.{Decided, def_of};

    // No channels.
    pub fn empty() -> Self
        requires { N ≤ 16384 }
        ensures { result.n ≡ 0 }
    {
        Positions {
            n: 0,
            positions: [0; N],
            channels: [0; N],
        }
    }

    // Puts each of n channels at the position of its own number.
    pub fn start(&mut self, n: usize)
        requires none { self.old.n ≡ 0 }
        requires places { N ≤ 16384 }
        requires room { n ≤ N }
        ensures count { self.new.n ≡ n }
        ensures positions { (c : ℕ) → c < n → get_or self.new.positions c 0 ≡ c }
    {
        for c in 0..n {
            self.positions[c] = c as u16;
            self.channels[c] = c as u16;
        }
        self.n = n;
    }

    // Exchanges the positions of channel c, at position p, and of the channel at position q. `swap` of the two lists reads what is known here, and takes 7 % more instructions where each definition moves a channel.
    fn swap(&mut self, c: usize, p: usize, q: usize)
        requires c_bound { c < self.old.n }
        requires p_is { get_or self.old.positions c 0 ≡ p }
        requires q_bound { q < self.old.n }
        ensures count { self.new.n ≡ self.old.n }
        ensures positions { self.new.positions ≡ set (set self.old.positions c q) (get_or self.old.channels q 0) p }
    {
        let e = self.channels[q];
        self.positions[c] = q as u16;
        self.positions[e as usize] = p as u16;
        self.channels[q] = c as u16;
        self.channels[p] = e;
    }

    // Applies a definition to the positions, and answers what it asks of the records: nothing where it is passed over.
    pub fn decide(&mut self, edition2: u32, d: Definition) -> Option<Ask>
        ensures count { self.new.n ≡ self.old.n }
        ensures decided { Decided self.old.n edition2 (def_of d) self.old.positions result self.new.positions }
    {
        if self.n <= d.channel {
            return None;
        }
        let p = self.positions[d.channel] as usize;
        let only_marked = Ask {
            i: p,
            j: p,
            mark: d.typ,
        };
        if d.asoc == 0 || d.asoc == UNASSOCIATED {
            return Some(only_marked);
        }
        if self.n < d.asoc {
            return None;
        }
        if d.typ != 0 {
            return Some(only_marked);
        }
        let q = d.asoc - 1;
        self.swap(d.channel, p, q);
        Some(Ask {
            i: marked_position(edition2, p, q),
            j: marked_position(edition2, q, p),
            mark: 0,
        })
    }
}
