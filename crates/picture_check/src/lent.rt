// A picture as it is lent, and what its components say.
ghost use Rattle.std.specs.Prelude.{◌≡◌};
ghost use Rattle.picture_rules.specs.Image.{component, size};

use std::marker::Model;

// The numbers of the components, thirteen each in one list, how many components there are, and the list that has the samples of all of them.
// `count` is what the caller says, and stays beside the list: whether the list has as many is a rule (29).
#[derive(Drop)]
pub struct Lent<'a> {
    pub comps: &'a [u32],
    pub count: u32,
    pub samples: &'a [i32],
}

impl<'a> Model for Lent<'a> {
    ghost use Rattle.picture_rules.specs.Image.{Image, image};

    ghost Value = { Image };

    ghost view = { λ l. image l.comps.now l.count l.samples.now };
}

impl Lent<'_> {
    // Number k of component c, by its name in read_record; 0 past the end of the list.
    pub fn component(&self, c: u32, k: u32) -> u32
        ensures { result ≡ component self.now c k }
    {
        read_record::component(self.comps, c, k)
    }

    // How many samples component c has.
    #[tactic(auto, unfolding(picture_rules::specs::Image::size, box_number::specs::Table::table))]
    pub fn size(&self, c: u32) -> u64
        ensures { result ≡ size self.now c }
    {
        if self.component(c, read_record::DATA) == read_record::NO_DATA {
            return 0;
        }
        u64::from(self.component(c, read_record::H)) * u64::from(self.component(c, read_record::W))
    }
}
