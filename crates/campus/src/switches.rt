// The switches of a description: a store for each, one behind the other in one row of words; what stands behind a store is read as its hints, which
// any words may be.
ghost use Rattle.std.specs.Prelude.{◌≡◌, ◌+◌, ◌≤◌, ◌<◌, length};
ghost use Rattle.rules.specs.Campus.{some_edition2};
ghost use Rattle.rules.specs.Answer.{code_by};
ghost use Rattle.campus.specs.Stores.{store_at, PartOpens, PartExtends};
ghost use Rattle.campus.specs.Switches.{number_of, all_of, switch_at, IsStarted, IsSound, IsSoundAt};

use rules::Refusal;

// The words, and where the store of each switch starts in them.
#[derive(Clone, Copy)]
pub struct Switches<'a> {
    pub words: &'a [u64],
    pub starts: &'a [usize],
}

impl Switches<'_> {
    // The latest that has this nickname.
    pub fn find(&self, nickname: u16) -> Option<usize>
        requires { IsStarted self.now }
        ensures { result ≡ number_of self.now nickname }
    {
        for i in (0..self.starts.len()).rev() {
            if self.words[self.starts[i]] == u64::from(nickname) {
                return Some(i);
            }
        }
        None
    }

    // Whether one has edition 2.
    pub fn has_edition_2(&self) -> bool
        requires { IsSound self.now }
        ensures { result ≡ some_edition2 (all_of self.now) }
    {
        for i in (0..self.starts.len()).rev() {
            if self.words[self.starts[i] + 2] / 2 % 2 == 1 {
                return true;
            }
        }
        false
    }

    // The store of one, and what stands behind it.
    pub fn store_of(&self, i: usize) -> &[u64]
        requires { IsSoundAt self.now i }
        ensures { result.now ≡ store_at self.now.words.now self.now.starts.now i }
    {
        &self.words[self.starts[i]..]
    }

    pub fn nickname_of(&self, i: usize) -> u16
        requires { IsSoundAt self.now i }
        ensures { result ≡ (switch_at self.now i).nickname }
    {
        self.words[self.starts[i]] as u16
    }
}

pub fn open(w: &mut [u64], at: usize, v: &[u8]) -> bool
    requires { at ≤ length w.old }
    ensures { PartOpens w.old at v.now result w.new }
{
    stores::store_open(&mut w[at..], v)
}

pub fn extend(w: &mut [u64], at: usize, tag: u8, v: &[u8]) -> Result<(), Refusal>
    requires { at ≤ length w.old }
    ensures { PartExtends w.old at tag v.now (code_by result) w.new }
{
    stores::store_extend(&mut w[at..], tag, v)
}
