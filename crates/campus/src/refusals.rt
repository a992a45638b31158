// The tests of one field of a description, 42 to 48 in their order; a field that passes is taken into the store of its switch.
ghost use Rattle.std.specs.Prelude.{◌≡◌, true, ◌<◌, ◌≤◌, length, take, Option};
ghost use Rattle.rules.specs.Octets as O;
ghost use Rattle.rules.specs.Fields as F;
ghost use Rattle.rules.specs.Answer.{code_by};
ghost use Rattle.campus.specs.Stores.{known_in, end_of, Started, HasRoom, OfSettings, Takes};
ghost use Rattle.campus.specs.Places.{order_by};

use crate::switches;
use crate::switches::Switches;
use rules::Refusal;

#[tactic(auto, unfolding(rules::specs::Fields::length_good))]
pub fn length_good(tag: u8, size: usize) -> bool
    ensures { result ≡ F.length_good tag size }
{
    match tag {
        1 => size == 8,
        2 => octets::hop_size(size),
        3 | 6 => size == 1,
        4 => size == 6,
        5 => 2 <= size && size <= 2050,
        _ => false,
    }
}

#[tactic(auto, unfolding(crate::specs::Places::order_by))]
fn order_good(n: usize, clock: Option<usize>, tag: u8) -> bool
    ensures { result ≡ order_by n clock tag }
{
    match tag {
        2 | 3 | 6 => n != 0,
        4 => clock.is_none(),
        _ => true,
    }
}

// A description as far as it is read: the stores of its switches, one behind the other in a row of words, where each starts, how many they are, and the
// place of the clock, if there is one.
#[derive(Drop)]
pub struct Draft<'a> {
    pub words: &'a mut [u64],
    pub starts: [usize; 16],
    pub count: usize,
    pub clock: Option<usize>,
}

impl Draft<'_> {
    // The switches so far.
    pub fn switches(&self) -> Switches<'_>
        requires { self.now.count ≤ 16 }
        ensures words { result.words.now ≡ self.now.words.now }
        ensures starts { result.starts.now ≡ take self.now.count self.now.starts }
    {
        Switches {
            words: self.words,
            starts: &self.starts[..self.count],
        }
    }

    // Whether one of the switches has the nickname at the start of `v`.
    fn nickname_known(&self, v: &[u8]) -> bool
        requires { Started self.now.words.now self.now.starts self.now.count }
        ensures { result ≡ known_in self.now.words.now self.now.starts self.now.count (O.be16 v.now 0) }
    {
        self.switches().find(octets::be16(v, 0)).is_some()
    }

    // Where the store of the latest switch ends.
    fn end(&self) -> usize
        requires { HasRoom self.now }
        ensures { result ≡ end_of self.now.words.now self.now.starts self.now.count }
    {
        if self.count == 0 {
            return 0;
        }
        let last = self.starts[self.count - 1];
        last + 4 + 2 * self.words[last + 3] as usize
    }

    // Tag 1. The words behind the last store are free, so that a switch refused for its nickname may stand there.
    fn open(&mut self, v: &[u8]) -> Result<(), Refusal>
        requires { HasRoom self.old × (F.length_good 1 (length v.now) ≡ true) }
        ensures { Takes self.old 1 v.now (code_by result) self.new }
    {
        let known = self.nickname_known(v);
        let end = self.end();
        if !switches::open(self.words, end, v) {
            return Err(Refusal::BadValue);
        }
        if known {
            return Err(Refusal::NicknameMet);
        }
        if self.count == 16 {
            return Err(Refusal::TooMany);
        }
        self.starts[self.count] = end;
        Ok(())
    }

    // Tags 2, 3 and 6, of the latest switch.
    fn extend(&mut self, tag: u8, v: &[u8]) -> Result<(), Refusal>
        requires { HasRoom self.old × (0 < self.old.count) × OfSettings tag (length v.now) }
        ensures { Takes self.old tag v.now (code_by result) self.new }
    {
        let at = self.starts[self.count - 1];
        switches::extend(self.words, at, tag, v)
    }

    // 42 to 48, if it is refused.
    pub fn take(&mut self, tag: u8, v: &[u8]) -> Result<(), Refusal>
        requires { HasRoom self.old }
        ensures { Takes self.old tag v.now (code_by result) self.new }
    {
        if !length_good(tag, v.len()) {
            return Err(Refusal::BadLength);
        }
        if !order_good(self.count, self.clock, tag) {
            return Err(Refusal::OutOfPlace);
        }
        match tag {
            1 => self.open(v),
            4 => Ok(()),
            5 => {
                if self.nickname_known(v) {
                    Ok(())
                } else {
                    Err(Refusal::EntryUnknown)
                }
            }
            _ => self.extend(tag, v),
        }
    }
}
