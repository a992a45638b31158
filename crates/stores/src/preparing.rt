// Settings octets into a store: the fields checked and written in one pass, each record put in its order.
ghost use Rattle.std.specs.Prelude.{◌≡◌, is_some, not, ◌+◌, ◌-◌, ◌*◌, ◌/◌, ◌%◌, ◌≤◌, ◌<◌, length};
ghost use Rattle.rules.specs.Octets.{octet};
ghost use Rattle.rules.specs.Answer.{code_by};
ghost use Rattle.rules.specs.Settings as S;
ghost use Rattle.stores.specs.Store.{count_in, Roomy, Filled, Fills, Hinted};
ghost use Rattle.octets.specs.Records.{hop_by};
ghost use Rattle.stores.specs.Halving.{twice_halved};
ghost use Rattle.stores.specs.Insert.{first_word, second_word, below_at, index_for, met_at, met_in, put_in, inserted_in, Counted, RoomAt};
ghost use Rattle.stores.specs.Extend.{with_switch, count_by, met_by, added_to, flag_word, FlagIn, Extends};

use octets::Record;
use rules::{FieldRead, Refusal};

// The records among which a rank is looked up. They are counted by their words, two each, and the rank is the least word that has it: a read then
// waits for fewer instructions.
#[derive(Clone, Copy)]
struct Ranks<'a> {
    w: &'a [u64],
    end: usize,
    bound: u64,
    ghost counted: { Counted w.now end bound },
}

impl<'a> Ranks<'a> {
    // Whether there are so many words and the record that ends there is below the bound.
    #[tactic(auto, using(crate::proofs::WordLaws::below_is), unfolding(crate::specs::Insert::below_at))]
    fn below(&self, i: usize) -> bool
        requires { i % 2 ≡ 0 }
        ensures { result ≡ below_at self.now.w.now (self.now.end / 2) (self.now.bound / 65536) (i / 2) }
    {
        i <= self.end && self.w[2 + i] < self.bound
    }

    // Two steps at once: three records are read, and no read waits for another.
    fn steps(&self, at: usize, half: usize) -> usize
        requires { (at % 2 ≡ 0) × (half % 2 ≡ 0) × (at + 3 * half ≤ 128) }
        ensures { (result ≡ 2 * twice_halved (below_at self.now.w.now (self.now.end / 2) (self.now.bound / 65536)) (at / 2) (half / 2)) × (result ≤ at + 3 * half) }
    {
        let low = self.below(at + half);
        let middle = self.below(at + 2 * half);
        let high = self.below(at + 3 * half);
        if middle {
            if high { at + 3 * half } else { at + 2 * half }
        } else {
            if low { at + half } else { at }
        }
    }

    // The last record first: records in order take one comparison each.
    fn index(&self) -> usize
        ensures { result ≡ 2 * index_for self.now.w.now (self.now.bound / 65536) (self.now.end / 2) }
    {
        if self.below(self.end) {
            return self.end;
        }
        let a = self.steps(0, 32);
        let b = self.steps(a, 8);
        self.steps(b, 2)
    }
}

#[tactic(auto, unfolding(crate::specs::Insert::met_at))]
fn met(w: &[u64], end: usize, rank: u64, p: usize) -> bool
    requires { (4 + end ≤ length w.now) × (end % 2 ≡ 0) × (p % 2 ≡ 0) }
    ensures { result ≡ met_at w.now (end / 2) rank (p / 2) }
{
    p < end && w[4 + p] >> 16 == rank
}

// Whether the record could be put in: not where one of its destination has its serial.
fn insert(w: &mut [u64], n: usize, first: u64, second: u64) -> bool
    requires { (n ≤ 64) × (6 + 2 * n ≤ length w.old) }
    ensures { (result ≡ not (met_in w.old n (first / 65536))) × (w.new ≡ inserted_in w.old n first second) }
{
    let end = 2 * n;
    let bound = first >> 16 << 16;
    let p = Ranks { w, end, bound }.index();
    if met(w, end, first >> 16, p) {
        return false;
    }
    put_at(w, end, first, second, p);
    true
}

// Among the first records: those from there on move up.
fn put_at(w: &mut [u64], end: usize, first: u64, second: u64, p: usize)
    requires { RoomAt w.old end p }
    ensures { w.new ≡ put_in w.old (end / 2) first second (p / 2) }
{
    w.copy_within(4 + p..4 + end, 6 + p);
    w[4 + p] = first;
    w[5 + p] = second;
}

fn first_word(r: Record) -> u64
    ensures { result ≡ first_word (hop_by r) }
{
    (r.head >> 48 << 48) + r.tail % 4294967296 * 65536 + u64::from(r.vlan)
}

fn second_word(r: Record) -> u64
    ensures { result ≡ second_word (hop_by r) }
{
    (r.head << 32) + (r.tail >> 32) % 65536 * 65536 + (r.head >> 32) % 65536
}

// The number of records, if there is room for one more.
fn count(w: &[u64]) -> Option<usize>
    ensures { result ≡ count_by w.now }
{
    if w.len() < 4 {
        return None;
    }
    if 64 <= w[3] {
        return None;
    }
    let n = w[3] as usize;
    if w.len() < 6 + 2 * n {
        return None;
    }
    Some(n)
}

// The record put in and counted, unless its serial was met.
fn add(w: &mut [u64], n: usize, r: Record) -> bool
    requires { (n ≡ count_in w.old) × (n < 64) × (6 + 2 * n ≤ length w.old) }
    ensures { (result ≡ not (met_by w.old (hop_by r))) × (w.new ≡ added_to w.old (hop_by r)) }
{
    if !insert(w, n, first_word(r), second_word(r)) {
        return false;
    }
    w[3] = n as u64 + 1;
    true
}

// One more record.
fn admit(w: &mut [u64], v: &[u8]) -> Result<(), Refusal>
    ensures { Extends w.old 2 v.now (code_by result) w.new }
{
    if !octets::hop_size(v.len()) {
        return Err(Refusal::BadLength);
    }
    let r = octets::record_of(v);
    if !octets::record_good(r) {
        return Err(Refusal::BadValue);
    }
    let Some(n) = count(w) else {
        return Err(Refusal::TooMany);
    };
    if !add(w, n, r) {
        return Err(Refusal::SerialMet);
    }
    Ok(())
}

// The word of the flags with one set anew: the strip flag, or above it the edition less 1.
fn flag_word(x: u64, tag: u8, v: &[u8]) -> u64
    ensures { result ≡ flag_word x tag (octet v.now 0) }
{
    let o = octets::octet(v, 0);
    if tag == 3 {
        return x / 2 % 2 * 2 + u64::from(o);
    }
    if o == 2 {
        return 2 + x % 2;
    }
    x % 2
}

// A strip flag or an edition.
fn flag(w: &mut [u64], tag: u8, v: &[u8]) -> Result<(), Refusal>
    ensures { FlagIn w.old tag v.now (code_by result) w.new }
{
    octets::check_flag(tag, v)?;
    if w.len() < 4 {
        return Err(Refusal::TooMany);
    }
    w[2] = flag_word(w[2], tag, v);
    Ok(())
}

// One more field of settings.
pub fn extend(w: &mut [u64], tag: u8, v: &[u8]) -> Result<(), Refusal>
    ensures { Extends w.old tag v.now (code_by result) w.new }
{
    if tag == 2 {
        return admit(w, v);
    }
    flag(w, tag, v)
}

fn fill_from(s: &[u8], from: usize, w: &mut [u64]) -> Option<()>
    requires { (from ≤ length s.now) × Roomy w.old }
    ensures { Fills s.now from w.old (is_some result) w.new }
{
    let mut at = from;
    while at < s.len() {
        let FieldRead { tag, next, .. } = octets::field_at(s, at)?;
        if extend(w, tag, &s[at + 3..next]).is_err() {
            return None;
        }
        at = next;
    }
    Some(())
}

// The switch, with no record and no flag yet.
pub fn open(w: &mut [u64], v: &[u8])
    requires { 4 ≤ length w.old }
    ensures { w.new ≡ with_switch w.old v.now }
{
    let switch = octets::be64(v, 0);
    w[0] = switch >> 48;
    w[1] = (switch << 16) + u64::from(rules::ETHERTYPE_TRILL);
    w[2] = 0;
    w[3] = 0;
}

// A word with one of its eight hints set.
fn hinted(word: u64, shift: u32, hint: u64) -> u64
    requires { (shift < 64) × (hint < 64) }
{
    word & !(255 << shift) | hint << shift
}

// The hint of a destination is its last record.
fn hint_all(w: &mut [u64])
    requires { Roomy w.old }
    ensures { Hinted w.old w.new }
{
    for i in 0..w[3] {
        let d = w[4 + 2 * i as usize] >> 48;
        let k = 132 + (d % 256 / 8) as usize;
        w[k] = hinted(w[k], (d % 8 * 8) as u32, i);
    }
}

// The words stand for the settings, if these are good.
pub fn prepare(s: &[u8], w: &mut [u64]) -> Option<()>
    requires { length w.old ≡ 164 }
    ensures { Filled w.new (S.settings_of s.now) (is_some result) × (length w.new ≡ 164) }
{
    let FieldRead { tag, next, .. } = octets::field_at(s, 0)?;
    let v = &s[3..next];
    if !octets::opens(tag, v) {
        return None;
    }
    open(w, v);
    fill(s, next, w)
}

// The fields from a place on, and the hints.
fn fill(s: &[u8], from: usize, w: &mut [u64]) -> Option<()>
    requires { (from ≤ length s.now) × Roomy w.old }
    ensures { Fills s.now from w.old (is_some result) w.new }
{
    fill_from(s, from, w)?;
    hint_all(w);
    Some(())
}
