// A prepared store: the settings of one switch in words. 0 own nickname; 1 own MAC above the TRILL Ethertype; 2 strip flag, and above it the
// edition less 1; 3 number of records;
// from 4 on the records, two words each, in order of destination and serial; from 132 on 256 hints, eight to a word.
ghost use Rattle.std.specs.Prelude.{⊤, ◌≡◌, ◌+◌, ◌*◌, ◌/◌, ◌%◌, ◌^◌, ◌≤◌, ◌<◌, length};
ghost use Rattle.stores.specs.Store.{dest_of, dest_at, hop_of, stepped, searched, last_at, hint_at, count_in, index_in, hop_for, ways_in, store_good, Whole};

use crate::switch::Switch;
use crate::way::{Lookup, Own};
use rules::NextHop;

// Words of any kind: a valid nickname, and no more records than 64 and than there are words for.
#[tactic(auto, unfolding(stores::specs::Store::store_good))]
pub fn good(w: &[u64]) -> bool
    ensures { result ≡ store_good w.now }
{
    4 <= w.len()
        && 1 <= w[0]
        && w[0] <= u64::from(rules::NICKNAME_MOST)
        && w[3] <= 64
        && 4 + 2 * w[3] as usize <= w.len()
}

fn dest_of(first: u64) -> u16
    ensures { result ≡ dest_of first }
{
    (first >> 48) as u16
}

fn dest_at(w: &[u64], i: usize) -> u16
    requires { 4 + 2 * i < length w.now }
    ensures { result ≡ dest_at w.now i }
{
    dest_of(w[4 + 2 * i])
}

#[tactic(auto, unfolding(stores::specs::Store::stepped, stores::specs::Store::up_to, stores::specs::Halving::halved))]
fn step(w: &[u64], n: usize, d: u16, at: usize, half: usize) -> usize
    requires { (at + half ≤ 64) × (4 + 2 * n ≤ length w.now) }
    ensures { (result ≡ stepped w.now n d at half) × (result ≤ at + half) }
{
    if at + half < n && dest_at(w, at + half) <= d {
        at + half
    } else {
        at
    }
}

fn search(w: &[u64], n: usize, d: u16) -> usize
    requires { 4 + 2 * n ≤ length w.now }
    ensures { result ≡ searched w.now n d }
{
    let a = step(w, n, d, 0, 32);
    let b = step(w, n, d, a, 16);
    let c = step(w, n, d, b, 8);
    let e = step(w, n, d, c, 4);
    let f = step(w, n, d, e, 2);
    step(w, n, d, f, 1)
}

#[tactic(auto, unfolding(stores::specs::Store::last_at))]
fn last_at(w: &[u64], n: usize, d: u16, i: usize) -> bool
    requires { (i < 64) × (4 + 2 * n ≤ length w.now) }
    ensures { result ≡ last_at w.now n d i }
{
    i < n && dest_at(w, i) == d && (n <= i + 1 || dest_at(w, i + 1) != d)
}

fn hint_in(word: u64, shift: u32) -> usize
    requires { shift < 64 }
    ensures { (result ≡ word / 2 ^ shift % 64) × (result < 64) }
{
    ((word >> shift) % 64) as usize
}

#[tactic(auto, unfolding(stores::specs::Store::hint_at))]
fn hint_at(w: &[u64], d: u16) -> usize
    ensures { (result ≡ hint_at w.now d) × (result < 64) }
{
    if w.len() < 164 {
        return 0;
    }
    hint_in(w[132 + usize::from(d % 256 / 8)], u32::from(d % 8 * 8))
}

// Where the record that rules for `d` is, if there is one. A hint only spares the search.
#[tactic(auto, using(crate::proofs::StoreLaws::index_in_laws))]
fn index_in(w: &[u64], d: u16) -> usize
    requires { Whole w.now }
    ensures { result ≡ index_in w.now (count_in w.now) d }
{
    let n = w[3] as usize;
    let i = hint_at(w, d);
    if last_at(w, n, d, i) {
        i
    } else {
        search(w, n, d)
    }
}

fn hop_of(first: u64, second: u64) -> NextHop
    ensures { result ≡ hop_of first second }
{
    NextHop {
        destination: dest_of(first),
        neighbour: (second % 65536) as u16,
        mac: second >> 16,
        serial: ((first >> 16) % 4294967296) as u32,
        vlan: (first % 65536) as u16,
    }
}

#[tactic(auto, unfolding(stores::specs::Store::hop_for, stores::specs::Store::hop_at))]
fn hop_for(w: &[u64], n: usize, d: u16, i: usize) -> Option<NextHop>
    requires { 4 + 2 * n ≤ length w.now }
    ensures { result ≡ hop_for w.now n d i }
{
    if n <= i || dest_at(w, i) != d {
        return None;
    }
    let r = hop_of(w[4 + 2 * i], w[5 + 2 * i]);
    if r.neighbour == 0 { None } else { Some(r) }
}

// A good store.
#[derive(Clone, Copy)]
pub struct Prepared<'a> {
    pub words: &'a [u64],
    ghost whole: { Whole words.now },
}

impl Switch for Prepared<'_> {
    ghost says = { λ s. ways_in s.words.now };

    ghost finds = { λ s d. ⊤ };

    #[inline(always)]
    fn own(self) -> Own {
        Own {
            nickname: self.words[0] as u16,
            word: self.words[1],
        }
    }

    #[inline(always)]
    fn strip(self) -> bool {
        self.words[2] % 2 == 1
    }

    #[inline(always)]
    fn rfc7179(self) -> bool {
        self.words[2] / 2 % 2 == 1
    }

    #[inline(always)]
    fn lookup(self, d: u16) -> Lookup {
        let index = index_in(self.words, d);
        Lookup {
            own: self.own(),
            strip: self.strip(),
            rfc7179: self.rfc7179(),
            hop: hop_for(self.words, self.words[3] as usize, d, index),
        }
    }

    #[inline(always)]
    fn asking(self, d: u16) -> Self {
        self
    }
}
