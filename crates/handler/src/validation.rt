// Whether settings octets are good (document 01, "Settings"): one tag 1 field, then tag 2, 3 and 6 fields; anything else is bad.
ghost use Rattle.std.specs.Prelude.{◌≡◌, true, false, not, ◌<◌, ◌≤◌, length};
ghost use Rattle.rules.specs.Fields.{field};
ghost use Rattle.rules.specs.Settings.{hop_of};
ghost use Rattle.handler.specs.Ranks.{rank_of, mix_of, slot_by, mark_by, covers_by, rank_met, ranks_met, Kept, hop_taken, with_rank, Taking, Scanned};
ghost use Rattle.handler.specs.Ranks.{ValidatedBy};
ghost use Rattle.octets.specs.Flags.{flag_tag};
ghost use Rattle.octets.specs.Records.{hop_by};
ghost use Rattle.stores.specs.Store.{unless_withdrawn};
ghost use Rattle.handler.specs.Shapes.{flagged_by};

use crate::settings;
use octets::Record;
use rules::{FieldRead, NextHop};

// Destination above serial.
fn rank_of(r: Record) -> u64
    ensures { result ≡ rank_of (hop_by r) }
{
    (r.head >> 48 << 32) + r.tail % 4294967296
}

// The multipliers spread ranks whose destinations, serials or both go up by one.
fn mix(rank: u64) -> u64
    requires { rank < 281474976710656 }
    ensures { result ≡ mix_of rank }
{
    (rank >> 32) * 0x85EBCA6B + (rank & 0xFFFFFFFF) * 0x9E3779B1
}

// A slot for a rank among 256.
fn slot_of(mixed: u64) -> usize
    ensures { (result ≡ slot_by mixed) × (result < 256) }
{
    (mixed >> 24) as usize % 256
}

// What a rank leaves in its slot if it is the first there, 1 to 128.
fn mark_of(mixed: u64) -> u8
    ensures { result ≡ mark_by mixed }
{
    (mixed >> 16 & 127) as u8 + 1
}

// The rank of a record as it stands among the settings.
fn rank_at(v: &[u8]) -> u64
    ensures { result ≡ rank_of (hop_of v.now) }
{
    u64::from(octets::be16(v, 0)) * 4294967296 + u64::from(octets::be32(v, 10))
}

// Whether a rank is that of one of the first n records. Few are looked for, so that the ranks are read anew and not kept.
fn met(s: &[u8], from: usize, n: usize, rank: u64) -> bool
    ensures { result ≡ rank_met rank (ranks_met s.now from n) }
{
    let mut left = n;
    let mut at = from;
    while at < s.len() {
        if left == 0 {
            return false;
        }
        let Some(FieldRead { tag, next, .. }) = octets::field_at(s, at) else {
            return false;
        };
        if tag == 2 {
            if rank_at(&s[at + 3..next]) == rank {
                return true;
            }
            left -= 1;
        }
        at = next;
    }
    false
}

// Another rank's mark alone in the slot shows that no earlier record has this rank; only else is there a look at them all.
#[tactic(auto, using(crate::proofs::ValidationLaws::uncovered))]
fn fresh(s: &[u8], from: usize, n: usize, rank: u64, old: u8, mark: u8) -> bool
    requires { covers_by old mark ≡ false → rank_met rank (ranks_met s.now from n) ≡ false }
    ensures { result ≡ not (rank_met rank (ranks_met s.now from n)) }
{
    (old != mark && old != 255) || !met(s, from, n, rank)
}

// Whether a record of a size goes with the n before it; then its rank is marked. Most are the first in their slot.
fn admit(s: &[u8], from: usize, seen: &mut [u8], n: usize, size: usize, r: Record) -> bool
    requires { Kept (ranks_met s.now from n) seen.old }
    ensures { Taking (hop_taken (ranks_met s.now from n) n size (hop_by r)) (with_rank (ranks_met s.now from n) (hop_by r))
        result seen.new }
{
    if !octets::hop_size(size) || !octets::record_good(r) || 64 <= n {
        return false;
    }
    let rank = rank_of(r);
    let mixed = mix(rank);
    let slot = slot_of(mixed);
    let mark = mark_of(mixed);
    let old = seen[slot];
    if old == 0 {
        seen[slot] = mark;
        return true;
    }
    if !fresh(s, from, n, rank, old, mark) {
        return false;
    }
    seen[slot] = 255;
    true
}

// What the flags among the fields say.
#[derive(Clone, Copy)]
pub struct Flags {
    pub strip: bool,
    pub rfc7179: bool,
}

// The flags once one more is seen.
#[tactic(auto, unfolding(crate::specs::Shapes::flagged_by, octets::specs::Flags::flag_tag))]
fn flagged(flags: Flags, tag: u8, v: &[u8]) -> Flags
    requires { flag_tag tag ≡ true }
    ensures { result ≡ flagged_by flags (field tag v.now) }
{
    let o = octets::octet(v, 0);
    match tag {
        3 => Flags {
            strip: o != 0,
            ..flags
        },
        _ => Flags {
            rfc7179: o == 2,
            ..flags
        },
    }
}

// What one pass over good fields finds: the flags, and the record that rules for a destination.
#[derive(Clone, Copy)]
pub struct Scan {
    pub flags: Flags,
    pub best: Option<NextHop>,
}

const NO_FLAGS: Flags = Flags {
    strip: false,
    rfc7179: false,
};

fn scan_from(s: &[u8], from: usize, d: u16) -> Option<Scan>
    requires { from ≤ length s.now }
    ensures { Scanned s.now from d result }
{
    let mut seen = [0u8; 256];
    let mut n = 0;
    let mut best = None;
    let mut flags = NO_FLAGS;
    let mut at = from;
    while at < s.len() {
        let Some(FieldRead { tag, next, .. }) = octets::field_at(s, at) else {
            return None;
        };
        let v = &s[at + 3..next];
        if tag == 2 {
            let r = octets::record_of(v);
            if !admit(s, from, &mut seen, n, v.len(), r) {
                return None;
            }
            n += 1;
            best = settings::newer(d, best, r);
            at = next;
        } else {
            if octets::check_flag(tag, v).is_err() {
                return None;
            }
            flags = flagged(flags, tag, v);
            at = next;
        }
    }
    Some(Scan { flags, best })
}

// "if it is a withdrawal, there is no next hop"
#[tactic(auto, unfolding(stores::specs::Store::unless_withdrawn))]
fn unless_withdrawn(best: Option<NextHop>) -> Option<NextHop>
    ensures { result ≡ unless_withdrawn best }
{
    best.filter(|r| r.neighbour != 0)
}

// The flags of good settings, and their next hop for one destination. What we are ourselves is not handed through: it would be copied, and a
// processor waits for what was stored in one width and is read in another.
#[derive(Clone, Copy)]
pub struct Validated {
    pub strip: bool,
    pub rfc7179: bool,
    pub hop: Option<NextHop>,
}

// Nothing of bad settings.
pub fn validate(s: &[u8], d: u16) -> Option<Validated>
    ensures { ValidatedBy s.now d result }
{
    let Some(FieldRead { tag, next, .. }) = octets::field_at(s, 0) else {
        return None;
    };
    if !octets::opens(tag, &s[3..next]) {
        return None;
    }
    let scan = scan_from(s, next, d)?;
    Some(Validated {
        strip: scan.flags.strip,
        rfc7179: scan.flags.rfc7179,
        hop: unless_withdrawn(scan.best),
    })
}
