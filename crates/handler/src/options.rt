// The options area (source document 001): one option, and the walk over all, which puts aside what is sent of the area.
ghost use Rattle.std.specs.Prelude.{◌≡◌, true, false, ◌||◌, ◌&&◌, not, ◌+◌, ◌%◌, ◌<◌, ◌≤◌, length, if◌then◌else◌};
ghost use Rattle.rules.specs.Octets.{put};
ghost use Rattle.rules.specs.Options as O;
ghost use Rattle.handler.specs.Shapes.{AreaWords, CursorIn, WholeOption, cursor_by, read_by, area_read_of, summarized_by};
ghost use Rattle.handler.specs.Shapes.{AreaWalked, OptionsChecked, AreaKept, AllKept};

use crate::treatment;
use rules::Number;

const LENGTH_RESERVED: u8 = 119;

// How far an area is read: the next place, where what is kept ends, one more than the last key (0 before the first), and whether a critical
// option of each kind was met. Wide numbers, as narrow ones would be packed anew at each option.
#[derive(Clone, Copy)]
pub struct Cursor {
    pub at: usize,
    pub to: usize,
    pub floor: usize,
    pub hop: bool,
    pub egress: bool,
}

// The options begin behind the first word.
pub const START: Cursor = Cursor {
    at: 4,
    to: 4,
    floor: 0,
    hop: false,
    egress: false,
};

// What is wrong with an area, and the place of the option at fault, 0 for the whole.
#[derive(Clone, Copy)]
pub struct AreaFault {
    pub number: Number,
    pub place: usize,
}

fn key_of(w: u16) -> u16
    ensures { result ≡ O.key_of w }
{
    w >> 7
}

fn length_of(w: u16) -> u8
    ensures { result ≡ O.length_of w }
{
    (w & 127) as u8
}

// The two leading octets and the data, rounded up to four octets by one mask.
fn option_size(size: u8) -> usize
    requires { size < 128 }
    ensures { result ≡ O.option_size size }
{
    (usize::from(size) + 2 + 3) & 0xFC
}

// Where what is kept ends behind an option.
fn kept_end(to: usize, size: usize, stripped: bool) -> usize
    requires { to + size ≤ 124 }
    ensures { result ≡ (if stripped then to else to + size) }
{
    if stripped { to } else { to + size }
}

// The cursor behind an option without a fault.
fn behind(strip: bool, c: Cursor, key: u16, n: u8) -> Cursor
    requires { WholeOption c key n }
    ensures { result ≡ cursor_by strip c key n (c.at + O.option_size n) }
{
    let entry = treatment::entry_of(key);
    let size = option_size(n);
    let stripped = treatment::is_stripped(strip, entry, key, n);
    Cursor {
        at: c.at + size,
        to: kept_end(c.to, size, stripped),
        floor: usize::from(key) + 1,
        hop: c.hop || treatment::transit_discards(entry),
        egress: c.egress || treatment::egress_alone_discards(entry),
    }
}

// One option: the cursor behind it, or a fault. An option of a reserved Length is past any area, and a key that is not above the one before is
// below it or equal, so that one test finds 30 and 31, and one 32 and 33.
#[tactic(auto, using(crate::proofs::Walks::option_at_laws))]
fn option_at(area: &[u8], strip: bool, c: Cursor) -> Result<Cursor, AreaFault>
    requires { CursorIn area.now c × (c.at < length area.now) }
    ensures { result ≡ read_by strip c (O.option_at area.now c.floor c.at) }
{
    let at = c.at;
    let w = octets::be16(&area[at..at + 4], 0);
    let n = length_of(w);
    if area.len() - at < option_size(n) {
        let number = if LENGTH_RESERVED <= n {
            Number::ReservedLength
        } else {
            Number::OptionCut
        };
        return Err(AreaFault { number, place: at });
    }
    let key = key_of(w);
    let floor = usize::from(key) + 1;
    if floor <= c.floor {
        let number = if floor < c.floor {
            Number::KeyBelow
        } else {
            Number::KeyEqual
        };
        return Err(AreaFault { number, place: at });
    }
    Ok(behind(strip, c, key, n))
}

// All options, or the first fault; those that are not stripped are written behind the first word.
fn walk_area(area: &[u8], kept: &mut [u8; 124]) -> Result<Cursor, AreaFault>
    requires { AreaWords area.now × (4 < length area.now) × (length kept.old ≡ 124) }
    ensures { AreaWalked true area.now kept.old kept.new result }
{
    let mut c = START;
    while c.at < area.len() {
        let read = option_at(area, true, c);
        let Ok(next) = read else {
            return read;
        };
        let at = c.at;
        // Where it began, if it is stripped.
        let end = at + (next.to - c.to);
        put_words(kept, c.to, &area[at..end]);
        c = next;
    }
    Ok(c)
}

// All options, or the first fault, with nothing written.
fn check_options(area: &[u8]) -> Result<Cursor, AreaFault>
    requires { AreaWords area.now × (4 < length area.now) }
    ensures { OptionsChecked area.now result }
{
    let mut c = START;
    while c.at < area.len() {
        let read = option_at(area, false, c);
        let Ok(next) = read else {
            return read;
        };
        c = next;
    }
    Ok(c)
}

pub fn chbh(area: &[u8]) -> bool
    ensures { result ≡ O.chbh area.now }
{
    octets::octet(area, 0) >> 7 & 1 == 1
}

pub fn cite(area: &[u8]) -> bool
    ensures { result ≡ O.cite area.now }
{
    octets::octet(area, 0) >> 6 & 1 == 1
}

// 34 and 35, after all options.
fn summarized(area: &[u8], read: Result<Cursor, AreaFault>) -> Result<Cursor, AreaFault>
    ensures { result ≡ summarized_by area.now read }
{
    let end = read?;
    if end.hop && !chbh(area) {
        return Err(AreaFault {
            number: Number::ChbhMissing,
            place: 0,
        });
    }
    if end.egress && !cite(area) {
        return Err(AreaFault {
            number: Number::CiteMissing,
            place: 0,
        });
    }
    Ok(end)
}

// The whole area, or the first fault.
pub fn check_area(area: &[u8]) -> Result<Cursor, AreaFault>
    requires { AreaWords area.now }
    ensures { area_read_of result ≡ O.draft_read area.now }
{
    if area.len() <= 4 {
        return Ok(START);
    }
    summarized(area, check_options(area))
}

// The same, and what is sent of the area is put into `kept`: all of it, or what is not stripped.
pub fn read_area(area: &[u8], strip: bool, kept: &mut [u8; 124]) -> Result<Cursor, AreaFault>
    requires { AreaWords area.now }
    ensures { AreaKept strip area.now kept.old kept.new result }
{
    if !strip {
        return keep_checked(area, kept);
    }
    if area.len() <= 4 {
        return keep_all(area, kept);
    }
    put_word(kept, 0, &area[..4]);
    summarized(area, walk_area(area, kept))
}

// All of the area is sent, if it has no fault.
fn keep_checked(area: &[u8], kept: &mut [u8; 124]) -> Result<Cursor, AreaFault>
    requires { AreaWords area.now }
    ensures { AreaKept false area.now kept.old kept.new result }
{
    check_area(area)?;
    keep_all(area, kept)
}

// All of the area is sent.
pub fn keep_all(area: &[u8], kept: &mut [u8; 124]) -> Result<Cursor, AreaFault>
    requires { AreaWords area.now }
    ensures { AllKept area.now kept.old kept.new result }
{
    put_words(kept, 0, area);
    Ok(Cursor {
        to: area.len(),
        ..START
    })
}

// 20: "CHbH is 1, or CItE is 1 and we are the egress"
#[tactic(auto, unfolding(rules::specs::Options::draft_stops))]
pub fn area_stops(egress: bool, area: &[u8]) -> bool
    ensures { result ≡ O.draft_stops egress area.now }
{
    chbh(area) || (egress && cite(area))
}

// Four octets, read before one is written, as they then move in one.
fn put_word(out: &mut [u8], at: usize, s: &[u8])
    requires { (length s.now ≡ 4) × (at + 4 ≤ length out.old) }
    ensures { out.new ≡ put out.old at s.now }
{
    let word = [s[0], s[1], s[2], s[3]];
    octets::copy(out, at, &word);
}

// Writes whole words from `to` on.
fn put_words(out: &mut [u8], to: usize, s: &[u8])
    requires { (to + length s.now ≤ length out.old) × (length s.now % 4 ≡ 0) }
    ensures { out.new ≡ put out.old to s.now }
{
    let mut i = 0;
    while i < s.len() {
        put_word(out, to + i, &s[i..i + 4]);
        i += 4;
    }
}
