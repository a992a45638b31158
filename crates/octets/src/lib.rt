// Big-endian numbers in an octet string and out of one, copying into a lent buffer, and what settings, descriptions and frames are read
// from. Total: a place past the end reads 0, and what does not fit is not written.

#![tactic(auto)]

mod link;
mod values;

ghost use Rattle.std.specs.Prelude.{ℕ, ◌≡◌, ◌++◌, ◌*◌, ◌+◌, ◌/◌, ◌%◌, ◌<◌, ◌≤◌, length, get_or};
ghost use Rattle.rules.specs.Octets.{octet as octet_of, be16 as be16_of, be32 as be32_of, be48 as be48_of, octets16, octets48, put};
ghost use Rattle.rules.specs.Fields.{field_at};
ghost use Rattle.octets.specs.Copy.{Wrote, fitting};
ghost use Rattle.octets.specs.Words.{be64 as be64_of, octets64};

pub use link::read_frame;
use rules::FieldRead;
pub use values::{Record, check_flag, hop_of, hop_size, opens, record_good, record_of};

pub fn octet(s: &[u8], at: usize) -> u8
    ensures { result ≡ octet_of s.now at }
{
    s.get(at).copied().unwrap_or(0)
}

// The octets from a place on.
fn octets_at<const N: usize>(s: &[u8], at: usize) -> [u8; N]
    ensures { (i : ℕ) → i < N → get_or result i 0 ≡ octet_of s.now (at + i) }
{
    if s.len() <= at {
        return [0; N];
    }
    match s[at..].first_chunk() {
        Some(octets) => *octets,
        None => padded(&s[at..]),
    }
}

// The octets, and 0 behind them: read one by one, and seldom. A call to copy them would keep what is around a reading out of its registers.
#[cold]
fn padded<const N: usize>(s: &[u8]) -> [u8; N]
    ensures { (i : ℕ) → i < N → get_or result i 0 ≡ octet_of s.now i }
{
    let mut octets = [0; N];
    for i in 0..N {
        octets[i] = octet(s, i);
    }
    octets
}

// Two octets and four are read by tests that fold away where the length is known: by `octets_at` the walk over settings keeps its places in memory.
pub fn be16(s: &[u8], at: usize) -> u16
    ensures { result ≡ be16_of s.now at }
{
    if s.len() <= at {
        return 0;
    }
    if s.len() - at < 2 {
        return u16::from_be_bytes([s[at], 0]);
    }
    u16::from_be_bytes([s[at], s[at + 1]])
}

fn joined(high: u16, low: u16) -> u32
    ensures { result ≡ high * 65536 + low }
{
    u32::from(high) * 65536 + u32::from(low)
}

pub fn be32(s: &[u8], at: usize) -> u32
    ensures { result ≡ be32_of s.now at }
{
    if s.len() <= at {
        return 0;
    }
    // The common case, in which the tests below and in `be16` fold away.
    if 4 <= s.len() - at {
        return joined(be16(s, at), be16(s, at + 2));
    }
    if s.len() - at < 2 {
        return joined(be16(s, at), 0);
    }
    joined(be16(s, at), be16(s, at + 2))
}

// The upper six of eight octets.
pub fn be48(s: &[u8], at: usize) -> u64
    ensures { result ≡ be48_of s.now at }
{
    be64(s, at) >> 16
}

pub fn be64(s: &[u8], at: usize) -> u64
    ensures { result ≡ be64_of s.now at }
{
    u64::from_be_bytes(octets_at(s, at))
}

// The two octets of a number below 65,536.
pub fn two(n: u16) -> [u8; 2]
    ensures { result ≡ octets16 n }
{
    n.to_be_bytes()
}

// Each of them alone.
pub fn high(n: u16) -> u8
    ensures { result ≡ n / 256 % 256 }
{
    two(n)[0]
}

pub fn low(n: u16) -> u8
    ensures { result ≡ n % 256 }
{
    two(n)[1]
}

// The six octets of a number below 2^48.
pub fn six(n: u64) -> [u8; 6]
    ensures { result ≡ octets48 n }
{
    let [_, _, a, b, c, d, e, f] = n.to_be_bytes();
    [a, b, c, d, e, f]
}

// The eight octets of a number.
pub fn eight(word: u64) -> [u8; 8]
    ensures { result ≡ octets64 word }
{
    word.to_be_bytes()
}

// The eight octets of four numbers below 65,536.
pub fn four(a: u16, b: u16, c: u16, d: u16) -> [u8; 8]
    ensures { result ≡ octets16 a ++ octets16 b ++ octets16 c ++ octets16 d }
{
    let [a, b, c, d] = [a, b, c, d].map(u64::from);
    eight((a << 48) + (b << 32) + (c << 16) + d)
}

// Tag 2 and length 14: how a next-hop record without a VLAN begins.
const RECORD: u64 = 0x02000E;

// The field at a place (document 01, "Fields"): its tag and length with the next place, or none where it is cut short. A record is known by
// one test, so that the place behind it does not wait for its length to be read.
pub fn field_at(s: &[u8], at: usize) -> Option<FieldRead>
    ensures { result ≡ field_at s.now at }
{
    if s.len() < at {
        return None;
    }
    let left = s.len() - at;
    if left < 3 {
        return None;
    }
    if 17 <= left {
        if be64(s, at) >> 40 == RECORD {
            return Some(FieldRead {
                tag: 2,
                length: 14,
                next: at + 17,
            });
        }
    }
    let length = usize::from(be16(s, at + 1));
    if left - 3 < length {
        return None;
    }
    Some(FieldRead {
        tag: s[at],
        length: length,
        next: at + 3 + length,
    })
}

// Writes `s` into `out` from `at` on, if there is room for all of it; says where what was written ends.
pub fn copy(out: &mut [u8], at: usize, s: &[u8]) -> usize
    ensures { Wrote (fitting out.old at s.now) at result out.old out.new }
{
    if out.len() < at {
        return at;
    }
    if out.len() - at < s.len() {
        return at;
    }
    fill(out, at, s);
    at + s.len()
}

// By blocks where one fits: a loop over octets first tests whether the buffers overlap, which costs more than a short copy.
fn fill(out: &mut [u8], at: usize, s: &[u8])
    requires { at + length s.now ≤ length out.old }
    ensures { out.new ≡ put out.old at s.now }
{
    if s.len() < 16 {
        fill_octets(out, at, s);
        return;
    }
    if s.len() <= 64 {
        fill_blocks(out, at, s);
        return;
    }
    fill_long(out, at, s);
}

// By four blocks in a turn, the last four over the end of those before.
fn fill_long(out: &mut [u8], at: usize, s: &[u8])
    requires { (64 ≤ length s.now) × (at + length s.now ≤ length out.old) }
    ensures { out.new ≡ put out.old at s.now }
{
    let last = s.len() - 64;
    let mut done = 0;
    while done < last {
        fill_four(out, at + done, &s[done..done + 64]);
        done += 64;
    }
    fill_four(out, at + last, &s[last..]);
}

// Four blocks, one behind the other: read all at once they would be written last one first, which is slower.
fn fill_four(out: &mut [u8], at: usize, s: &[u8])
    requires { (length s.now ≡ 64) × (at + 64 ≤ length out.old) }
    ensures { out.new ≡ put out.old at s.now }
{
    fill_block(out, at, &s[..16]);
    fill_block(out, at + 16, &s[16..32]);
    fill_block(out, at + 32, &s[32..48]);
    fill_block(out, at + 48, &s[48..]);
}

fn fill_octets(out: &mut [u8], at: usize, s: &[u8])
    requires { at + length s.now ≤ length out.old }
    ensures { out.new ≡ put out.old at s.now }
{
    for i in 0..s.len() {
        out[at + i] = s[i];
    }
}

// Sixteen octets, read before one is written, as they then move in one.
fn fill_block(out: &mut [u8], at: usize, s: &[u8])
    requires { (length s.now ≡ 16) × (at + 16 ≤ length out.old) }
    ensures { out.new ≡ put out.old at s.now }
{
    let mut block = [0u8; 16];
    fill_octets(&mut block, 0, s);
    fill_octets(out, at, &block);
}

// The last block ends where `s` does, and may write some octets a second time.
fn fill_blocks(out: &mut [u8], at: usize, s: &[u8])
    requires { (16 ≤ length s.now) × (at + length s.now ≤ length out.old) }
    ensures { out.new ≡ put out.old at s.now }
{
    let last = s.len() - 16;
    let mut done = 0;
    while done < last {
        fill_block(out, at + done, &s[done..done + 16]);
        done += 16;
    }
    fill_block(out, at + last, &s[last..]);
}
