// The values of settings and descriptions (document 01, "Settings"): a switch, a next-hop record, a strip flag or an edition.
ghost use Rattle.std.specs.Prelude.{◌≡◌};
ghost use Rattle.rules.specs.Fields as F;
ghost use Rattle.rules.specs.Settings as S;
ghost use Rattle.rules.specs.Answer.{code_by};
ghost use Rattle.octets.specs.Flags.{flag_tag, flag_value, flag_by};
ghost use Rattle.octets.specs.Records.{record_of, hop_by};

use rules::{NextHop, Refusal};

// 0x0001 to 0xFFBF.
fn nickname_valid(n: u16) -> bool
    ensures { result ≡ S.nickname_valid n }
{
    1 <= n && n <= rules::NICKNAME_MOST
}

// Individual and not all zero.
fn mac_good(mac: u64) -> bool
    ensures { result ≡ S.mac_good mac }
{
    (mac >> 40) % 2 == 0 && mac != 0
}

// Its eight octets in one read: the nickname and the MAC.
#[tactic(auto, using(crate::proofs::Macs::switch_good_laws), unfolding(rules::specs::Settings::switch_good))]
fn switch_good(v: &[u8]) -> bool
    ensures { result ≡ S.switch_good (S.switch_of v.now) }
{
    let n = crate::be64(v, 0);
    nickname_valid((n >> 48) as u16) && mac_good(n % 281474976710656)
}

// Whether a field may be the first of settings: a switch.
#[tactic(auto, unfolding(rules::specs::Settings::opens, rules::specs::Fields::length_good))]
pub fn opens(tag: u8, v: &[u8]) -> bool
    ensures { result ≡ S.opens (F.field tag v.now) }
{
    tag == 1 && v.len() == 8 && switch_good(v)
}

// Whether a record may have this length: T-01, with a VLAN or without.
pub fn hop_size(size: usize) -> bool
    ensures { result ≡ F.hop_size size }
{
    size == 14 || size == 16
}

// A next-hop record in two reads and the VLAN, 0 where there is none. In `head` the destination, the neighbour and the first four octets of the
// MAC; in `tail` the last four and the serial.
#[derive(Clone, Copy)]
pub struct Record {
    pub head: u64,
    pub tail: u64,
    pub vlan: u16,
}

pub fn record_of(v: &[u8]) -> Record
    ensures { result ≡ record_of v.now }
{
    Record {
        head: crate::be64(v, 0),
        tail: crate::be64(v, 6),
        vlan: crate::be16(v, 14),
    }
}

pub fn hop_of(r: Record) -> NextHop
    ensures { result ≡ hop_by r }
{
    NextHop {
        destination: (r.head >> 48) as u16,
        neighbour: ((r.head >> 32) % 65536) as u16,
        mac: r.head % 4294967296 * 65536 + (r.tail >> 32) % 65536,
        serial: (r.tail % 4294967296) as u32,
        vlan: r.vlan,
    }
}

// A neighbour is a valid nickname, or 0 for a withdrawal; a VLAN is 1 to 4,094, or 0 for none. The MAC is tested where it stands: its first four
// octets decide for nearly all that it is not zero.
#[tactic(auto, using(crate::proofs::Hops::chain))]
pub fn record_good(r: Record) -> bool
    ensures { result ≡ S.hop_good (hop_by r) }
{
    nickname_valid((r.head >> 48) as u16)
        && (r.head >> 24) % 2 == 0
        && ((r.head >> 32) % 65536) as u16 <= rules::NICKNAME_MOST
        && r.vlan <= 4094
        && (r.head % 4294967296 != 0 || (r.tail >> 32) % 65536 != 0)
}

// A strip flag or an edition.
#[tactic(auto, unfolding(crate::specs::Flags::flag_tag))]
fn flag_tag(tag: u8) -> bool
    ensures { result ≡ flag_tag tag }
{
    tag == 3 || tag == 6
}

#[tactic(auto, unfolding(crate::specs::Flags::flag_value))]
fn flag_value(tag: u8, v: &[u8]) -> bool
    ensures { result ≡ flag_value tag v.now }
{
    let o = crate::octet(v, 0);
    if tag == 3 { o <= 1 } else { o == 1 || o == 2 }
}

// A strip flag or an edition, or what refuses it: 43 another tag, 42 its length, 44 its value.
pub fn check_flag(tag: u8, v: &[u8]) -> Result<(), Refusal>
    ensures { code_by result ≡ flag_by tag v.now }
{
    if !flag_tag(tag) {
        return Err(Refusal::OutOfPlace);
    }
    if v.len() != 1 {
        return Err(Refusal::BadLength);
    }
    if !flag_value(tag, v) {
        return Err(Refusal::BadValue);
    }
    Ok(())
}
