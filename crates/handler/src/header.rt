// The TRILL header (RFC 6325, 3), and the answers that it decides.
ghost use Rattle.std.specs.Prelude.{◌≡◌, ◌/◌, ◌<◌, ◌≤◌, eqb};
ghost use Rattle.rules.specs.Octets.{be48};
ghost use Rattle.rules.specs.Header as Rules;
ghost use Rattle.rules.specs.Header.{header_refusal};
ghost use Rattle.rules.specs.Answer.{number_by};

use rules::{Header, Number};

pub fn version(w: u16) -> u16
    ensures { result ≡ Rules.version w }
{
    w >> 14
}

pub fn reserved(w: u16) -> u16
    ensures { result ≡ Rules.reserved w }
{
    w >> 12 & 3
}

pub fn multi(w: u16) -> u16
    ensures { result ≡ Rules.multi w }
{
    w >> 11 & 1
}

pub fn op_length(w: u16) -> u16
    ensures { result ≡ Rules.op_length w }
{
    w >> 6 & 31
}

pub fn hop_count(w: u16) -> u16
    ensures { result ≡ Rules.hop_count w }
{
    w & 63
}

pub fn header_word(v: u16, r: u16, m: u16, op: u16, hop: u16) -> u16
    requires version { v < 4 }
    requires reserved { r < 4 }
    requires multi { m < 2 }
    requires words { op < 32 }
    requires hops { hop < 64 }
    ensures { result ≡ Rules.header_word v r m op hop }
{
    v << 14 | r << 12 | m << 11 | op << 6 | hop
}

// Where the inner frame begins.
pub fn inner_start(h: Header) -> usize
    requires { h.place ≤ 18 }
    ensures { result ≡ Rules.inner_start h }
{
    h.place + 6 + 4 * op_length(h.word) as usize
}

// Whether a frame is to the MAC that a number has above 16 bits more.
pub fn to_mac(word: u64, f: &[u8]) -> bool
    ensures { result ≡ eqb (be48 f.now 0) (word / 65536) }
{
    octets::be64(f, 0) >> 16 == word >> 16
}

// 12 to 18, where one of them is given.
pub fn check_header(word: u64, f: &[u8], h: Header) -> Result<(), Number>
    requires { h.place ≤ 18 }
    ensures { number_by result ≡ header_refusal (word / 65536) f.now h }
{
    if !to_mac(word, f) {
        return Err(Number::NotToUs);
    }
    if version(h.word) != 0 {
        return Err(Number::BadVersion);
    }
    if multi(h.word) == 1 {
        return Err(Number::MultiDestination);
    }
    if h.ingress == 0 {
        return Err(Number::BadIngress);
    }
    if rules::ANY_RBRIDGE <= h.ingress {
        return Err(Number::BadIngress);
    }
    if h.egress == 0 {
        return Err(Number::BadEgress);
    }
    if rules::ANY_RBRIDGE < h.egress {
        return Err(Number::BadEgress);
    }
    if hop_count(h.word) == 0 {
        return Err(Number::HopCountZero);
    }
    if f.len() < inner_start(h) {
        return Err(Number::AreaCut);
    }
    Ok(())
}
