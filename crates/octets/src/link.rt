// The link header and the TRILL header behind it (document 01, "Frames"; RFC 6325, 3).
ghost use Rattle.std.specs.Prelude.{◌≡◌};
ghost use Rattle.rules.specs.Link.{link_length};
ghost use Rattle.rules.specs.Header as Rules;

use rules::{Header, Number};

fn link_length(f: &[u8]) -> usize
    ensures { result ≡ link_length f.now }
{
    if crate::be16(f, 12) == rules::ETHERTYPE_TAG {
        18
    } else {
        14
    }
}

// 10, 11 and 10 again, or the header.
pub fn read_frame(f: &[u8]) -> Result<Header, Number>
    ensures { result ≡ Rules.read_frame f.now }
{
    // The common case, one read: the Ethertype of a frame without a tag and the header's three fields.
    if 20 <= f.len() {
        let head = crate::be64(f, 12);
        if head >> 48 == u64::from(rules::ETHERTYPE_TRILL) {
            return Ok(Header {
                place: 14,
                word: ((head >> 32) % 65536) as u16,
                egress: ((head >> 16) % 65536) as u16,
                ingress: (head % 65536) as u16,
            });
        }
    }
    if f.len() < 14 {
        return Err(Number::FrameShort);
    }
    let n = link_length(f);
    if f.len() < n {
        return Err(Number::FrameShort);
    }
    if crate::be16(f, n - 2) != rules::ETHERTYPE_TRILL {
        return Err(Number::NotTrill);
    }
    if f.len() < n + 6 {
        return Err(Number::FrameShort);
    }
    Ok(Header {
        place: n,
        word: crate::be16(f, n),
        egress: crate::be16(f, n + 2),
        ingress: crate::be16(f, n + 4),
    })
}
