// What a trace entry says of the frame received.
ghost use Rattle.std.specs.Prelude.{◌≡◌, ◌%◌};
ghost use Rattle.rules.specs.Header as Rules;
ghost use Rattle.campus.specs.Steps.{received_of};

// Hop count and egress, zero for a frame unreadable as TRILL.
#[derive(Clone, Copy)]
pub struct HopEgress {
    pub hop: u8,
    pub egress: u16,
}

// The hop count, in the low octet of the first word.
fn hop_count(low: u8) -> u8
    ensures { result ≡ Rules.hop_count (low % 256) }
{
    low % 64
}

pub fn received(f: &[u8]) -> HopEgress
    ensures { result ≡ received_of f.now }
{
    let Ok(h) = octets::read_frame(f) else {
        return HopEgress { hop: 0, egress: 0 };
    };
    HopEgress {
        hop: hop_count(octets::low(h.word)),
        egress: h.egress,
    }
}
