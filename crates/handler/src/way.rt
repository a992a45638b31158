// What a handling looks up in settings, and the way out: from the record that rules to the link header written.
ghost use Rattle.std.specs.Prelude.{◌≡◌, ◌++◌, ◌+◌, ◌≤◌, length};
ghost use Rattle.rules.specs.Octets.{octets48};
ghost use Rattle.rules.specs.Link.{link};
ghost use Rattle.rules.specs.Channel.{return_path};
ghost use Rattle.rules.specs.WayOut.{way_out_by};
ghost use Rattle.rules.specs.Answer.{number_of};
ghost use Rattle.octets.specs.Words.{octets64};
ghost use Rattle.octets.specs.Copy.{Wrote};
ghost use Rattle.handler.specs.Shapes.{link_size, ways_by, WayDone};

use rules::{NextHop, Number};

// Own nickname, and own MAC above 16 bits that say nothing: so a store has it, and so its octets are written, eight in one.
#[derive(Clone, Copy)]
pub struct Own {
    pub nickname: u16,
    pub word: u64,
}

// With the strip flag, the edition, and the next hop for the one destination that is asked for.
#[derive(Clone, Copy)]
pub struct Lookup {
    pub own: Own,
    pub strip: bool,
    pub rfc7179: bool,
    pub hop: Option<NextHop>,
}

// How long the link header towards a next hop is.
pub fn link_length(vlan: u16) -> usize
    ensures { result ≡ link_size vlan }
{
    if vlan == 0 { 14 } else { 18 }
}

// A MAC and our own from `at` on, and behind them two octets of anything, over which the Ethertype or the tag is written.
pub fn write_macs(to: u64, own: u64, out: &mut [u8], at: usize)
    requires { at + 14 ≤ length out.old }
    ensures { Wrote (octets48 to ++ octets64 own) at (at + 14) out.old out.new }
{
    let destination = octets::eight(to << 16);
    octets::copy(out, at, &destination);
    let source = octets::eight(own);
    octets::copy(out, at + 6, &source);
}

// Writes the link header towards a next hop and says how long it is.
pub fn write_link(t: Lookup, r: NextHop, out: &mut [u8]) -> usize
    requires { link_size r.vlan ≤ length out.old }
    ensures { Wrote (link (ways_by t) r) 0 result out.old out.new }
{
    write_macs(r.mac, t.own.word, out, 0);
    if r.vlan == 0 {
        let ethertype = octets::two(rules::ETHERTYPE_TRILL);
        return octets::copy(out, 12, &ethertype);
    }
    // T-01: outer tag and Ethertype.
    let tagged = octets::four(rules::ETHERTYPE_TAG, r.vlan, rules::ETHERTYPE_TRILL, 0);
    octets::copy(out, 12, &tagged[..6])
}

// The next hop back: "No return path: the ingress is our own nickname or has no next hop."
#[tactic(auto, unfolding(rules::specs::Channel::return_path))]
pub fn return_path(t: Lookup, ingress: u16) -> Option<NextHop>
    ensures { result ≡ return_path (ways_by t) ingress }
{
    if ingress == t.own.nickname {
        None
    } else {
        t.hop
    }
}

// What a caller who asks for the way out is answered.
#[repr(C)]
#[derive(Clone, Copy)]
pub struct WayOut {
    pub number: u32,
    pub length: u32,
}

pub fn no_way(number: Number) -> WayOut
    ensures { result ≡ record { number = number_of number; length = 0 } }
{
    WayOut {
        number: number as u32,
        length: 0,
    }
}

// The link header of the record that rules, written where it fits; 21 comes before 2.
pub fn way_out(t: Lookup, out: &mut [u8]) -> WayOut
    ensures { WayDone (way_out_by (ways_by t) 0 (length out.old)) result out.old out.new }
{
    let Some(r) = t.hop else {
        return no_way(Number::NoNextHop);
    };
    if out.len() < link_length(r.vlan) {
        return no_way(Number::OutputShort);
    }
    WayOut {
        number: 0,
        length: write_link(t, r, out) as u32,
    }
}
