// What becomes of an option, by its nine-bit key (document 02, T-08).
ghost use Rattle.std.specs.Prelude.{◌≡◌, ◌&&◌, not, ◌<◌};
ghost use Rattle.handler.specs.Treatment.{Treats, transit_discards, egress_discards, strip_applies, is_flow_id, stripped_by};

use Entry::{Both, Egress, Kept, Stripped};

const FLOW_ID: u16 = 0x083;

// What becomes of an option: transit and the egress both discard it, or the egress alone; it is kept; or it is kept unless the strip flag is set.
#[derive(Clone, Copy, PartialEq, Eq)]
pub enum Entry {
    Both,
    Egress,
    Kept,
    Stripped,
}

// The entries of eight Types, each with MT 0 and then MT 1.
const BOTH: [Entry; 16] = [Both; 16];

const EGRESS: [Entry; 16] = [Egress; 16];

const KEPT: [Entry; 16] = [Kept; 16];

const STRIPPED: [Entry; 16] = [
    Kept, Stripped, Kept, Stripped, Kept, Stripped, Kept, Stripped, Kept, Stripped, Kept, Stripped,
    Kept, Stripped, Kept, Stripped,
];

const STRIPPED_BUT_PAD: [Entry; 16] = [
    Kept, Kept, Kept, Stripped, Kept, Stripped, Kept, Stripped, Kept, Stripped, Kept, Stripped,
    Kept, Stripped, Kept, Stripped,
];

// The 512 entries by key: eight rows for each IE and NC, for the Types 0x00 to 0x3F. So the pad (Type 0x20, NC 1) begins the fifth row of the second
// and of the last eight, and the Flow ID is the fourth entry of the second eight rows.
static TREATMENT: [[Entry; 16]; 32] = [
    // IE 0, NC 0
    BOTH,
    BOTH,
    BOTH,
    BOTH,
    BOTH,
    BOTH,
    BOTH,
    BOTH,
    // IE 0, NC 1
    STRIPPED,
    STRIPPED,
    STRIPPED,
    STRIPPED,
    STRIPPED_BUT_PAD,
    STRIPPED,
    STRIPPED,
    STRIPPED,
    // IE 1, NC 0
    EGRESS,
    EGRESS,
    EGRESS,
    EGRESS,
    EGRESS,
    EGRESS,
    EGRESS,
    EGRESS,
    // IE 1, NC 1
    KEPT,
    KEPT,
    KEPT,
    KEPT,
    KEPT,
    KEPT,
    KEPT,
    KEPT,
];

// The one statement on the table: it agrees with the flag definitions at every key.
pub fn entry_of(key: u16) -> Entry
    requires { key < 512 }
    ensures { Treats key result }
{
    TREATMENT[usize::from(key / 16)][usize::from(key % 16)]
}

pub fn transit_discards(entry: Entry) -> bool
    ensures { result ≡ transit_discards entry }
{
    entry == Both
}

// The egress discards it, and transit does not.
pub fn egress_alone_discards(entry: Entry) -> bool
    ensures { result ≡ (egress_discards entry && not (transit_discards entry)) }
{
    entry == Egress
}

fn strip_applies(entry: Entry) -> bool
    ensures { result ≡ strip_applies entry }
{
    entry == Stripped
}

fn is_flow_id(key: u16, size: u8) -> bool
    ensures { result ≡ is_flow_id key size }
{
    key == FLOW_ID && size == 2
}

// Whether the strip flag takes the option out.
pub fn is_stripped(strip: bool, entry: Entry, key: u16, size: u8) -> bool
    ensures { result ≡ (strip && stripped_by entry key size) }
{
    strip && !is_flow_id(key, size) && strip_applies(entry)
}
