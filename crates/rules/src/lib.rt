// The shapes that the definitions in specs/ and the code above share, and the numbers of the documents by name. There is no code here.

#![tactic(auto)]

// RFC 6325 and RFC 7178: Ethertypes, an address and nicknames.
pub const ETHERTYPE_TAG: u16 = 0x8100;

pub const ETHERTYPE_TRILL: u16 = 0x22F3;

pub const ETHERTYPE_IS_IS: u16 = 0x22F4;

pub const ETHERTYPE_CHANNEL: u16 = 0x8946;

pub const ALL_EGRESS_RBRIDGES: u64 = 0x0180C2000042;

pub const ANY_RBRIDGE: u16 = 0xFFC0;

pub const NICKNAME_MOST: u16 = 0xFFBF;

// Channel protocols: error (RFC 7178, 6) and echo (document 01).
pub const PROTOCOL_ERROR: u16 = 0x001;

pub const PROTOCOL_ECHO: u16 = 0xFF8;

// Octets of a frame at most, and of the two output buffers at least (documents 01 and 02).
pub const FRAME_MOST: usize = 2048;

pub const OUTPUT_LEAST: usize = 2048;

pub const BESIDE_LEAST: usize = 576;

// A next-hop record (document 01, "Settings"; document 02, T-01). A neighbour of 0 is a withdrawal, a VLAN of 0 none.
#[derive(Clone, Copy)]
pub struct NextHop {
    pub destination: u16,
    pub neighbour: u16,
    pub mac: u64,
    pub serial: u32,
    pub vlan: u16,
}

// A field of settings or of a description: its value starts three octets after its place.
#[derive(Clone, Copy)]
pub struct FieldRead {
    pub tag: u8,
    pub length: usize,
    pub next: usize,
}

// A TRILL header (RFC 6325, 3): where it starts, its first 16 bits, and the two nicknames.
#[derive(Clone, Copy)]
pub struct Header {
    pub place: usize,
    pub word: u16,
    pub egress: u16,
    pub ingress: u16,
}

// The number of an answer (document 01, "Answers of one handling"; document 02).
#[derive(Clone, Copy, PartialEq, Eq)]
pub enum Number {
    BadSettings = 1,
    OutputShort = 2,
    FrameLong = 3,
    CounterFull = 4,
    FrameShort = 10,
    NotTrill = 11,
    NotToUs = 12,
    BadVersion = 13,
    MultiDestination = 14,
    BadIngress = 15,
    BadEgress = 16,
    HopCountZero = 17,
    AreaCut = 18,
    CriticalOption = 20,
    NoNextHop = 21,
    InnerShort = 22,
    BadTag = 23,
    NotToAllEgress = 24,
    NoErrorReply = 25,
    BadErr = 26,
    BadEcho = 27,
    NoEchoReply = 28,
    ForwardedLong = 29,
    ReservedLength = 30,
    OptionCut = 31,
    KeyBelow = 32,
    KeyEqual = 33,
    ChbhMissing = 34,
    CiteMissing = 35,
    FrameEnded = 36,
    BesideShort = 37,
    BadFlags = 38,
    Forwarded = 50,
    Delivered = 51,
    HandedUp = 52,
    ErrorReply = 53,
    EchoReply = 54,
    ErrorHeard = 55,
    EchoHeard = 56,
}

// The code that refuses a description (document 01, "Campus description and run").
#[derive(Clone, Copy, PartialEq, Eq)]
pub enum Refusal {
    FileLong = 40,
    FieldCut = 41,
    BadLength = 42,
    OutOfPlace = 43,
    BadValue = 44,
    NicknameMet = 45,
    TooMany = 46,
    SerialMet = 47,
    EntryUnknown = 48,
    TraceShort = 49,
}

// What is wrong with a channel message, by its code in an error reply (RFC 7178, 3.2).
#[derive(Clone, Copy, PartialEq, Eq)]
pub enum ChannelFault {
    HeaderShort = 1,
    OtherEthertype = 2,
    OtherVersion = 3,
    WrongNative = 4,
    OtherProtocol = 5,
}

// What a channel message is found to be (RFC 7178, 3.2; document 01, "Channel messages").
#[derive(Clone, Copy)]
pub enum ChannelRead {
    Fault(ChannelFault),
    BadErr,
    ErrorHeard,
    BadEcho,
    EchoHeard,
    EchoRequest,
}

// What a transit switch of edition 2 does with a channel message that an alert flag shows it (document 02, T-09): nothing but forward it;
// an error reply, or 26, in its place; or an echo reply beside it.
#[derive(Clone, Copy)]
pub enum Alert {
    NoAlert,
    AlertFault(ChannelFault),
    AlertErr,
    AlertRequest,
}
