// RBridge Channel messages (RFC 7178) and the echo body (source document 004): what one is found to be.
ghost use Rattle.std.specs.Prelude.{◌≡◌, ◌/◌, ◌%◌};
ghost use Rattle.rules.specs.Channel as C;
ghost use Rattle.rules.specs.Answer.{err_of};
ghost use Rattle.handler.specs.Shapes.{foreign_by, short_fault, silenced_by_sl};

use rules::{ChannelFault, ChannelRead};

// The channel header's words: CHV 4, protocol 12; SL, MH, NA and nine more flags, ERR 4.
fn chv(w: u16) -> u16
    ensures { result ≡ w / 4096 % 16 }
{
    w >> 12
}

fn protocol(w: u16) -> u16
    ensures { result ≡ w % 4096 }
{
    w & 0xFFF
}

fn sl(w: u16) -> u16
    ensures { result ≡ w / 32768 % 2 }
{
    w >> 15
}

fn na(w: u16) -> u16
    ensures { result ≡ w / 8192 % 2 }
{
    w >> 13 & 1
}

fn err(w: u16) -> u16
    ensures { result ≡ w % 16 }
{
    w & 15
}

fn spid(octet: u8) -> u8
    ensures { result ≡ octet / 16 % 16 }
{
    octet >> 4
}

// Neither the channel's Ethertype nor that of L2-IS-IS.
fn foreign(ethertype: u16) -> bool
    ensures { result ≡ foreign_by ethertype }
{
    ethertype != rules::ETHERTYPE_CHANNEL && ethertype != rules::ETHERTYPE_IS_IS
}

// What the ERR field says of a fault.
pub fn err_of(fault: ChannelFault) -> u8
    ensures { result ≡ err_of fault }
{
    fault as u8
}

// The faults, 4 and 5, of which a message may keep an error from being sent.
fn silenced_by_sl(fault: ChannelFault) -> bool
    ensures { result ≡ silenced_by_sl (err_of fault) }
{
    matches!(
        fault,
        ChannelFault::WrongNative | ChannelFault::OtherProtocol
    )
}

#[tactic(auto, unfolding(rules::specs::Channel::echo_read))]
fn echo_read(body: &[u8]) -> ChannelRead
    ensures { result ≡ C.echo_read body.now }
{
    if body.len() < 18 || 530 < body.len() {
        return ChannelRead::BadEcho;
    }
    match spid(octets::octet(body, 0)) {
        3 => ChannelRead::EchoRequest,
        4 => ChannelRead::EchoHeard,
        _ => ChannelRead::BadEcho,
    }
}

// What is wrong with a message that ends within its header.
fn short_fault(inner: &[u8]) -> ChannelFault
    ensures { result ≡ short_fault inner.now }
{
    if foreign(octets::be16(inner, 16)) {
        ChannelFault::OtherEthertype
    } else {
        ChannelFault::HeaderShort
    }
}

pub fn channel_read(inner: &[u8]) -> ChannelRead
    ensures { result ≡ C.channel_read inner.now }
{
    if inner.len() < 22 {
        return ChannelRead::Fault(short_fault(inner));
    }
    if foreign(octets::be16(inner, 16)) {
        return ChannelRead::Fault(ChannelFault::OtherEthertype);
    }
    let word = octets::be16(inner, 18);
    let flags = octets::be16(inner, 20);
    if chv(word) != 0 {
        return ChannelRead::Fault(ChannelFault::OtherVersion);
    }
    if na(flags) == 1 {
        return ChannelRead::Fault(ChannelFault::WrongNative);
    }
    let number = protocol(word);
    if number == rules::PROTOCOL_ERROR {
        return ChannelRead::ErrorHeard;
    }
    if number != rules::PROTOCOL_ECHO {
        return ChannelRead::Fault(ChannelFault::OtherProtocol);
    }
    if err(flags) != 0 {
        return ChannelRead::BadErr;
    }
    echo_read(&inner[22..])
}

// RFC 7178, 3.2: no error answers an error, nor a silent message.
#[tactic(auto, unfolding(rules::specs::Channel::silenced))]
pub fn silenced(fault: ChannelFault, inner: &[u8]) -> bool
    ensures { result ≡ C.silenced (err_of fault) inner.now }
{
    let flags = octets::be16(inner, 20);
    silenced_by_sl(fault)
        && (sl(flags) == 1
            || protocol(octets::be16(inner, 18)) == rules::PROTOCOL_ERROR
            || err(flags) != 0)
}
