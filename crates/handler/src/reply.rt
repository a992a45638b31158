// The two replies.
ghost use Rattle.std.specs.Prelude.{◌≡◌, ◌+◌, ◌%◌, ◌≤◌, ◌++◌, length};
ghost use Rattle.rules.specs.Channel.{error_body, echo_body, error_reply, echo_reply};
ghost use Rattle.rules.specs.Answer.{err_of};
ghost use Rattle.octets.specs.Copy.{Wrote};
ghost use Rattle.handler.specs.Shapes.{reply_octets, ways_by, Replied};

use crate::frame::Frame;
use crate::way::{Lookup, Own};
use crate::{channel, way};
use rules::{ChannelFault, NextHop};

// "first TRILL word 0x003F .. 0x8100, 0x0001, 0x8946, protocol word, flags and ERR word 0xC000 plus the code"
const FIRST_WORD: u16 = 0x003F;

const INNER_VLAN: u16 = 0x0001;

const FLAGS: u16 = 0xC000;

// From the first TRILL word to the flags and ERR word, from `at` on; says where it ends.
fn write_head(own: Own, ingress: u16, protocol: u16, err: u8, out: &mut [u8], at: usize) -> usize
    requires { at + 28 ≤ length out.old }
    ensures { Wrote (reply_octets own ingress protocol err) at result out.old out.new }
{
    let header = octets::four(FIRST_WORD, ingress, own.nickname, 0);
    octets::copy(out, at, &header);
    way::write_macs(rules::ALL_EGRESS_RBRIDGES, own.word, out, at + 6);
    let channel = octets::four(
        rules::ETHERTYPE_TAG,
        INNER_VLAN,
        rules::ETHERTYPE_CHANNEL,
        protocol,
    );
    octets::copy(out, at + 18, &channel);
    let flags = octets::two(FLAGS + err as u16);
    octets::copy(out, at + 26, &flags)
}

// The received frame from its TRILL Ethertype on, at most 128 octets.
fn cited(frame: Frame<'_>) -> &[u8]
    ensures { result.now ≡ error_body frame.entry.octets.now frame.entry.header }
{
    let start = frame.header.place - 2;
    if frame.octets.len() - start < 128 {
        return &frame.octets[start..];
    }
    let end = start + 128;
    &frame.octets[start..end]
}

// An error reply from `at` on, behind its link header; says where it ends.
fn write_error(own: Own, frame: Frame<'_>, fault: ChannelFault, out: &mut [u8], at: usize) -> usize
    requires room { at + 156 ≤ length out.old }
    ensures { Wrote (reply_octets own frame.entry.header.ingress 0x001 (err_of fault) ++ error_body frame.entry.octets.now frame.entry.header) at result out.old out.new }
{
    let at = write_head(
        own,
        frame.header.ingress,
        rules::PROTOCOL_ERROR,
        channel::err_of(fault),
        out,
        at,
    );
    octets::copy(out, at, cited(frame))
}

// SPID 4 and the sequence's high bits.
fn answered(first: u8) -> u8
    ensures { result ≡ 64 + first % 16 }
{
    0x40 | first & 15
}

// The echo body from `at` on, answered: as it is, then SPID and time received written over. Says where it ends.
fn write_echo_body(body: &[u8], time: &[u8; 6], out: &mut [u8], at: usize) -> usize
    requires long { 18 ≤ length body.now }
    requires room { at + length body.now ≤ length out.old }
    ensures { Wrote (echo_body body.now time.now) at result out.old out.new }
{
    let end = octets::copy(out, at, body);
    let first = [answered(octets::octet(body, 0))];
    octets::copy(out, at, &first);
    octets::copy(out, at + 12, time);
    end
}

// An echo reply from `at` on, behind its link header; says where it ends.
fn write_echo(own: Own, frame: Frame<'_>, body: &[u8], out: &mut [u8], at: usize) -> usize
    requires long { 18 ≤ length body.now }
    requires room { at + 28 + length body.now ≤ length out.old }
    ensures { Wrote (reply_octets own frame.entry.header.ingress 0xFF8 0 ++ echo_body body.now frame.entry.time.now) at result out.old out.new }
{
    let at = write_head(own, frame.header.ingress, rules::PROTOCOL_ECHO, 0, out, at);
    write_echo_body(body, frame.time, out, at)
}

// Writes an error reply towards a next hop and says how long it is.
pub fn error_reply(
    t: Lookup,
    r: NextHop,
    frame: Frame<'_>,
    fault: ChannelFault,
    out: &mut [u8],
) -> usize
    requires room { 576 ≤ length out.old }
    ensures { Replied (error_reply (ways_by t) r frame.entry.octets.now frame.entry.header (err_of fault)) result out.old out.new }
{
    let at = way::write_link(t, r, out);
    let own = t.own;
    write_error(own, frame, fault, out, at)
}

// Writes an echo reply towards a next hop and says how long it is.
pub fn echo_reply(t: Lookup, r: NextHop, frame: Frame<'_>, body: &[u8], out: &mut [u8]) -> usize
    requires long { 18 ≤ length body.now }
    requires short { length body.now ≤ 530 }
    requires room { 576 ≤ length out.old }
    ensures { Replied (echo_reply (ways_by t) r frame.entry.header frame.entry.time.now body.now) result out.old out.new }
{
    let at = way::write_link(t, r, out);
    let own = t.own;
    write_echo(own, frame, body, out, at)
}
