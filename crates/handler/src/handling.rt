// One handling, the answers in the order of document 01: first what a frame comes to before a next hop is asked for, then what is done with it.
ghost use Rattle.std.specs.Prelude.{◌≡◌, [], ◌≤◌, length};
ghost use Rattle.rules.specs.Header.{op_length, area_of};
ghost use Rattle.rules.specs.Options.{WellFormed};
ghost use Rattle.rules.specs.Extension.{area_sent};
ghost use Rattle.rules.specs.Handling as Rules;
ghost use Rattle.rules.specs.Answer.{err_of};
ghost use Rattle.rules.specs.declared.Alert.TheVariants.{NoAlert};
ghost use Rattle.handler.specs.Shapes.{AreaWords, area_read_of, Sends, Done, ways_by};
ghost use Rattle.handler.specs.Tasks.{area_read_by, ReadBy, stops_by, alert_by, alert_refusal, asked_by, asks_back, transit_quiet, messaged};
ghost use Rattle.handler.specs.Tasks.{EchoIn, Comes, RoutesRead, Routes, Arrives, Receives, Receiving};

use crate::answers::Answer;
use crate::frame::Frame;
use crate::options::{AreaFault, Cursor};
use crate::way::{Lookup, Own};
use crate::{answers, channel, extension, forward, header, options, reply, way};
use rules::{Alert, ChannelFault, ChannelRead, NextHop, Number};

// What a frame comes to that is not forwarded: an answer with nothing written, or a channel message to answer. Numbers, no `Answer`: beside
// fields of 8 bits its fields of 16 would be kept in memory.
#[derive(Clone, Copy)]
pub enum Local {
    Dropped {
        number: Number,
    },
    Answered {
        number: Number,
        start: usize,
        length: usize,
    },
    Message,
}

// What a transit frame with an area comes to that nothing is wrong with: its alert, and how many octets are sent of its area.
#[derive(Clone, Copy)]
pub struct Task {
    pub alert: Alert,
    pub size: usize,
}

// What is wrong with the inner frame's tag.
fn untagged(inner: &[u8]) -> bool
    ensures { result ≡ Rules.untagged inner.now }
{
    if octets::be16(inner, 12) != rules::ETHERTYPE_TAG {
        return true;
    }
    let vlan = octets::be16(inner, 14) & 0xFFF;
    if vlan == 0 {
        return true;
    }
    vlan == 4095
}

fn to_all_egress(inner: &[u8]) -> bool
    ensures { result ≡ Rules.to_all_egress_rbridges inner.now }
{
    header::to_mac(rules::ALL_EGRESS_RBRIDGES << 16, inner)
}

// 22 to 24, 51 and 52, or a channel message.
pub fn decapsulated(frame: Frame<'_>) -> Local
    ensures { Comes frame.entry.octets.now frame.entry.header result }
{
    let start = frame.inner_start();
    let inner = frame.inner();
    if inner.len() < 18 {
        return Local::Dropped {
            number: Number::InnerShort,
        };
    }
    if untagged(inner) {
        return Local::Dropped {
            number: Number::BadTag,
        };
    }
    if !to_all_egress(inner) {
        if frame.header.egress == rules::ANY_RBRIDGE {
            return Local::Dropped {
                number: Number::NotToAllEgress,
            };
        }
        return Local::Answered {
            number: Number::Delivered,
            start: start,
            length: inner.len(),
        };
    }
    if octets::be16(inner, 16) == rules::ETHERTYPE_IS_IS {
        return Local::Answered {
            number: Number::HandedUp,
            start: start,
            length: inner.len(),
        };
    }
    Local::Message
}

// The area by the edition: its first fault. What is sent of it is put into `kept`.
fn read_area(
    rfc7179: bool,
    strip: bool,
    area: &[u8],
    kept: &mut [u8; 124],
) -> Result<Cursor, AreaFault>
    requires { AreaWords area.now }
    ensures { ReadBy rfc7179 strip area.now kept.new result }
{
    if !rfc7179 {
        return options::read_area(area, strip, kept);
    }
    if extension::refused(octets::be32(area, 0), area.len() == 4) {
        return Err(AreaFault {
            number: Number::BadFlags,
            place: 0,
        });
    }
    options::keep_all(area, kept)
}

// The same at the egress, where nothing is sent.
fn check_area(rfc7179: bool, area: &[u8]) -> Result<Cursor, AreaFault>
    requires { AreaWords area.now }
    ensures { area_read_of result ≡ area_read_by rfc7179 area.now }
{
    if !rfc7179 {
        return options::check_area(area);
    }
    if extension::refused(octets::be32(area, 0), area.len() == 4) {
        return Err(AreaFault {
            number: Number::BadFlags,
            place: 0,
        });
    }
    Ok(options::START)
}

// 20, by the edition.
fn area_stops(rfc7179: bool, egress: bool, area: &[u8]) -> bool
    ensures { result ≡ stops_by rfc7179 egress area.now }
{
    if rfc7179 {
        return extension::stops(egress, octets::be32(area, 0));
    }
    options::area_stops(egress, area)
}

// "only on a readable inner frame to All-Egress-RBridges with Ethertype 0x8946"
fn channel_message(inner: &[u8]) -> bool
    ensures { result ≡ Rules.channel_message inner.now }
{
    if inner.len() < 18 {
        return false;
    }
    if untagged(inner) {
        return false;
    }
    if !to_all_egress(inner) {
        return false;
    }
    octets::be16(inner, 16) == rules::ETHERTYPE_CHANNEL
}

fn alert_to(critical: bool, answered: bool, read: ChannelRead) -> Alert
    ensures { result ≡ Rules.alert_to critical answered read }
{
    match read {
        ChannelRead::Fault(fault) => {
            if critical {
                return Alert::AlertFault(fault);
            }
            Alert::NoAlert
        }
        ChannelRead::BadErr => {
            if critical {
                return Alert::AlertErr;
            }
            Alert::NoAlert
        }
        ChannelRead::EchoRequest => {
            if answered {
                return Alert::AlertRequest;
            }
            Alert::NoAlert
        }
        ChannelRead::ErrorHeard => Alert::NoAlert,
        ChannelRead::BadEcho => Alert::NoAlert,
        ChannelRead::EchoHeard => Alert::NoAlert,
    }
}

// What an alert flag of the area makes of the message.
fn alert_of(rfc7179: bool, area: &[u8], inner: &[u8]) -> Alert
    ensures { result ≡ alert_by rfc7179 area.now inner.now }
{
    if !rfc7179 {
        return Alert::NoAlert;
    }
    let w = octets::be32(area, 0);
    if !extension::some_alert(w) {
        return Alert::NoAlert;
    }
    if !channel_message(inner) {
        return Alert::NoAlert;
    }
    let read = channel::channel_read(inner);
    alert_to(
        extension::critical_alert(w),
        !extension::stops(true, w),
        read,
    )
}

// 20, once the area is read; `size` octets are sent of it.
fn route_read(rfc7179: bool, area: &[u8], size: usize, frame: Frame<'_>) -> Result<Task, AreaFault>
    requires held { area.now ≡ area_of frame.octets.now frame.header }
    requires well { area_read_by rfc7179 area.now ≡ WellFormed }
    ensures { RoutesRead rfc7179 size frame.entry.octets.now frame.entry.header result }
{
    if area_stops(rfc7179, false, area) {
        return Err(AreaFault {
            number: Number::CriticalOption,
            place: 0,
        });
    }
    Ok(Task {
        alert: alert_of(rfc7179, area, frame.inner()),
        size,
    })
}

// A transit frame with an area: 30 to 35 or 38, then the rest. What is sent of the area is put into `kept`.
pub fn route(
    rfc7179: bool,
    strip: bool,
    frame: Frame<'_>,
    kept: &mut [u8; 124],
) -> Result<Task, AreaFault>
    ensures { Routes rfc7179 strip frame.entry.octets.now frame.entry.header kept.new result }
{
    let area = frame.area();
    let c = read_area(rfc7179, strip, area, kept)?;
    route_read(rfc7179, area, c.to, frame)
}

// A frame to us: 30 to 35 or 38, and 20, if it has an area; then what is in it.
pub fn at_egress(rfc7179: bool, frame: Frame<'_>) -> Local
    ensures { Arrives rfc7179 frame.entry.octets.now frame.entry.header result }
{
    if frame.op_length() == 0 {
        return decapsulated(frame);
    }
    let area = frame.area();
    match check_area(rfc7179, area) {
        Err(fault) => Local::Answered {
            number: fault.number,
            start: fault.place,
            length: 0,
        },
        Ok(_) => arrived(rfc7179, area, frame),
    }
}

// 20, once the area is read.
fn arrived(rfc7179: bool, area: &[u8], frame: Frame<'_>) -> Local
    requires held { area.now ≡ area_of frame.octets.now frame.header }
    requires well { area_read_by rfc7179 area.now ≡ WellFormed }
    ensures { Arrives rfc7179 frame.entry.octets.now frame.entry.header result }
{
    if area_stops(rfc7179, true, area) {
        return Local::Dropped {
            number: Number::CriticalOption,
        };
    }
    decapsulated(frame)
}

// 10 to 18.
fn read<'a>(own: Own, time: &'a [u8; 6], octets: &'a [u8]) -> Result<Frame<'a>, Number>
    requires { length octets.now ≤ 2048 }
    ensures { Receives own time.now octets.now result }
{
    let header = octets::read_frame(octets)?;
    header::check_header(own.word, octets, header)?;
    Ok(Frame {
        octets,
        header,
        time,
    })
}

// 1 for the clock, 2, 37 and 3, then 10 to 18; `room` and `beside` are the lengths of the output buffers.
pub fn receive<'a>(
    own: Own,
    clock: &'a [u8],
    octets: &'a [u8],
    room: usize,
    beside: usize,
) -> Result<Frame<'a>, Number>
    ensures { Receiving own clock.now octets.now room beside result }
{
    let Some(time) = clock.as_array() else {
        return Err(Number::BadSettings);
    };
    if room < rules::OUTPUT_LEAST {
        return Err(Number::OutputShort);
    }
    if beside < rules::BESIDE_LEAST {
        return Err(Number::BesideShort);
    }
    if rules::FRAME_MOST < octets.len() {
        return Err(Number::FrameLong);
    }
    read(own, time, octets)
}

// The destination that settings are asked for, which a frame that is answered already has none of.
pub fn asked(nickname: u16, received: Result<Frame<'_>, Number>) -> u16
    ensures { result ≡ asked_by nickname received.entry }
{
    match received {
        Err(_) => 0,
        Ok(frame) => frame.wanted(nickname),
    }
}

// Whether a reply beside, or in place of, a forwarded frame asks for the next hop of the ingress too.
pub fn asks_back(alert: Alert) -> bool
    ensures { result ≡ asks_back alert }
{
    match alert {
        Alert::NoAlert => false,
        Alert::AlertFault(_) => true,
        Alert::AlertErr => false,
        Alert::AlertRequest => true,
    }
}

// 25 and 26, which an alert gives in place of 50 while no reply is made.
fn check_alert(alert: Alert) -> Result<(), Number>
    ensures { result ≡ alert_refusal alert }
{
    match alert {
        Alert::NoAlert => Ok(()),
        Alert::AlertFault(_) => Err(Number::NoErrorReply),
        Alert::AlertErr => Err(Number::BadErr),
        Alert::AlertRequest => Ok(()),
    }
}

// 21, 25 and 26, 29 and 50, with `area` as it is sent and without what is replied to an alert.
pub fn transit(t: Lookup, frame: Frame<'_>, alert: Alert, area: &[u8], out: &mut [u8]) -> Answer
    requires sent { Sends (ways_by t) frame.octets.now frame.header area.now }
    requires room { 2048 ≤ length out.old }
    ensures { Done (transit_quiet (ways_by t) frame.entry.octets.now frame.entry.header alert) result out.old out.new }
{
    let Some(r) = t.hop else {
        return answers::dropped(Number::NoNextHop);
    };
    match check_alert(alert) {
        Err(n) => answers::dropped(n),
        Ok(()) => send_with(t, r, area, frame, out),
    }
}

// 21, 29 and 50 of a frame without an area.
pub fn forward(t: Lookup, frame: Frame<'_>, out: &mut [u8]) -> Answer
    requires bare { op_length frame.header.word ≡ 0 }
    requires room { 2048 ≤ length out.old }
    ensures { Done (transit_quiet (ways_by t) frame.entry.octets.now frame.entry.header NoAlert) result out.old out.new }
{
    let Some(r) = t.hop else {
        return answers::dropped(Number::NoNextHop);
    };
    send_whole(t, r, frame, out)
}

// 29 and 50, with the area as it is.
fn send_whole(t: Lookup, r: NextHop, frame: Frame<'_>, out: &mut [u8]) -> Answer
    requires sent { area_sent (ways_by t) (area_of frame.octets.now frame.header) ≡ area_of frame.octets.now frame.header }
    requires room { 2048 ≤ length out.old }
    ensures { Done (Rules.onward (ways_by t) r frame.entry.octets.now frame.entry.header [] 0) result out.old out.new }
{
    let size = frame.octets.len() - frame.header.place;
    if rules::FRAME_MOST < way::link_length(r.vlan) + size {
        return answers::dropped(Number::ForwardedLong);
    }
    let at = way::write_link(t, r, out);
    let end = forward::forward_whole(frame, out, at);
    answers::wrote(Number::Forwarded, end, r.neighbour)
}

// The same with another area than the one received.
fn send_with(t: Lookup, r: NextHop, area: &[u8], frame: Frame<'_>, out: &mut [u8]) -> Answer
    requires sent { Sends (ways_by t) frame.octets.now frame.header area.now }
    requires room { 2048 ≤ length out.old }
    ensures { Done (Rules.onward (ways_by t) r frame.entry.octets.now frame.entry.header [] 0) result out.old out.new }
{
    let size = 6 + area.len() + frame.inner().len();
    if rules::FRAME_MOST < way::link_length(r.vlan) + size {
        return answers::dropped(Number::ForwardedLong);
    }
    let at = way::write_link(t, r, out);
    let end = forward::forward_with(area, frame, out, at);
    answers::wrote(Number::Forwarded, end, r.neighbour)
}

// 53, or 25.
fn error_answer(t: Lookup, frame: Frame<'_>, fault: ChannelFault, out: &mut [u8]) -> Answer
    requires room { 576 ≤ length out.old }
    ensures { Done (Rules.faulted (ways_by t) frame.entry.octets.now frame.entry.header (err_of fault)) result out.old out.new }
{
    if channel::silenced(fault, frame.inner()) {
        return answers::dropped(Number::NoErrorReply);
    }
    let back = way::return_path(t, frame.header.ingress);
    let Some(r) = back else {
        return answers::dropped(Number::NoErrorReply);
    };
    let n = reply::error_reply(t, r, frame, fault, out);
    answers::wrote(Number::ErrorReply, n, r.neighbour)
}

// 54, or 28.
fn echo_answer(t: Lookup, frame: Frame<'_>, out: &mut [u8]) -> Answer
    requires echo { EchoIn frame.octets.now frame.header }
    requires room { 576 ≤ length out.old }
    ensures { Done (Rules.echoed (ways_by t) frame.entry.time.now frame.entry.octets.now frame.entry.header) result out.old out.new }
{
    let body = &frame.inner()[22..];
    if octets::octet(body, 4) != 2 {
        return answers::dropped(Number::NoEchoReply);
    }
    let back = way::return_path(t, frame.header.ingress);
    let Some(r) = back else {
        return answers::dropped(Number::NoEchoReply);
    };
    let n = reply::echo_reply(t, r, frame, body, out);
    answers::wrote(Number::EchoReply, n, r.neighbour)
}

// 25 to 28 and 53 to 56: a channel message to us, or one that an alert has us answer.
pub fn message(t: Lookup, frame: Frame<'_>, out: &mut [u8]) -> Answer
    requires room { 576 ≤ length out.old }
    ensures { Done (messaged (ways_by t) frame.entry.time.now frame.entry.octets.now frame.entry.header) result out.old out.new }
{
    let read = channel::channel_read(frame.inner());
    match read {
        ChannelRead::Fault(fault) => error_answer(t, frame, fault, out),
        ChannelRead::BadErr => answers::dropped(Number::BadErr),
        ChannelRead::ErrorHeard => answers::dropped(Number::ErrorHeard),
        ChannelRead::BadEcho => answers::dropped(Number::BadEcho),
        ChannelRead::EchoHeard => answers::dropped(Number::EchoHeard),
        ChannelRead::EchoRequest => echo_answer(t, frame, out),
    }
}
