// One received frame at one switch: the handling call (document 01), by settings octets and by a store, and the way out.

#![tactic(auto)]

mod answers;
mod channel;
mod extension;
mod forward;
mod frame;
mod handling;
mod header;
mod options;
mod reply;
mod settings;
mod store;
mod switch;
mod treatment;
mod validation;
mod way;

ghost use Rattle.std.specs.Prelude.{◌≡◌, false, ◌≤◌, length};
ghost use Rattle.rules.specs.WayOut.{way_out, way_out_by};
ghost use Rattle.rules.specs.Header.{we_are_egress};
ghost use Rattle.rules.specs.Handling.{routed, handled};
ghost use Rattle.stores.specs.Store.{handled_in, way_out_in};
ghost use Rattle.handler.specs.Shapes.{Sends, Done, WayDone};
ghost use Rattle.handler.specs.Tasks.{wanted_by, transit_at, messaged, local_at, Ends, Answerable, Replies, Both};

use crate::frame::Frame;
use crate::handling::{Local, Task};
use crate::settings::Checked;
use crate::store::Prepared;
use crate::switch::Switch;
pub use answers::Answer;
use rules::{Alert, Number};
pub use way::WayOut;

// The handling of a frame by settings octets.
pub fn handle(
    frame: &[u8],
    settings: &[u8],
    clock: &[u8],
    out: &mut [u8],
    beside: &mut [u8],
) -> Answer
    ensures { Both
        (handled settings.now clock.now (length out.old) (length beside.old) frame.now)
        result out.old out.new beside.old beside.new }
{
    let own = settings::own_of(settings);
    let received = handling::receive(own, clock, frame, out.len(), beside.len());
    let Some(found) = validation::validate(settings, handling::asked(own.nickname, received)) else {
        return answers::dropped(Number::BadSettings);
    };
    let switch = Checked {
        octets: settings,
        own,
        found,
    };
    match received {
        Err(n) => answers::dropped(n),
        Ok(frame) => handle_at(switch, frame, out, beside),
    }
}

// The handling of a frame by a store.
pub fn handle_prepared(
    frame: &[u8],
    store: &[u64],
    clock: &[u8],
    out: &mut [u8],
    beside: &mut [u8],
) -> Answer
    ensures { Both
        (handled_in store.now clock.now (length out.old) (length beside.old) frame.now)
        result out.old out.new beside.old beside.new }
{
    if !store::good(store) {
        return answers::dropped(Number::BadSettings);
    }
    let switch = Prepared { words: store };
    let received = handling::receive(switch.own(), clock, frame, out.len(), beside.len());
    match received {
        Err(n) => answers::dropped(n),
        Ok(frame) => handle_at(switch, frame, out, beside),
    }
}

// A frame of which none of 10 to 18 is given. What is done with an area, or a message, stays a function of its own, which is lent copies: so what
// it keeps, and what it is lent, takes up no registers and no memory of a frame that is forwarded without an area.
#[inline(always)]
fn handle_at<S: Switch>(switch: S, frame: Frame<'_>, out: &mut [u8], beside: &mut [u8]) -> Answer
    requires asked { S.finds switch (wanted_by (S.says switch).nickname frame.header) }
    requires room { 2048 ≤ length out.old }
    requires beside_room { 576 ≤ length beside.old }
    ensures { Both (routed (S.says switch) frame.entry.time.now frame.entry.octets.now frame.entry.header) result out.old out.new beside.old beside.new }
{
    if frame.is_to_us(switch.own().nickname) {
        let local = handling::at_egress(switch.rfc7179(), frame);
        return not_forwarded(switch, frame, local, out);
    }
    if frame.op_length() == 0 {
        return handling::forward(switch.lookup(frame.header.egress), frame, out);
    }
    // Read out of what the function wrote, or a frame without an area is answered by way of memory too.
    let a = route({ switch }, { frame }, out, beside);
    Answer { ..a }
}

// A frame that is not forwarded.
fn not_forwarded<S: Switch>(switch: S, frame: Frame<'_>, local: Local, out: &mut [u8]) -> Answer
    requires asked { S.finds switch frame.header.ingress }
    requires ends { Ends local }
    requires room { 2048 ≤ length out.old }
    ensures { Done (local_at (S.says switch) frame.entry.time.now frame.entry.octets.now frame.entry.header local) result out.old out.new }
{
    match local {
        Local::Dropped { number } => answers::dropped(number),
        Local::Answered {
            number,
            start,
            length,
        } => answers::unwritten(number, start, length),
        Local::Message => answers::copy_of_reply(message({ switch }, { frame }, out)),
    }
}

// A channel message. As long as a reply can be the buffer's length is known when this is compiled.
#[inline(never)]
fn message<S: Switch>(switch: S, frame: Frame<'_>, out: &mut [u8]) -> Answer
    requires asked { S.finds switch frame.header.ingress }
    requires room { 576 ≤ length out.old }
    ensures { Done (messaged (S.says switch) frame.entry.time.now frame.entry.octets.now frame.entry.header) result out.old out.new }
{
    handling::message(switch.lookup(frame.header.ingress), frame, &mut out[..576])
}

// In transit, with an area.
#[inline(never)]
fn route<S: Switch>(switch: S, frame: Frame<'_>, out: &mut [u8], beside: &mut [u8]) -> Answer
    requires asked { S.finds switch frame.header.egress }
    requires away { we_are_egress (S.says switch).nickname frame.header ≡ false }
    requires room { 2048 ≤ length out.old }
    requires beside_room { 576 ≤ length beside.old }
    ensures { Both (routed (S.says switch) frame.entry.time.now frame.entry.octets.now frame.entry.header) result out.old out.new beside.old beside.new }
{
    let rfc7179 = switch.rfc7179();
    let strip = switch.strip();
    let mut kept = [0u8; 124];
    match handling::route(rfc7179, strip, frame, &mut kept) {
        Err(fault) => answers::unwritten(fault.number, fault.place, 0),
        Ok(Task { alert, size }) => transit(switch, frame, alert, &kept[..size], out, beside),
    }
}

// A transit frame, with `area` as it is sent; an alert may ask for a reply too.
fn transit<S: Switch>(
    switch: S,
    frame: Frame<'_>,
    alert: Alert,
    area: &[u8],
    out: &mut [u8],
    beside: &mut [u8],
) -> Answer
    requires asked { S.finds switch frame.header.egress }
    requires sent { Sends (S.says switch) frame.octets.now frame.header area.now }
    requires answerable { Answerable frame.octets.now frame.header alert }
    requires room { 2048 ≤ length out.old }
    requires beside_room { 576 ≤ length beside.old }
    ensures { Both (transit_at (S.says switch) frame.entry.time.now frame.entry.octets.now frame.entry.header alert) result out.old out.new beside.old beside.new }
{
    let a = handling::transit(switch.lookup(frame.header.egress), frame, alert, area, out);
    replied(switch, a, frame, alert, out, beside)
}

// With what is replied to its alert, if that asks for a reply: an error in place of 25, or an echo reply beside 50.
fn replied<S: Switch>(
    switch: S,
    a: Answer,
    frame: Frame<'_>,
    alert: Alert,
    out: &mut [u8],
    beside: &mut [u8],
) -> Answer
    requires answerable { Answerable frame.octets.now frame.header alert }
    requires room { 2048 ≤ length out.old }
    requires beside_room { 576 ≤ length beside.old }
    ensures { Replies (S.says switch) frame.entry.time.now frame.entry.octets.now frame.entry.header alert a result out.old out.new beside.old beside.new }
{
    if !handling::asks_back(alert) {
        return a;
    }
    let back = switch.asking(frame.header.ingress);
    if a.number == Number::NoErrorReply as u16 {
        return message(back, frame, out);
    }
    if a.number != Number::Forwarded as u16 {
        return a;
    }
    let b = message(back, frame, beside);
    answers::with_beside(a, b)
}

// T-11: the link header towards a destination; 1, 21 or 2 where there is none.
pub fn way_out(settings: &[u8], destination: u16, out: &mut [u8]) -> WayOut
    ensures { WayDone (way_out settings.now destination (length out.old)) result out.old out.new }
{
    let own = settings::own_of(settings);
    let Some(found) = validation::validate(settings, destination) else {
        return way::no_way(Number::BadSettings);
    };
    let switch = Checked {
        octets: settings,
        own,
        found,
    };
    way_out_at(switch, destination, out)
}

pub fn way_out_prepared(store: &[u64], destination: u16, out: &mut [u8]) -> WayOut
    ensures { WayDone (way_out_in store.now destination (length out.old)) result out.old out.new }
{
    if !store::good(store) {
        return way::no_way(Number::BadSettings);
    }
    way_out_at(Prepared { words: store }, destination, out)
}

fn way_out_at<S: Switch>(switch: S, destination: u16, out: &mut [u8]) -> WayOut
    requires asked { S.finds switch destination }
    ensures { WayDone (way_out_by (S.says switch) destination (length out.old)) result out.old out.new }
{
    way::way_out(switch.lookup(destination), out)
}
