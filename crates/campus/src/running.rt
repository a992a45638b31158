// The plain run of an accepted description, with its trace.
ghost use Rattle.std.specs.Prelude.{◌≡◌, [], ◌∷◌, ◌+◌, ◌*◌, ◌≤◌, ◌<◌, length, take};
ghost use Rattle.rules.specs.Octets.{put};
ghost use Rattle.rules.specs.Campus.{kind_octet, first_waiting, writes_reply, some_edition2};
ghost use Rattle.handler.specs.Tasks.{Both};
ghost use Rattle.campus.specs.Places as P;
ghost use Rattle.campus.specs.Switches.{switch_at, all_of, IsSoundAt, IsSound};
ghost use Rattle.campus.specs.Steps.{kind_by, entry_by, handled_by, state_at, StepReady, Stepped, RunReady, EntryReady, Ran, run_of, states_of};
ghost use Rattle.campus.specs.Queue.{sent_to, slot_octets, Free, Queue, Waits, Leads, waiting_by, replies_by, onward_by, WaitReady, NextReady};
ghost use Rattle.campus.specs.Queue.{OnwardReady, Onwarded, TurnReady, Turned, LoopReady, Begun};

use crate::received;
use crate::switches::Switches;
use handler::Answer;
use rules::Number;

// No run has more handlings.
const HANDLINGS_MOST: usize = 4096;

// What is handled next: at which switch, whether it is a reply, and how long it is; and the slots of the replies that wait, from head to tail.
#[derive(Clone, Copy)]
struct At {
    switch: usize,
    replied: bool,
    size: usize,
    head: usize,
    tail: usize,
}

// The frame that is handled, what its handling writes, and the reply that it makes beside that. Lent: an array in a struct is made octet by octet.
#[derive(Drop)]
struct Frames<'a> {
    current: &'a mut [u8; 2048],
    out: &'a mut [u8; 2048],
    beside: &'a mut [u8; 576],
}

// The octets from place to place, or none where these are out of order or past the end.
#[tactic(auto, unfolding(crate::specs::Places::between))]
fn between(s: &[u8], start: usize, end: usize) -> &[u8]
    ensures { result.now ≡ P.between s.now start end }
{
    s.get(start..end).unwrap_or(&s[..0])
}

// The first octets.
fn front(s: &[u8], size: usize) -> &[u8]
    requires { size ≤ length s.now }
    ensures { result.now ≡ take size s.now }
{
    &s[..size]
}

// The clock's octets, 0 where there is no clock.
fn clock_of(s: &[u8], clock: Option<usize>) -> [u8; 6]
    requires { length (P.clock_from s.now clock) ≡ 6 }
    ensures { result ≡ P.clock_from s.now clock }
{
    let mut c = [0u8; 6];
    if let Some(place) = clock {
        c.copy_from_slice(&s[place..place + 6]);
    }
    c
}

fn kind_octet(replied: bool) -> u8
    ensures { result ≡ kind_octet (kind_by replied) }
{
    u8::from(replied)
}

// Writes the entry of one handling.
fn put_entry(trace: &mut [u8], at: usize, nickname: u16, replied: bool, number: u16, f: &[u8])
    requires { (at + 8 ≤ length trace.old) × (number < 64) }
    ensures { trace.new ≡ put trace.old at (entry_by nickname (kind_by replied) number f.now) }
{
    let h = received::received(f);
    let e = [
        octets::high(nickname),
        octets::low(nickname),
        kind_octet(replied),
        number as u8,
        h.hop,
        0,
        octets::high(h.egress),
        octets::low(h.egress),
    ];
    octets::copy(trace, at, &e);
}

// Entry k of the trace: a frame that switch i has handled.
fn enter(
    switches: &Switches,
    i: usize,
    replied: bool,
    number: u16,
    frame: &[u8],
    trace: &mut [u8],
    k: usize,
)
    requires { IsSoundAt switches.now i × (k * 8 + 8 ≤ length trace.old) × (k < 4096) × (number < 64) }
    ensures { trace.new ≡ put trace.old (k * 8)
        (entry_by (switch_at switches.now i).nickname (kind_by replied) number frame.now) }
{
    let nickname = switches.nickname_of(i);
    put_entry(trace, k * 8, nickname, replied, number, frame);
}

// The handling of a frame by a switch.
fn handled(
    switches: &Switches,
    i: usize,
    clock: &[u8; 6],
    frame: &[u8],
    out: &mut [u8; 2048],
    beside: &mut [u8; 576],
) -> Answer
    requires { IsSoundAt switches.now i }
    ensures { Both (handled_by (switch_at switches.now i) clock.now 2048 576 frame.now) result
        out.old out.new beside.old beside.new }
{
    handler::handle_prepared(frame, switches.store_of(i), clock, out, beside)
}

// One handling: the switch handles the frame, writes what comes of it; entry k is put into the trace.
fn step(
    switches: &Switches,
    clock: &[u8; 6],
    at: At,
    frames: &mut Frames,
    trace: &mut [u8],
    k: usize,
) -> Answer
    requires { StepReady switches.now clock.now at trace.old k }
    ensures { Stepped k (state_at switches.now clock.now at frames.old.current.now k)
        frames.old.out.now frames.new.out.now frames.old.beside.now frames.new.beside.now trace.old trace.new result }
{
    let frame = front(frames.current, at.size);
    let a = handled(switches, at.switch, clock, frame, frames.out, frames.beside);
    enter(switches, at.switch, at.replied, a.number, frame, trace, k);
    a
}

// Puts a reply for switch i into a slot: the switch, the length, the octets.
fn put_slot(waiting: &mut [u8], h: usize, i: usize, f: &[u8])
    requires { Free waiting.old h × (i < 16) × (length f.now ≤ 576) }
    ensures { waiting.new ≡ put waiting.old (h * 579) (slot_octets i f.now) }
{
    let size = f.len() as u16;
    let at = octets::copy(
        waiting,
        h * 579,
        &[i as u8, octets::high(size), octets::low(size)],
    );
    octets::copy(waiting, at, f);
}

// A reply to a switch of the campus waits in the slot behind the last; any other has left. Answers where the slots end then.
fn put_waiting(
    switches: &Switches,
    towards: u16,
    f: &[u8],
    waiting: &mut [u8],
    tail: usize,
) -> usize
    requires { IsSound switches.now × Free waiting.old tail × (length f.now ≤ 576) }
    ensures { Waits switches.now waiting.old waiting.new tail result
        (waiting_by towards f.now ∷ []) }
{
    let Some(i) = switches.find(towards) else {
        return tail;
    };
    put_slot(waiting, tail, i, f);
    tail + 1
}

// What 53 and 54 write is a reply.
fn writes_reply(number: u16) -> bool
    ensures { result ≡ writes_reply number }
{
    number == Number::ErrorReply as u16 || number == Number::EchoReply as u16
}

// The reply that a handling made, if any: in `out` where that is one, else in `beside`.
fn wait(switches: &Switches, a: Answer, frames: &Frames, waiting: &mut [u8], tail: usize) -> usize
    requires { WaitReady switches.now a frames.now.out.now frames.now.beside.now waiting.old tail }
    ensures { Waits switches.now waiting.old waiting.new tail result
        (replies_by a frames.now.out.now frames.now.beside.now) }
{
    if writes_reply(a.number) {
        let f = front(frames.out, a.written as usize);
        return put_waiting(switches, a.neighbour, f, waiting, tail);
    }
    if a.beside == 0 {
        return tail;
    }
    let f = front(frames.beside, a.beside as usize);
    put_waiting(switches, a.beside_neighbour, f, waiting, tail)
}

// The reply that has waited longest, or nothing.
fn first_waiting(
    switches: &Switches,
    waiting: &[u8],
    head: usize,
    tail: usize,
    cur: &mut [u8; 2048],
) -> Option<At>
    requires { Queue switches.now waiting.now head tail }
    ensures { Leads switches.now waiting.now head tail cur.new result first_waiting }
{
    if head == tail {
        return None;
    }
    let from = head * 579;
    let slot = &waiting[from..];
    let i = usize::from(slot[0]);
    let size = usize::from(octets::be16(slot, 1));
    octets::copy(cur, 0, &slot[3..3 + size]);
    Some(At {
        switch: i,
        replied: true,
        size,
        head: head + 1,
        tail,
    })
}

// Where a frame that is forwarded goes, if that is a switch of the campus.
#[tactic(auto, unfolding(crate::specs::Queue::sent_to))]
fn sent_to(switches: &Switches, a: Answer) -> Option<usize>
    requires { IsSound switches.now }
    ensures { result ≡ sent_to switches.now a }
{
    if a.number != Number::Forwarded as u16 {
        return None;
    }
    switches.find(a.neighbour)
}

// A forwarded frame in its place for the next handling. Its first eight octets by themselves: so the Ethertype and the TRILL header, which that
// handling reads in one, are written in one.
fn copy_back(cur: &mut [u8; 2048], f: &[u8])
    requires { (8 ≤ length f.now) × (length f.now ≤ 2048) }
    ensures { cur.new ≡ put cur.old 0 f.now }
{
    octets::copy(cur, 8, &f[8..]);
    octets::copy(cur, 0, &f[..8]);
}

// The frame that was forwarded, if it stays in the campus; else the reply that has waited longest.
fn next_of(
    switches: &Switches,
    a: Answer,
    at: At,
    tail: usize,
    waiting: &[u8],
    frames: &mut Frames,
) -> Option<At>
    requires { NextReady switches.now a waiting.now at.head tail }
    ensures { Leads switches.now waiting.now at.head tail frames.new.current.now result
        (onward_by (all_of switches.now) (kind_by at.replied) a frames.old.out.now) }
{
    let Some(i) = sent_to(switches, a) else {
        return first_waiting(switches, waiting, at.head, tail, frames.current);
    };
    let size = a.written as usize;
    copy_back(frames.current, front(frames.out, size));
    Some(At {
        switch: i,
        replied: at.replied,
        size,
        head: at.head,
        tail,
    })
}

// What is next, once the reply that a handling made waits.
fn go_on(
    switches: &Switches,
    a: Answer,
    at: At,
    frames: &mut Frames,
    waiting: &mut [u8],
) -> Option<At>
    requires { OnwardReady switches.now a at frames.old.out.now frames.old.beside.now waiting.old }
    ensures { Onwarded switches.now a at frames.old.out.now frames.old.beside.now
        waiting.old waiting.new frames.new.current.now result }
{
    let tail = wait(switches, a, frames, waiting, at.tail);
    next_of(switches, a, at, tail, waiting, frames)
}

// One handling, with its entry and its replies, and what is next.
fn turn(
    switches: &Switches,
    clock: &[u8; 6],
    at: At,
    frames: &mut Frames,
    waiting: &mut [u8],
    trace: &mut [u8],
    k: usize,
) -> Option<At>
    requires { TurnReady switches.now clock.now at frames.old.current.now waiting.old trace.old k }
    ensures { Turned switches.now clock.now at frames.old.current.now frames.new.current.now
        waiting.old waiting.new trace.old trace.new k result }
{
    let a = step(switches, clock, at, frames, trace, k);
    go_on(switches, a, at, frames, waiting)
}

// The frame that enters, where it is handled first.
fn begin(cur: &mut [u8; 2048], first: usize, frame: &[u8]) -> At
    requires { length frame.now ≤ 2048 }
    ensures { Begun first frame.now cur.new result }
{
    octets::copy(cur, 0, frame);
    At {
        switch: first,
        replied: false,
        size: frame.len(),
        head: 0,
        tail: 0,
    }
}

// The run from one switch on, at most 4,096 handlings; slots of 579 octets are lent for the replies that wait.
fn run_from(
    switches: &Switches,
    first: usize,
    clock: &[u8; 6],
    frame: &[u8],
    waiting: &mut [u8],
    trace: &mut [u8],
) -> u32
    requires { LoopReady switches.now first clock.now frame.now waiting.old trace.old }
    ensures { Ran (run_of switches.now first clock.now frame.now)
        trace.old trace.new result }
{
    let mut current = [0u8; 2048];
    let mut out = [0u8; 2048];
    let mut beside = [0u8; 576];
    let mut at = begin(&mut current, first, frame);
    let mut frames = Frames {
        current: &mut current,
        out: &mut out,
        beside: &mut beside,
    };
    for k in 0..HANDLINGS_MOST {
        let r = turn(switches, clock, at, &mut frames, waiting, trace, k);
        let Some(next) = r else {
            return k as u32 + 1;
        };
        at = next;
    }
    HANDLINGS_MOST as u32
}

// In a campus without an edition 2 switch one reply arises at most, in any 63.
fn run_at(
    s: &[u8],
    switches: &Switches,
    clock: Option<usize>,
    entry: usize,
    two: bool,
    first: usize,
    v: &[u8],
    trace: &mut [u8],
) -> u32
    requires { EntryReady s.now switches.now clock entry first v.now trace.old
        × (two ≡ some_edition2 (all_of switches.now)) }
    ensures { Ran (states_of s.now) trace.old trace.new result }
{
    let octets = clock_of(s, clock);
    let frame = between(v, 2, v.len());
    if two {
        let mut slots = [0u8; 36477];
        return run_from(switches, first, &octets, frame, &mut slots, trace);
    }
    let mut slot = [0u8; 579];
    run_from(switches, first, &octets, frame, &mut slot, trace)
}

// The run of what was read.
pub fn run(
    s: &[u8],
    switches: &Switches,
    clock: Option<usize>,
    entry: usize,
    two: bool,
    trace: &mut [u8],
) -> u32
    requires { RunReady s.now switches.now clock entry trace.old
        × (two ≡ some_edition2 (all_of switches.now)) }
    ensures { Ran (states_of s.now) trace.old trace.new result }
{
    let v = between(s, entry + 3, s.len());
    let Some(i) = switches.find(octets::be16(v, 0)) else {
        return 0;
    };
    run_at(s, switches, clock, entry, two, i, v, trace)
}
