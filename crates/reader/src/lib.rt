// A reader that is fed a frame in bursts, and then an end mark (T-04). It is words that the caller lends, beside a buffer in which the octets
// gather. Any words are taken: what they mean is said in specs/.

#![tactic(auto)]

ghost use Rattle.std.specs.Prelude.{◌≡◌, ◌∷◌, length, drop, ◌≤◌, OnOk};
ghost use Rattle.rules.specs.Answer.{number_of, number_by};
ghost use Rattle.stores.specs.Store.{Prepared};
ghost use Rattle.handler.specs.Tasks.{Both};
ghost use Rattle.reader.specs.Bursts.{store_in, start_refusal, Started, stopped, said_by, said_of, burst, BurstDone, gathered_handled, mark, MarkDone};

use handler::Answer;
use rules::Number;

// The words of a reader: the clock, how many octets are gathered, the early answer or 0, whether a mark came, and from STORE on the store.
const CLOCK: usize = 0;

const COUNT: usize = 1;

const EARLY: usize = 2;

const ENDED: usize = 3;

const STORE: usize = 4;

const WORDS: usize = 168;

fn code(number: Number) -> u16
    ensures { result ≡ number_of number }
{
    number as u16
}

// Why a burst or a mark comes to nothing.
#[derive(Clone, Copy)]
pub enum Stopped {
    // For a reason of its own.
    Refused(Number),
    // By the early answer that the words have, which may be any.
    Early(u16),
}

impl Stopped {
    fn number(self) -> u16
        ensures { result ≡ said_by self }
    {
        match self {
            Stopped::Refused(number) => code(number),
            Stopped::Early(number) => number,
        }
    }
}

// What refuses a start.
fn start_refusal(bad: bool, clock: usize, room: usize, beside_room: usize) -> Result<(), Number>
    ensures { number_by result ≡ start_refusal bad clock room beside_room }
{
    if bad {
        return Err(Number::BadSettings);
    }
    if clock != 6 {
        return Err(Number::BadSettings);
    }
    if room < rules::OUTPUT_LEAST {
        return Err(Number::OutputShort);
    }
    if beside_room < rules::BESIDE_LEAST {
        return Err(Number::BesideShort);
    }
    Ok(())
}

// The early answer of a start, or 0.
fn early_of(refusal: Result<(), Number>) -> u32
    ensures { result ≡ number_by refusal }
{
    match refusal {
        Ok(()) => 0,
        Err(number) => u32::from(code(number)),
    }
}

fn prepare_store(settings: &[u8], reader: &mut [u64]) -> u32
    requires { 4 ≤ length reader.old }
    ensures { Prepared settings.now (store_in reader.old) (store_in reader.new) result }
{
    stores::trill_prepare(settings, &mut reader[STORE..])
}

// The words before the store: nothing is gathered, and no mark was met.
fn begin(reader: &mut [u64], clock: u64, early: u32)
    requires { 4 ≤ length reader.old }
    ensures { reader.new ≡ clock ∷ 0 ∷ early ∷ 0 ∷ drop 4 reader.old }
{
    reader[..STORE].copy_from_slice(&[clock, 0, u64::from(early), 0]);
}

pub fn trill_reader_start(
    reader: &mut [u64],
    settings: &[u8],
    clock: &[u8],
    room: usize,
    beside_room: usize,
) -> u32
    ensures { Started settings.now clock.now room beside_room reader.old reader.new result }
{
    if reader.len() < WORDS {
        return Number::OutputShort as u32;
    }
    let prepared = prepare_store(settings, reader);
    let refusal = start_refusal(prepared != 0, clock.len(), room, beside_room);
    let early = early_of(refusal);
    begin(reader, octets::be48(clock, 0), early);
    early
}

// What is said before a burst is gathered or a frame handled.
fn goes_on(reader: &[u64], gathered: usize) -> Result<(), Stopped>
    ensures stops { result ≡ stopped reader.now gathered }
    ensures words { OnOk result (168 ≤ length reader.now) }
{
    if reader.len() < WORDS {
        return Err(Stopped::Refused(Number::OutputShort));
    }
    if reader[ENDED] != 0 {
        return Err(Stopped::Refused(Number::FrameEnded));
    }
    let early = (reader[EARLY] % 65536) as u16;
    if early != 0 {
        return Err(Stopped::Early(early));
    }
    if gathered < rules::FRAME_MOST {
        return Err(Stopped::Refused(Number::OutputShort));
    }
    Ok(())
}

// Takes in the octets of a burst.
fn gather(reader: &mut [u64], gathered: &mut [u8], octets: &[u8]) -> Result<(), Stopped>
    ensures { BurstDone (burst reader.old gathered.old octets.now) (said_of result) reader.new gathered.new }
{
    goes_on(reader, gathered.len())?;
    let place = reader[COUNT] as usize;
    let end = place.saturating_add(octets.len());
    if rules::FRAME_MOST < end {
        reader[EARLY] = Number::FrameLong as u64;
        return Err(Stopped::Refused(Number::FrameLong));
    }
    reader[COUNT] = octets::copy(gathered, place, octets) as u64;
    Ok(())
}

pub fn trill_reader_burst(reader: &mut [u64], gathered: &mut [u8], octets: &[u8]) -> u32
    ensures { BurstDone (burst reader.old gathered.old octets.now) result reader.new gathered.new }
{
    match gather(reader, gathered, octets) {
        Ok(()) => 0,
        Err(stopped) => u32::from(stopped.number()),
    }
}

// The octets gathered are handled where they are, by the store in the reader.
fn handle_gathered(reader: &[u64], gathered: &[u8], out: &mut [u8], beside: &mut [u8]) -> Answer
    requires { 168 ≤ length reader.now }
    ensures { Both (gathered_handled reader.now gathered.now (length out.old) (length beside.old)) result
        out.old out.new beside.old beside.new }
{
    let clock = octets::six(reader[CLOCK]);
    // The first octets of the buffer, or all of it.
    let frame = gathered.get(..reader[COUNT] as usize).unwrap_or(gathered);
    handler::handle_prepared(frame, &reader[STORE..], &clock, out, beside)
}

pub fn trill_reader_mark(
    reader: &mut [u64],
    gathered: &[u8],
    out: &mut [u8],
    beside: &mut [u8],
) -> Answer
    ensures { MarkDone (mark reader.old gathered.now (length out.old) (length beside.old)) result
        reader.new out.old out.new beside.old beside.new }
{
    match goes_on(reader, gathered.len()) {
        Ok(()) => {
            let answer = handle_gathered(reader, gathered, out, beside);
            reader[ENDED] = 1;
            answer
        }
        Err(Stopped::Refused(number)) => Answer::dropped(code(number)),
        Err(Stopped::Early(number)) => {
            reader[ENDED] = 1;
            Answer::dropped(number)
        }
    }
}
