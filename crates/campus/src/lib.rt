// A campus of switches over one frame (document 01, "Campus description and run").

#![tactic(auto)]

mod reading;
mod received;
mod refusals;
mod running;
mod switches;

ghost use Rattle.std.specs.Prelude.{◌≤◌, length, ◌≡◌};
ghost use Rattle.campus.specs.Stores.{words_for};
ghost use Rattle.campus.specs.Steps.{needed_by};
ghost use Rattle.rules.specs.Answer.{code_by};
ghost use Rattle.campus.specs.Done.{CampusDone, count_by};

use refusals::Draft;
use rules::Refusal;

// Octets of the trace buffer: 80 entries for a campus of edition 1, 4,096 where a switch has edition 2.
const TRACE_LEAST: usize = 640;

const TRACE_MOST: usize = 32768;

// What the caller is answered: 0 or the code that refuses, and the number of trace entries.
#[repr(C)]
#[derive(Clone, Copy)]
pub struct Outcome {
    pub code: u32,
    pub count: u32,
}

// The trace buffer that a campus with an edition 2 switch needs, or one without.
fn needed(two: bool) -> usize
    ensures { result ≡ needed_by two }
{
    if two { TRACE_MOST } else { TRACE_LEAST }
}

// The run, with words lent for the stores of the switches: a field takes up at most 4 words for 11 octets.
fn run_in(description: &[u8], words: &mut [u64], trace: &mut [u8]) -> Result<u32, Refusal>
    requires { (words_for (length description.now) ≤ length words.old) × (640 ≤ length trace.old) }
    ensures { CampusDone description.now trace.old trace.new (code_by result) (count_by result) }
{
    let mut draft = Draft {
        words,
        starts: [0; 16],
        count: 0,
        clock: None,
    };
    let entry = reading::read(description, &mut draft)?;
    let switches = draft.switches();
    let two = switches.has_edition_2();
    if trace.len() < needed(two) {
        return Err(Refusal::TraceShort);
    }
    let count = running::run(description, &switches, draft.clock, entry, two, trace);
    Ok(count)
}

// The run, with N words of its own for the stores.
fn run_with<const N: usize>(description: &[u8], trace: &mut [u8]) -> Result<u32, Refusal>
    requires words { words_for (length description.now) ≤ N }
    requires most { N ≤ 2118 }
    requires room { 640 ≤ length trace.old }
    ensures { CampusDone description.now trace.old trace.new (code_by result) (count_by result) }
{
    let mut words = [0u64; N];
    run_in(description, &mut words, trace)
}

// The run, with as many words as the description may take.
fn run_sized(description: &[u8], trace: &mut [u8]) -> Result<u32, Refusal>
    ensures { CampusDone description.now trace.old trace.new (code_by result) (count_by result) }
{
    if trace.len() < TRACE_LEAST {
        return Err(Refusal::TraceShort);
    }
    match description.len() {
        0..=203 => run_with::<80>(description, trace),
        204..=687 => run_with::<256>(description, trace),
        688..=1391 => run_with::<512>(description, trace),
        1392..=2799 => run_with::<1024>(description, trace),
        _ => run_with::<2118>(description, trace),
    }
}

// The run of a campus, with its trace.
pub fn campus_run(description: &[u8], trace: &mut [u8]) -> Outcome
    ensures { CampusDone description.now trace.old trace.new result.code result.count }
{
    match run_sized(description, trace) {
        Ok(count) => Outcome { code: 0, count },
        Err(refusal) => Outcome {
            code: refusal as u32,
            count: 0,
        },
    }
}
