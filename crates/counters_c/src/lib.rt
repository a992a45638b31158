// The counted call, for C.

#![tactic(auto)]

ghost use Rattle.counters.specs.Counting.{call_of, counted, CallDone};

use counters::Counters;
use handler::Answer;

#[unsafe(no_mangle)]
pub extern "C" fn trill_handle_counted(
    counters: &mut Counters,
    frame: &[u8],
    settings: &[u8],
    clock: &[u8],
    out: &mut [u8],
    beside: &mut [u8],
) -> Answer
    ensures { CallDone
        (counted counters.old (call_of settings.now clock.now out.old beside.old frame.now))
        result counters.new out.old out.new beside.old beside.new }
{
    counters::trill_handle_counted(counters, frame, settings, clock, out, beside)
}
