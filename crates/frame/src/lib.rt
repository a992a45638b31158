// The calls on settings octets under the names that C knows, which `frame_c` exports; as `prepared` has those on a store.

#![tactic(auto)]

ghost use Rattle.std.specs.Prelude.{length};
ghost use Rattle.rules.specs.Handling.{handled};
ghost use Rattle.rules.specs.WayOut.{way_out};
ghost use Rattle.handler.specs.Shapes.{WayDone};
ghost use Rattle.handler.specs.Tasks.{Both};

use handler::{Answer, WayOut};

pub fn trill_handle(
    frame: &[u8],
    settings: &[u8],
    clock: &[u8],
    out: &mut [u8],
    beside: &mut [u8],
) -> Answer
    ensures { Both
        (handled settings.now clock.now (length out.old) (length beside.old) frame.now)
        result out.old out.new beside.old beside.new }
{
    handler::handle(frame, settings, clock, out, beside)
}

// T-11: the link header towards a destination; 1, 21 or 2 where there is none.
pub fn trill_way_out(settings: &[u8], destination: u16, out: &mut [u8]) -> WayOut
    ensures { WayDone (way_out settings.now destination (length out.old)) result out.old out.new }
{
    handler::way_out(settings, destination, out)
}
