// The calls on a prepared store under the names that C knows, which `prepared_c` exports. They are a library of their own: in it each step
// of a handling has one caller, and the compiler makes one function of them all.

#![tactic(auto)]

ghost use Rattle.std.specs.Prelude.{length};
ghost use Rattle.stores.specs.Store.{handled_in, way_out_in};
ghost use Rattle.handler.specs.Shapes.{WayDone};
ghost use Rattle.handler.specs.Tasks.{Both};

use handler::{Answer, WayOut};

pub fn trill_handle_prepared(
    frame: &[u8],
    store: &[u64],
    clock: &[u8],
    out: &mut [u8],
    beside: &mut [u8],
) -> Answer
    ensures { Both
        (handled_in store.now clock.now (length out.old) (length beside.old) frame.now)
        result out.old out.new beside.old beside.new }
{
    handler::handle_prepared(frame, store, clock, out, beside)
}

pub fn trill_way_out_prepared(store: &[u64], destination: u16, out: &mut [u8]) -> WayOut
    ensures { WayDone (way_out_in store.now destination (length out.old)) result out.old out.new }
{
    handler::way_out_prepared(store, destination, out)
}
