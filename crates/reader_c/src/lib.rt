// The calls of the reader, for C.

#![tactic(auto)]

ghost use Rattle.std.specs.Prelude.{length};
ghost use Rattle.reader.specs.Bursts.{Started, burst, BurstDone, mark, MarkDone};

use handler::Answer;

#[unsafe(no_mangle)]
pub extern "C" fn trill_reader_start(
    reader: &mut [u64],
    settings: &[u8],
    clock: &[u8],
    room: usize,
    beside_room: usize,
) -> u32
    ensures { Started settings.now clock.now room beside_room reader.old reader.new result }
{
    reader::trill_reader_start(reader, settings, clock, room, beside_room)
}

#[unsafe(no_mangle)]
pub extern "C" fn trill_reader_burst(reader: &mut [u64], gathered: &mut [u8], octets: &[u8]) -> u32
    ensures { BurstDone (burst reader.old gathered.old octets.now) result reader.new gathered.new }
{
    reader::trill_reader_burst(reader, gathered, octets)
}

#[unsafe(no_mangle)]
pub extern "C" fn trill_reader_mark(
    reader: &mut [u64],
    gathered: &[u8],
    out: &mut [u8],
    beside: &mut [u8],
) -> Answer
    ensures { MarkDone (mark reader.old gathered.now (length out.old) (length beside.old)) result
        reader.new out.old out.new beside.old beside.new }
{
    reader::trill_reader_mark(reader, gathered, out, beside)
}
