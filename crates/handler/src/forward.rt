// A forwarded frame behind its link header: TRILL header with hop count one less and the new Op-Length, area, inner frame.
ghost use Rattle.std.specs.Prelude.{◌≡◌, ◌+◌, ◌≤◌, ◌<◌, length};
ghost use Rattle.rules.specs.Header.{hop_count, area_of};
ghost use Rattle.octets.specs.Copy.{Wrote};
ghost use Rattle.handler.specs.Shapes.{sent_by, header_sent, rest_with};

use crate::frame::Frame;
use crate::header;

// The first word as sent, for an area of `words` words.
fn sent_word(w: u16, words: u16) -> u16
    requires few { words < 32 }
    requires left { 0 < hop_count w }
    ensures { result ≡ sent_by w words }
{
    header::header_word(
        header::version(w),
        header::reserved(w),
        header::multi(w),
        words,
        header::hop_count(w) - 1,
    )
}

// The header from `at` on, the nicknames as they were received; says where it ends.
fn write_header(frame: Frame<'_>, words: u16, out: &mut [u8], at: usize) -> usize
    requires few { words < 32 }
    requires room { at + 6 ≤ length out.old }
    ensures { Wrote (header_sent frame.entry.octets.now frame.entry.header words) at result out.old out.new }
{
    let word = octets::two(sent_word(frame.header.word, words));
    let at = octets::copy(out, at, &word);
    let egress = frame.header.place + 2;
    octets::copy(out, at, &frame.octets[egress..egress + 4])
}

// With another area than the one received; from `at` on, and says where it ends.
pub fn forward_with(area: &[u8], frame: Frame<'_>, out: &mut [u8], at: usize) -> usize
    requires few { length area.now ≤ 124 }
    requires room { at + length (rest_with area.now frame.octets.now frame.header) ≤ length out.old }
    ensures { Wrote (rest_with area.now frame.entry.octets.now frame.entry.header) at result out.old out.new }
{
    let at = write_header(frame, (area.len() / 4) as u16, out, at);
    let at = octets::copy(out, at, area);
    octets::copy(out, at, frame.inner())
}

// All behind the first word as it is, in one.
pub fn forward_whole(frame: Frame<'_>, out: &mut [u8], at: usize) -> usize
    requires room { at + length (rest_with (area_of frame.octets.now frame.header) frame.octets.now frame.header) ≤ length out.old }
    ensures { Wrote (rest_with (area_of frame.entry.octets.now frame.entry.header) frame.entry.octets.now frame.entry.header) at result out.old out.new }
{
    let word = octets::two(sent_word(frame.header.word, frame.op_length()));
    let at = octets::copy(out, at, &word);
    let egress = frame.header.place + 2;
    octets::copy(out, at, &frame.octets[egress..])
}
