// What is printed of a campus run (document 01, "Campus description and run").

#![tactic(auto)]

mod printing;

ghost use Rattle.std.specs.Prelude.{◌+◌, ◌*◌, ◌≤◌, length};
ghost use Rattle.text.specs.Print.{text_of, Printable, Written, TextDone};

use rules::Refusal;

// What is written, 0 where the text does not fit, and how long the text is.
#[repr(C)]
#[derive(Clone, Copy)]
pub struct Printed {
    pub written: u32,
    pub needed: u32,
}

// Writes the text of an outcome to `out` first, since it might not fit.
fn put_apart(code: u32, count: u32, trace: &[u8], out: &mut [u8], text: &mut [u8]) -> Printed
    requires { Printable code count trace.now × (count * 20 + 13 ≤ length out.old) }
    ensures { Written (text_of code count trace.now) text.old text.new result.written result.needed }
{
    let size = printing::put_text(out, code, count, trace);
    if text.len() < size {
        return Printed {
            written: 0,
            needed: size as u32,
        };
    }
    octets::copy(text, 0, &out[..size]);
    Printed {
        written: size as u32,
        needed: size as u32,
    }
}

// Writes the text of an outcome: at once where no text of so many lines is too long. Kept apart: if it is inlined, its buffers lie on the
// stack during a run too.
#[inline(never)]
fn put_printed(code: u32, count: u32, trace: &[u8], text: &mut [u8]) -> Printed
    requires { Printable code count trace.now }
    ensures { Written (text_of code count trace.now) text.old text.new result.written result.needed }
{
    if count as usize * 20 + 13 <= text.len() {
        let size = printing::put_text(text, code, count, trace);
        return Printed {
            written: size as u32,
            needed: size as u32,
        };
    }
    if count <= 80 {
        let mut out = [0u8; 1613];
        return put_apart(code, count, trace, &mut out, text);
    }
    let mut out = [0u8; 81933];
    put_apart(code, count, trace, &mut out, text)
}

// What is printed for any campus.
fn text_of(description: &[u8], text: &mut [u8]) -> Printed
    ensures { TextDone description.now text.old text.new result.written result.needed }
{
    let mut trace = [0u8; 32768];
    let o = campus::campus_run(description, &mut trace);
    put_printed(o.code, o.count, &trace, text)
}

// What the program prints for a description. The least trace buffer is too small only for a campus with an edition 2 switch.
pub fn campus_text(description: &[u8], text: &mut [u8]) -> Printed
    ensures { TextDone description.now text.old text.new result.written result.needed }
{
    let mut trace = [0u8; 640];
    let o = campus::campus_run(description, &mut trace);
    if o.code == Refusal::TraceShort as u32 {
        return text_of(description, text);
    }
    put_printed(o.code, o.count, &trace, text)
}
