// The printed text of a run, from its outcome and its trace.
ghost use Rattle.std.specs.Prelude.{◌≡◌, ◌++◌, ◌+◌, ◌*◌, ◌%◌, ◌≤◌, ◌<◌, length};
ghost use Rattle.rules.specs.Text.{hex_digit, decimal};
ghost use Rattle.text.specs.Print.{PutAt, letter_of, head_of, tail_of, line_of, text_of, Printable};
ghost use Rattle.std.specs.List.{flat_map};

// The low four bits in hex, upper case.
fn hex_digit(n: u8) -> u8
    ensures { result ≡ hex_digit (n % 16) }
{
    let d = n % 16;
    if d < 10 {
        return 48 + d;
    }
    55 + d
}

fn letter(kind: u8) -> u8
    ensures { result ≡ letter_of kind }
{
    if kind == 0 { b'O' } else { b'R' }
}

// A line before its answer.
fn line_head(e: &[u8; 8]) -> [u8; 7]
    ensures { result ≡ head_of e.now }
{
    [
        hex_digit(e[0] / 16),
        hex_digit(e[0]),
        hex_digit(e[1] / 16),
        hex_digit(e[1]),
        b' ',
        letter(e[2]),
        b' ',
    ]
}

// A line after its answer.
fn line_tail(e: &[u8; 8]) -> [u8; 9]
    ensures { result ≡ tail_of e.now }
{
    [
        b' ',
        hex_digit(e[4] / 16),
        hex_digit(e[4]),
        b' ',
        hex_digit(e[6] / 16),
        hex_digit(e[6]),
        hex_digit(e[7] / 16),
        hex_digit(e[7]),
        b'\n',
    ]
}

// The last decimal digit.
fn digit(n: u16) -> u8
    ensures { result ≡ 48 + n % 10 }
{
    48 + (n % 10) as u8
}

// Writes a number in decimal, and answers where it ends.
fn put_decimal(out: &mut [u8], at: usize, n: u16) -> usize
    requires { (at + 4 ≤ length out.old) × (n < 10000) }
    ensures { PutAt out.old out.new at result 4 (decimal n) }
{
    let last = digit(n);
    if n < 10 {
        return octets::copy(out, at, &[last]);
    }
    let tens = digit(n / 10);
    if n < 100 {
        return octets::copy(out, at, &[tens, last]);
    }
    let hundreds = digit(n / 100);
    if n < 1000 {
        return octets::copy(out, at, &[hundreds, tens, last]);
    }
    octets::copy(out, at, &[digit(n / 1000), hundreds, tens, last])
}

// Writes a number between two texts.
fn put_number(out: &mut [u8], at: usize, before: &[u8], n: u16, after: &[u8]) -> usize
    requires { (at + (length before.now + 4 + length after.now) ≤ length out.old) × (n < 10000) }
    ensures { PutAt out.old out.new at result (length before.now + 4 + length after.now)
        (before.now ++ decimal n ++ after.now) }
{
    let at = octets::copy(out, at, before);
    let at = put_decimal(out, at, n);
    octets::copy(out, at, after)
}

// Writes the line of a trace entry.
fn put_line(out: &mut [u8], at: usize, e: &[u8; 8]) -> usize
    requires { at + 20 ≤ length out.old }
    ensures { PutAt out.old out.new at result 20 (line_of e.now) }
{
    let head = line_head(e);
    let tail = line_tail(e);
    put_number(out, at, &head, u16::from(e[3]), &tail)
}

// Writes the lines of trace entries.
fn put_lines(out: &mut [u8], entries: &[[u8; 8]]) -> usize
    requires { length entries.now * 20 ≤ length out.old }
    ensures { PutAt out.old out.new 0 result (length entries.now * 20) (flat_map line_of entries.now) }
{
    let mut at = 0;
    for entry in entries {
        at = put_line(out, at, entry);
    }
    at
}

// Writes what is printed of an outcome.
pub fn put_text(out: &mut [u8], code: u32, count: u32, trace: &[u8]) -> usize
    requires { Printable code count trace.now × (count * 20 + 13 ≤ length out.old) }
    ensures { PutAt out.old out.new 0 result (count * 20 + 13) (text_of code count trace.now) }
{
    if code != 0 {
        return put_number(out, 0, b"refused ", code as u16, b"\n");
    }
    let (entries, _) = trace.as_chunks::<8>();
    let end = put_lines(out, &entries[..count as usize]);
    put_number(out, end, b"handled ", count as u16, b"\n")
}
