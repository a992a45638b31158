// Prints the run of the description on standard input (document 01, "Campus description and run").

#![tactic(auto)]

ghost use Rattle.std.specs.Prelude.{◌≤◌, length, IfOk};
ghost use Rattle.text.specs.Print.{TextWhole};

use std::io;
use std::io::{Read, Write};

// What is printed of a description; the buffer is never too small for it.
fn text_of(description: &[u8], text: &mut [u8]) -> usize
    requires { 73741 ≤ length text.old }
    ensures { TextWhole description.now text.new result }
{
    text::campus_text(description, text).written as usize
}

// How many octets were read: all that `buf` takes, or fewer where the input ends.
fn read_full<R: Read>(input: &mut R, buf: &mut [u8]) -> io::Result<usize>
    ensures { IfOk result (λ n. n ≤ length buf.new) }
{
    let mut done = 0;
    while done < buf.len() {
        let n = input.read(&mut buf[done..])?;
        if n == 0 {
            break;
        }
        done += n;
    }
    Ok(done)
}

fn main(rt: HostRuntime) -> io::Result<()> {
    // Twice what a description may have: of a longer one this much is read, and it is refused all the same.
    let mut description = [0u8; 65536];
    let read = read_full(&mut rt.stdin(), &mut description)?;
    let mut text = [0u8; 73741];
    let size = text_of(&description[..read], &mut text);
    rt.stdout().write_all(&text[..size])
}
