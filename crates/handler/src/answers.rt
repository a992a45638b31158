// The answer of one handling, made in one of four ways.
ghost use Rattle.std.specs.Prelude.{◌≡◌, ◌≤◌};
ghost use Rattle.rules.specs.Answer.{number_of};
ghost use Rattle.handler.specs.Shapes.{dropped_by, unwritten_by, wrote_by, beside_by};

use rules::Number;

// What the driver is answered. `neighbour` is the one used for what was written, 0 where nothing was; `beside` is the length of a reply made
// beside a forwarded frame, with its neighbour (document 02, T-09).
#[repr(C)]
#[derive(Clone, Copy)]
pub struct Answer {
    pub number: u16,
    pub written: u16,
    pub start: u16,
    pub length: u16,
    pub neighbour: u16,
    pub beside: u16,
    pub beside_neighbour: u16,
}

impl Answer {
    // With nothing written and nothing delivered.
    pub fn dropped(number: u16) -> Answer
        ensures { result ≡ dropped_by number }
    {
        Answer {
            number,
            written: 0,
            start: 0,
            length: 0,
            neighbour: 0,
            beside: 0,
            beside_neighbour: 0,
        }
    }
}

pub fn dropped(number: Number) -> Answer
    ensures { result ≡ dropped_by (number_of number) }
{
    Answer::dropped(number as u16)
}

// With nothing written: where an option is at fault, or where the inner frame is that is delivered.
pub fn unwritten(number: Number, start: usize, length: usize) -> Answer
    requires { (start ≤ 2048) × (length ≤ 2048) }
    ensures { result ≡ unwritten_by (number_of number) start length }
{
    Answer {
        number: number as u16,
        written: 0,
        start: start as u16,
        length: length as u16,
        neighbour: 0,
        beside: 0,
        beside_neighbour: 0,
    }
}

pub fn wrote(number: Number, written: usize, neighbour: u16) -> Answer
    requires { written ≤ 2048 }
    ensures { result ≡ wrote_by (number_of number) written neighbour }
{
    Answer {
        number: number as u16,
        written: written as u16,
        start: 0,
        length: 0,
        neighbour: neighbour,
        beside: 0,
        beside_neighbour: 0,
    }
}

// What a message is answered, which delivers nothing and has no reply beside it, by the fields that it has: all seven would be read eight octets
// at a time where they were just stored by two, and a processor waits for that.
pub fn copy_of_reply(a: Answer) -> Answer
    ensures { result ≡ wrote_by a.number a.written a.neighbour }
{
    Answer {
        number: a.number,
        written: a.written,
        start: 0,
        length: 0,
        neighbour: a.neighbour,
        beside: 0,
        beside_neighbour: 0,
    }
}

// With a reply beside it.
pub fn with_beside(a: Answer, reply: Answer) -> Answer
    ensures { result ≡ beside_by a reply }
{
    Answer {
        beside: reply.written,
        beside_neighbour: reply.neighbour,
        ..a
    }
}
