// The counters of one switch, lent to the handling call and updated where they are (T-07).

#![tactic(auto)]

ghost use Rattle.std.specs.Prelude.{◌≡◌, ◌<◌, false};
ghost use Rattle.rules.specs.Answer.{dropped};
ghost use Rattle.handler.specs.Shapes.{answer_of};
ghost use Rattle.counters.specs.Counting.{Above, full as full_of, one_more as one_more_of, call_of, counted, CallDone};

use handler::Answer;
use rules::Number;

// One counter for each answer number, and one for all of them.
#[repr(C)]
#[derive(Drop)]
pub struct Counters {
    pub by_answer: [u64; 64],
    pub total: u64,
}

impl Counters {
    // Every bit that some counter or the total has.
    fn bits_met(&self) -> u64
        ensures { Above self.now result }
    {
        let mut met = self.total;
        for count in &self.by_answer {
            met |= *count;
        }
        met
    }

    // Whether some counter or the total is at its greatest value. Seldom called, so kept apart: if it is inlined, a refused call takes a quarter
    // longer.
    #[inline(never)]
    fn some_greatest(&self) -> bool
        ensures { result ≡ full_of self.now }
    {
        let mut found = self.total == u64::MAX;
        for count in &self.by_answer {
            found |= *count == u64::MAX;
        }
        found
    }

    // The same. While no word has its highest bit, all are looked at by their bits alone, with no branch a word.
    fn is_full(&self) -> bool
        ensures { result ≡ full_of self.now }
    {
        self.bits_met() >= 1 << 63 && self.some_greatest()
    }

    // One more answer of this number.
    fn count(&mut self, number: u16)
        requires listed { number < 64 }
        requires room { full_of self.old ≡ false }
        ensures { self.new ≡ one_more_of self.old number }
    {
        let counter = &mut self.by_answer[usize::from(number)];
        *counter += 1;
        self.total += 1;
    }
}

// The handling over the counters where they are: 4 before all else, then the answer of the uncounted call, counted once.
pub fn trill_handle_counted(
    counters: &mut Counters,
    frame: &[u8],
    settings: &[u8],
    clock: &[u8],
    out: &mut [u8],
    beside: &mut [u8],
) -> Answer
    ensures { CallDone
        (counted counters.old (call_of settings.now clock.now out.old beside.old frame.now))
        result counters.new out.old out.new beside.old beside.new }
{
    if counters.is_full() {
        return Answer::dropped(Number::CounterFull as u16);
    }
    let answer = handler::handle(frame, settings, clock, out, beside);
    counters.count(answer.number);
    answer
}
