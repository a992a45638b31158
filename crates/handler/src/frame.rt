// A frame that is received: none of 10 to 18 is given.
ghost use Rattle.std.specs.Prelude.{◌≡◌, length};
ghost use Rattle.handler.specs.Shapes.{Ready};

use crate::header;
use rules::Header;

// Its octets, the header that was read of them, and the time received. It is made in one place, `handling::read`.
#[derive(Clone, Copy)]
pub struct Frame<'a> {
    pub octets: &'a [u8],
    pub header: Header,
    pub time: &'a [u8; 6],
    ghost ready: { Ready octets.now header },
    ghost timed: { length time.now ≡ 6 },
}

impl<'a> Frame<'a> {
    ghost use Rattle.std.specs.Prelude.{◌≡◌};
    ghost use Rattle.rules.specs.Header as Rules;
    ghost use Rattle.handler.specs.Tasks.{wanted_by};

    pub fn op_length(self) -> u16
        ensures { result ≡ Rules.op_length self.entry.header.word }
    {
        header::op_length(self.header.word)
    }

    // Where the inner frame begins.
    pub fn inner_start(self) -> usize
        ensures { result ≡ Rules.inner_start self.entry.header }
    {
        header::inner_start(self.header)
    }

    pub fn inner(self) -> &'a [u8]
        ensures { result.now ≡ Rules.inner_of self.entry.octets.now self.entry.header }
    {
        let start = self.inner_start();
        &self.octets[start..]
    }

    pub fn area(self) -> &'a [u8]
        ensures { result.now ≡ Rules.area_of self.entry.octets.now self.entry.header }
    {
        let start = self.header.place + 6;
        let end = self.inner_start();
        &self.octets[start..end]
    }

    pub fn is_to_us(self, nickname: u16) -> bool
        ensures { result ≡ Rules.we_are_egress nickname self.entry.header }
    {
        if self.header.egress == nickname {
            return true;
        }
        self.header.egress == rules::ANY_RBRIDGE
    }

    // The destination that a next hop is asked for.
    pub fn wanted(self, nickname: u16) -> u16
        ensures { result ≡ wanted_by nickname self.entry.header }
    {
        if self.is_to_us(nickname) {
            return self.header.ingress;
        }
        self.header.egress
    }
}
