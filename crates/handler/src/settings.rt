// The settings of one switch, read from the lent octets (document 01, "Settings").
ghost use Rattle.std.specs.Prelude.{◌≡◌, true, ◌/◌};
ghost use Rattle.rules.specs.Settings.{settings_of, newer};
ghost use Rattle.rules.specs.Campus.{known};
ghost use Rattle.octets.specs.Records.{hop_by};
ghost use Rattle.handler.specs.Shapes.{Owns, switch_at};

use crate::switch::Switch;
use crate::validation;
use crate::validation::Validated;
use crate::way::{Lookup, Own};
use octets::Record;
use rules::{FieldRead, NextHop};

pub fn own_of(s: &[u8]) -> Own
    ensures { Owns result (switch_at s.now) }
{
    let Some(FieldRead { next, .. }) = octets::field_at(s, 0) else {
        return Own {
            nickname: 0,
            word: 0,
        };
    };
    let v = &s[3..next];
    Own {
        nickname: octets::be16(v, 0),
        word: octets::be64(v, 0) << 16,
    }
}

// The record that rules once one more is seen.
#[tactic(auto, unfolding(rules::specs::Settings::newer))]
pub fn newer(d: u16, best: Option<NextHop>, more: Record) -> Option<NextHop>
    ensures { result ≡ newer d best (hop_by more) }
{
    let r = octets::hop_of(more);
    if r.destination != d {
        return best;
    }
    match best {
        Some(q) if r.serial <= q.serial => Some(q),
        _ => Some(r),
    }
}

// Settings octets that are good, with what they say of the destination that a frame asks for.
#[derive(Clone, Copy)]
pub struct Checked<'a> {
    pub octets: &'a [u8],
    pub own: Own,
    pub found: Validated,
    ghost good: { known (settings_of octets.now) ≡ true },
    ghost named: { own.nickname ≡ (switch_at octets.now).nickname },
    ghost addressed: { own.word / 65536 ≡ (switch_at octets.now).mac },
    ghost strips: { found.strip ≡ (switch_at octets.now).strip },
    ghost edition: { found.rfc7179 ≡ (switch_at octets.now).rfc7179 },
}

impl Switch for Checked<'_> {
    ghost says = { λ s. switch_at s.octets.now };

    ghost finds = { λ s d. s.found.hop ≡ (switch_at s.octets.now).hop d };

    #[inline(always)]
    fn own(self) -> Own {
        self.own
    }

    #[inline(always)]
    fn strip(self) -> bool {
        self.found.strip
    }

    #[inline(always)]
    fn rfc7179(self) -> bool {
        self.found.rfc7179
    }

    #[inline(always)]
    fn lookup(self, d: u16) -> Lookup {
        Lookup {
            own: self.own,
            strip: self.found.strip,
            rfc7179: self.found.rfc7179,
            hop: self.found.hop,
        }
    }

    // The octets are read once more.
    #[inline(always)]
    fn asking(self, d: u16) -> Self {
        let Some(found) = validation::validate(self.octets, d) else {
            unreachable!();
        };
        Checked {
            octets: self.octets,
            own: self.own,
            found,
        }
    }
}
