// The description's fields, read once, each switch into its store: the refusal, or what the run needs.
ghost use Rattle.std.specs.Prelude.{◌≡◌, ◌+◌, ◌≤◌, ◌<◌, length};
ghost use Rattle.rules.specs.Answer.{code_by};
ghost use Rattle.campus.specs.Places.{code_after, clocked_by, counted_by};
ghost use Rattle.campus.specs.Stores.{words_for, ReadDone};

use crate::refusals;
use crate::refusals::Draft;
use rules::{FieldRead, Refusal};

// Octets of a description.
const FILE_MOST: usize = 32768;

// Nothing stands behind the entry field, or what is there refuses the description.
#[tactic(auto, unfolding(crate::specs::Places::code_after))]
fn end_at(s: &[u8], at: usize) -> Result<(), Refusal>
    ensures { code_by result ≡ code_after s.now at }
{
    if s.len() <= at {
        return Ok(());
    }
    let Some(FieldRead { tag, length, .. }) = octets::field_at(s, at) else {
        return Err(Refusal::FieldCut);
    };
    if !refusals::length_good(tag, length) {
        return Err(Refusal::BadLength);
    }
    Err(Refusal::OutOfPlace)
}

// The place of the clock once the field at a place is read.
#[tactic(auto, unfolding(crate::specs::Places::clocked_by))]
fn clocked(clock: Option<usize>, tag: u8, at: usize, next: usize) -> Option<usize>
    requires { at + 3 ≤ next }
    ensures { result ≡ clocked_by clock tag at }
{
    if tag == 4 { Some(at + 3) } else { clock }
}

// The number of switches once a field is read.
#[tactic(auto, unfolding(crate::specs::Places::counted_by))]
fn counted(count: usize, tag: u8) -> usize
    requires { count ≤ 16 }
    ensures { result ≡ counted_by count tag }
{
    if tag == 1 { count + 1 } else { count }
}

// Reads a description; the place of its entry field, if it is accepted.
pub fn read(s: &[u8], draft: &mut Draft) -> Result<usize, Refusal>
    requires words { words_for (length s.now) ≤ length draft.old.words.now }
    requires count { draft.old.count ≡ 0 }
    requires clock { draft.old.clock ≡ None }
    ensures { ReadDone s.now draft.new result }
{
    if FILE_MOST < s.len() {
        return Err(Refusal::FileLong);
    }
    let mut at = 0;
    while at < s.len() {
        let Some(FieldRead { tag, next, .. }) = octets::field_at(s, at) else {
            return Err(Refusal::FieldCut);
        };
        draft.take(tag, &s[at + 3..next])?;
        if tag == 5 {
            end_at(s, next)?;
            return Ok(at);
        }
        draft.clock = clocked(draft.clock, tag, at, next);
        draft.count = counted(draft.count, tag);
        at = next;
    }
    Err(Refusal::OutOfPlace)
}
