// A switch's settings as a prepared store, once for all frames: from settings octets, or field by field.

#![tactic(auto)]

mod preparing;

ghost use Rattle.rules.specs.Answer.{code_by};
ghost use Rattle.stores.specs.Store.{Prepared};
ghost use Rattle.stores.specs.Extend.{Opens, Extends};

use rules::Refusal;

// Settings octets into a store of 164 words or more, once for all frames: 0, 1 for bad settings, 2 for too few words.
pub fn trill_prepare(settings: &[u8], store: &mut [u64]) -> u32
    ensures { Prepared settings.now store.old store.new result }
{
    let mut w = [0u64; 164];
    if preparing::prepare(settings, &mut w).is_none() {
        return 1;
    }
    if store.len() < 164 {
        return 2;
    }
    store[..164].copy_from_slice(&w);
    0
}

// A store made field by field: for the switch of a tag 1 value, as yet without records. False for fewer than 4 words or no good switch.
pub fn store_open(store: &mut [u64], v: &[u8]) -> bool
    ensures { Opens store.old v.now result store.new }
{
    if store.len() < 4 {
        return false;
    }
    if !octets::opens(1, v) {
        return false;
    }
    preparing::open(store, v);
    true
}

// One more field into a store, or what refuses it.
pub fn store_extend(store: &mut [u64], tag: u8, v: &[u8]) -> Result<(), Refusal>
    ensures { Extends store.old tag v.now (code_by result) store.new }
{
    preparing::extend(store, tag, v)
}
