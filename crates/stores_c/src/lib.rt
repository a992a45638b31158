// The call that prepares settings, for C.

#![tactic(auto)]

ghost use Rattle.stores.specs.Store.{Prepared};

#[unsafe(no_mangle)]
pub extern "C" fn trill_prepare(settings: &[u8], store: &mut [u64]) -> u32
    ensures { Prepared settings.now store.old store.new result }
{
    stores::trill_prepare(settings, store)
}
