// The extended flags word of edition 2 (RFC 7179, 2), which the caller has read from the area.
ghost use Rattle.std.specs.Prelude.{◌≡◌, ◌||◌, ◌&&◌};
ghost use Rattle.rules.specs.Extension as E;

fn cr_hbh(w: u32) -> bool
    ensures { result ≡ E.cr_hbh w }
{
    w >> 31 & 1 != 0
}

fn cr_ite(w: u32) -> bool
    ensures { result ≡ E.cr_ite w }
{
    w >> 30 & 1 != 0
}

fn cr_rsv(w: u32) -> bool
    ensures { result ≡ E.cr_rsv w }
{
    w >> 29 & 1 != 0
}

fn hop_by_hop_flag(w: u32) -> bool
    ensures { result ≡ E.hop_by_hop_flag w }
{
    w >> 24 & 31 != 0
}

fn unknown_hop_by_hop_flag(w: u32) -> bool
    ensures { result ≡ E.unknown_hop_by_hop_flag w }
{
    w >> 25 & 15 != 0
}

fn ingress_to_egress_flag(w: u32) -> bool
    ensures { result ≡ E.ingress_to_egress_flag w }
{
    w >> 5 & 63 != 0
}

fn reserved_flag(w: u32) -> bool
    ensures { result ≡ E.reserved_flag w }
{
    w >> 15 & 7 != 0
}

pub fn critical_alert(w: u32) -> bool
    ensures { result ≡ E.critical_alert w }
{
    w >> 24 & 1 != 0
}

fn non_critical_alert(w: u32) -> bool
    ensures { result ≡ E.non_critical_alert w }
{
    w >> 23 & 1 != 0
}

pub fn some_alert(w: u32) -> bool
    ensures { result ≡ (E.critical_alert w || E.non_critical_alert w) }
{
    critical_alert(w) || non_critical_alert(w)
}

#[tactic(auto, unfolding(rules::specs::Extension::flag_unsummarized))]
fn flag_unsummarized(w: u32) -> bool
    ensures { result ≡ E.flag_unsummarized w }
{
    (hop_by_hop_flag(w) && !cr_hbh(w))
        || (ingress_to_egress_flag(w) && !cr_ite(w))
        || (reserved_flag(w) && !cr_rsv(w))
}

#[tactic(auto, unfolding(rules::specs::Extension::summary_bare))]
fn summary_bare(w: u32) -> bool
    ensures { result ≡ E.summary_bare w }
{
    (cr_hbh(w) && !hop_by_hop_flag(w))
        || (cr_ite(w) && !ingress_to_egress_flag(w))
        || (cr_rsv(w) && !reserved_flag(w))
}

// 38
pub fn refused(w: u32, single: bool) -> bool
    ensures { result ≡ (E.flag_unsummarized w || (single && E.summary_bare w)) }
{
    flag_unsummarized(w) || (single && summary_bare(w))
}

// 20
#[tactic(auto, unfolding(rules::specs::Extension::extension_stops))]
pub fn stops(egress: bool, w: u32) -> bool
    ensures { result ≡ E.extension_stops egress w }
{
    unknown_hop_by_hop_flag(w) || (cr_hbh(w) && !hop_by_hop_flag(w)) || (egress && cr_ite(w))
}
