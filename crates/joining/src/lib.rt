// Records packed by layouts one after the other: packing by two layouts joined gives the two
// results joined. The claim is in specs/, its proof in proofs/. The call that packs two: `pack_both`.
#![tactic(auto)]

pub mod pack_both;
