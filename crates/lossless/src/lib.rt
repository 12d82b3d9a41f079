// Reading loses nothing: a record that its layout fills is read and packed again, byte for byte.
// The claim is in specs/, its proof in proofs/. The call that reads a record and packs it again: `read_and_pack`.
#![tactic(auto)]

pub mod pack_again;
