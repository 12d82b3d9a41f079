// Old and new layouts over old and new records. The claim, an instance of its premises and
// worked examples are in specs/, their proofs in proofs/. The call that packs by one layout and reads by the other:
// `read_back`.
#![tactic(auto)]

pub mod read_back;
