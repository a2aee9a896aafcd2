//! Laws that tie the cut of a stream to the grammar of its texts, each the contract of a function that does nothing: why a
//! reader may believe that the definitions of `jp_cut` cut where values end.
#![tactic(auto)]

pub mod laws;
