//! The rules that a plan of a link has to meet, and the numbers of a plan that meets them.
//!
//! Rules are tried by their numbers, and each at its items in order. Item 0 is the plan as a whole where a rule speaks
//! of it, and else the item is the place of a carrier or a flow, from 0. Y is the octets of a word, S and K the
//! carrier's `s` and `k`, and M its `m`. P and Q are the flow's `p` and `q`, and F its `frames`.
//!
//! | rule | item | sentence |
//! |---|---|---|
//! | 1 | 0 | `option` is 1 to 7. |
//! | 2 | 0 | There are 1 to 64 carriers and 1 to 8 flows. |
//! | 3 | 0 | In modes `tunnel` and `bytes` there is one flow, it has control, and it lists all carriers in order. |
//! | 4 | carrier | K divides 38,400, K is at most 96, S is 1 to 32·K, and S and K are coprime. |
//! | 5 | carrier | M is 4 to 20. |
//! | 6 | carrier | There are 1 to 4 pieces, none has size 0, and their sizes add up to 2·ceil(M·S/K) for method 1 and 2·M·ceil(S/K) for method 3. |
//! | 7 | carrier | For each piece `start` + `size` is at most 120·Y, the IQ bits of a basic frame. |
//! | 8 | carrier | No bit of a piece is shared with an earlier piece of the carrier or with a piece of an earlier carrier. |
//! | 9 | 0 | Flow ids are at most 255 and distinct, every `carriers` list is strictly ascending, each carrier is in exactly one flow, no other number is listed, and exactly one flow has control. |
//! | 10 | flow | `frames` is 1 to 64, and the payload has 1 to 1,492 octets. |
//! | 11 | flow | `lmin` is at most `lmax`, which is at most 100,000. |
//! | 12 | flow | `frames` − 1 + `lmax` is at most `playout`, which is at most 200,000. |
//! | 13 | flow | P and Q are 1 to 65,536, and P·Q is above (`lmax` − `lmin`) div `frames`. |
//! | 14 | flow | `cap` is 1 to 4,096, and at every tick t the packets i with (i+1)·F − 1 + `lmin` ≤ t ≤ (i+1)·F − 1 + `playout` number at most `cap`. |
//!
//! The payload has F times the octets of one basic frame in the flow. Those are 16·Y in mode `bytes` and 20·Y in mode
//! `tunnel`. In mode `aware` they are Y where the flow has control, and an eighth of its carriers' sizes, rounded up. The
//! size of a carrier is the sum of its pieces' sizes.
#![tactic(auto)]

mod checked;
mod container;
mod failure;
mod figures;
mod flow_rules;
mod flows;
mod laws;
mod payload;
mod rules;
mod sample_rate;
mod sharing;
mod timing;
mod word_size;

pub use checked::{Checked, Refused, check};
pub use figures::Figures;
pub use laws::{
    bits_have_one_carrier, bits_have_one_sample, bits_stand_in_pieces, verdicts_are_determined,
};
pub use sharing::Sharing;
pub use word_size::octets_of_word;
