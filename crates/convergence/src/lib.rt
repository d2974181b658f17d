//! The headline, as laws over what contracts see of replicas: what was taken in tells what is shown, whatever the
//! order of taking; what waits is taken in once its causes are; each call has one outcome; and sites that hand each other
//! what they lack show one text.
#![tactic(auto)]

pub mod handed_in;
pub mod headline;
pub mod meeting;
pub mod outcomes;
