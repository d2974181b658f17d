//! Texts for C: a handle holds a site's replica of a text, and each call does to it what a replica's call does; notes alike.
#![tactic(auto)]

mod asking;
mod editing;
mod exports;
mod feeding;
mod handle;
mod history;
mod inputs;
mod keeping;
mod loose;
mod naming;
mod note_base;
mod note_exports;
mod note_handle;
mod note_session;
mod numbers;
mod outputs;
mod past_exports;
mod past_handle;
mod session;
mod showing;
