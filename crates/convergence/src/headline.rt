//! The headline.

ghost use Rattle.convergence.specs.Headline.{Headline, KeptTextsAreAlike, MergesAreAlike, SameMessagesEndAlike};
ghost use Rattle.convergence.specs.Headline.{WhatWaitsShowsNothing};

use crate::handed_in::{
    lemma_nothing_is_kept, lemma_taking_keeps, lemma_what_is_kept_is_closed,
    lemma_what_waits_stays_waiting,
};
use set_laws::closures::{lemma_nothing_is_good, lemma_there_is_one_closure};
use set_laws::unions::lemma_unions_are_sets;
use texts::laws::{
    lemma_a_text_shows_the_definition, lemma_merges_show_the_union,
    lemma_the_operations_determine_the_text,
};

/// A law: two texts that keep the same operations, and in which all that waits waits for a cause, are alike.
pub fn lemma_kept_texts_are_alike()
    ensures { KeptTextsAreAlike }
{
    lemma_what_is_kept_is_closed();
    lemma_there_is_one_closure();
    lemma_the_operations_determine_the_text();
}

/// A law: two new texts to which the same messages were handed, in any orders and with any repeats, end alike: where
/// memory was there, and a place for each operation that had to wait, and no identity was used twice.
pub fn lemma_the_same_messages_end_alike()
    ensures { SameMessagesEndAlike }
{
    lemma_nothing_is_good();
    lemma_nothing_is_kept();
    lemma_taking_keeps();
    lemma_what_waits_stays_waiting();
    lemma_kept_texts_are_alike();
}

/// A law: one text merged into the other, and the other into the one, are alike.
pub fn lemma_merges_are_alike_either_way()
    ensures { MergesAreAlike }
{
    lemma_merges_show_the_union();
    lemma_the_operations_determine_the_text();
    lemma_unions_are_sets();
}

/// A law: a message that waits, is a repeat or is refused changes nothing shown.
pub fn lemma_what_waits_shows_nothing()
    ensures { WhatWaitsShowsNothing }
{}

/// A law: the headline, in all its parts.
pub fn the_headline()
    ensures { Headline }
{
    lemma_the_operations_determine_the_text();
    lemma_a_text_shows_the_definition();
    lemma_kept_texts_are_alike();
    lemma_the_same_messages_end_alike();
    lemma_merges_show_the_union();
    lemma_merges_are_alike_either_way();
    lemma_what_waits_shows_nothing();
}
