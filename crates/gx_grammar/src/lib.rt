//! Grammars as data, the exact reading of texts by them, and the place of a refusal.
#![tactic(auto)]

pub mod decode;
pub mod examples;
mod laws;
pub mod place;

pub use laws::{
    HasLanguage, HasTexts, HasTokens, HasWorth, avoided_tokens_decide, characters_decide,
    chosen_tokens_are_lawful, each_token_is_lawful, fault_is_reached, first_tokens_start,
    front_opens, fronts_shorten, joined_tokens_are_avoided, leftmost_stands, less_may_follow,
    levels_suffice, looks_decide, low_ranks_shield, made_tokens_are_lawful, more_tokens_may_start,
    one_value, one_verdict, productions_are_exact, read_is_exact, repetition_goes_by_items,
    runs_are_fronts, sorted_decides, sorted_is_readable, spellings_are_apart, steps_compose,
    takings_shorten, tokens_are_avoided, tokens_are_lawful, tokens_decide, tokens_stay_avoided,
    unreadable_bytes_have_a_place, values_are_made, walks_are_lawful, words_are_spelled,
};
