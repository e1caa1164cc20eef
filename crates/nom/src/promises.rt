//! The promises of every parser, and of combinators, iterators, permutations, lists, counts and folds.
//!
//! Others say when lists and texts may run out of memory, where prefixes and rests are, and that they keep
//! their label.

pub use crate::growths::{
    count_grows_by_items, escaped_transform_grows_by_pieces, length_count_grows_by_items,
    many_grows_by_items, many_m_n_grows_by_items, many_till_grows_by_items, many0_grows_by_items,
    many1_grows_by_items, separated_list0_grows_by_items, separated_list1_grows_by_items,
};
pub use nom_branch::promises::applies_each_once;
pub use nom_calls::promises::{finishes_so, gives_items, items_are_one, items_fit, items_stay};
pub use nom_combinator::promises::{
    complete_never_waits, consumed_gives_front, cut_never_refuses, not_consumes_nothing,
    opt_never_refuses, peek_consumes_nothing, recognize_gives_front,
};
pub use nom_internal::promises::{
    accepts_fronts, answers_complete, answers_stay, has_no_failure, has_one_outcome,
    is_complete_too, never_runs_out, stays_on_longer,
};
pub use nom_located::promises::{
    counts_characters, front_keeps_extra, rest_keeps_extra, stands_after, stands_there,
};
pub use nom_multi::length_promises::length_count_accepts;
pub use nom_multi::promises::{
    count_accepts, has_few_items, many_m_n_accepts, many_till_accepts, many0_accepts,
    many1_accepts, refuses_at_empty,
};
pub use nom_multi_fold::promises::{
    fold_accepts, fold_many_m_n_accepts, fold_many0_accepts, fold_many1_accepts, many_accepts,
    many_m_n_count_accepts, many0_count_accepts, many1_count_accepts, many1_count_counts,
};
pub use nom_separated::promises::{separated_list0_accepts, separated_list1_accepts};
