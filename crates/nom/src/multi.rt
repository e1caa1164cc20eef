//! Repetition, folds, and parsers of data after a length.

pub use nom_multi::{
    Count, Fill, LengthCount, LengthData, LengthValue, Many0, Many1, ManyMN, ManyTill, count, fill,
    fill_buffer, length_count, length_data, length_value, many_m_n, many_till, many0, many1,
};
pub use nom_multi_fold::{
    Fold, FoldMany0, FoldMany0Alloc, FoldMany1, FoldMany1Alloc, FoldManyMN, Many, Many0Count,
    Many1Count, ManyMNCount, fold, fold_many_m_n, fold_many0, fold_many0_alloc, fold_many1,
    fold_many1_alloc, many, many_m_n_count, many0_count, many1_count,
};
pub use nom_separated::{SeparatedList0, SeparatedList1, separated_list0, separated_list1};
