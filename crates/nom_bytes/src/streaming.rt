//! Parsers of items that always run in streaming mode, whatever mode is requested.
ghost use Rattle.std.specs.Prelude.{◌≡◌};

use crate::predicate::{Outside, Unless, Where, Within};
use crate::{
    Fixed, SplitPosition, SplitPosition1, Tag, TagNoCase, Take, TakeUntil, TakeUntil1, TakeWhileMN,
};
use nom_error::kind::ErrorKind;
use nom_error::mode::Streaming;
use nom_internal::one_mode::fixed;
use nom_traits::convert::ToUsize;

/// Works like `bytes::take`, always in streaming mode.
#[inline(always)]
pub fn take<C: ToUsize + Drop, I, E>(count: C) -> Fixed<Take<I, E>, Streaming>
    ensures { result.parser.count ≡ C.size count }
{
    fixed(crate::take(count))
}

/// Works like `bytes::tag`, always in streaming mode.
#[inline(always)]
pub fn tag<T: Copy, I, E>(tag: T) -> Fixed<Tag<T, I, E>, Streaming>
    ensures { result.parser.tag ≡ tag }
{
    fixed(crate::tag(tag))
}

/// Works like `bytes::tag_no_case`, always in streaming mode.
#[inline(always)]
pub fn tag_no_case<T: Copy, I, E>(tag: T) -> Fixed<TagNoCase<T, I, E>, Streaming>
    ensures { result.parser.tag ≡ tag }
{
    fixed(crate::tag_no_case(tag))
}

/// Works like `bytes::take_while`, always in streaming mode.
#[inline(always)]
pub fn take_while<F, I, E>(test: F) -> Fixed<SplitPosition<Where<F>, I, E>, Streaming>
    ensures { result.parser.predicate.test ≡ test }
{
    fixed(crate::take_while(test))
}

/// Works like `bytes::take_while1`, always in streaming mode.
#[inline(always)]
pub fn take_while1<F, I, E>(test: F) -> Fixed<SplitPosition1<Where<F>, I, E>, Streaming>
    ensures predicate { result.parser.predicate.test ≡ test }
    ensures kind { result.parser.kind ≡ ErrorKind.TakeWhile1 }
{
    fixed(crate::take_while1(test))
}

/// Works like `bytes::take_till`, always in streaming mode.
#[inline(always)]
pub fn take_till<F, I, E>(test: F) -> Fixed<SplitPosition<Unless<F>, I, E>, Streaming>
    ensures { result.parser.predicate.test ≡ test }
{
    fixed(crate::take_till(test))
}

/// Works like `bytes::take_till1`, always in streaming mode.
#[inline(always)]
pub fn take_till1<F, I, E>(test: F) -> Fixed<SplitPosition1<Unless<F>, I, E>, Streaming>
    ensures predicate { result.parser.predicate.test ≡ test }
    ensures kind { result.parser.kind ≡ ErrorKind.TakeTill1 }
{
    fixed(crate::take_till1(test))
}

/// Works like `bytes::take_until`, always in streaming mode.
#[inline(always)]
pub fn take_until<T: Copy, I, E>(tag: T) -> Fixed<TakeUntil<T, I, E>, Streaming>
    ensures { result.parser.tag ≡ tag }
{
    fixed(crate::take_until(tag))
}

/// Works like `bytes::take_until1`, always in streaming mode.
#[inline(always)]
pub fn take_until1<T: Copy, I, E>(tag: T) -> Fixed<TakeUntil1<T, I, E>, Streaming>
    ensures { result.parser.tag ≡ tag }
{
    fixed(crate::take_until1(tag))
}

/// Works like `bytes::take_while_m_n`, always in streaming mode.
#[inline(always)]
pub fn take_while_m_n<F, I, E>(
    m: usize,
    n: usize,
    predicate: F,
) -> Fixed<TakeWhileMN<Where<F>, I, E>, Streaming>
    ensures least { result.parser.m ≡ m }
    ensures most { result.parser.n ≡ n }
    ensures predicate { result.parser.predicate.test ≡ predicate }
{
    fixed(crate::take_while_m_n(m, n, predicate))
}

/// Works like `bytes::is_a`, always in streaming mode.
#[inline(always)]
pub fn is_a<T, I, E>(list: T) -> Fixed<SplitPosition1<Within<T>, I, E>, Streaming>
    ensures predicate { result.parser.predicate.list ≡ list }
    ensures kind { result.parser.kind ≡ ErrorKind.IsA }
{
    fixed(crate::is_a(list))
}

/// Works like `bytes::is_not`, always in streaming mode.
#[inline(always)]
pub fn is_not<T, I, E>(list: T) -> Fixed<SplitPosition1<Outside<T>, I, E>, Streaming>
    ensures predicate { result.parser.predicate.list ≡ list }
    ensures kind { result.parser.kind ≡ ErrorKind.IsNot }
{
    fixed(crate::is_not(list))
}
