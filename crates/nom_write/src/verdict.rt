//! Options, conditions, final refusals and errors with a name.
ghost use Rattle.nom_write.specs.laws.FirstSetLaws.{context_begins, no_first};
ghost use Rattle.nom_write.specs.Options.{CondFails, CondForm, OptFails, OptForm, WhereRun};
ghost use Rattle.nom_write.specs.Reads.{NoItem};
ghost use Rattle.nom_write.specs.laws.ChoiceReads.{cond_reads, context_reads, cut_reads, opt_reads};

use crate::writer::Writer;
use nom_combinator::{Cond, Context, Cut, Opt};
use nom_error::outside::ContextError;
use nom_sink::error::WriteError;
use nom_sink::sink::Sink;
use nom_traits::input::Items;

/// Writes as the part does.
impl<I: Items, F: Writer<I> + Drop> Writer<I> for Cut<F> {
    ghost Form = { λ p. F.Form p.parser };

    ghost Fails = { λ p. F.Fails p.parser };

    ghost Follow = { λ p. F.Follow p.parser };

    ghost CanWrite = { λ p. F.CanWrite p.parser };

    #[inline(always)]
    fn write<S: Sink<I::Item>>(&self, value: &F::Output, out: &mut S) -> Result<(), WriteError> {
        self.parser.write(value, out)
    }

    ghost reads = { λ p k c. cut_reads (F.reads p.parser k c) };

    ghost begins = { λ p. no_first };
}

/// Writes the value of `Some`, and nothing for `None`. No item may follow.
impl<I: Items, F: Writer<I> + Drop> Writer<I> for Opt<F> {
    ghost Form = { λ p. OptForm (F.Form p.parser) };

    ghost Fails = { λ p. OptFails (F.Fails p.parser) };

    ghost Follow = { λ p rest. F.Follow p.parser rest × NoItem I.model (F.grammar (F.state p.parser)).meaning rest };

    ghost CanWrite = { λ p. F.CanWrite p.parser };

    #[inline]
    fn write<S: Sink<I::Item>>(
        &self,
        value: &Option<F::Output>,
        out: &mut S,
    ) -> Result<(), WriteError> {
        match value {
            Some(value) => self.parser.write(value, out),
            None => Ok(()),
        }
    }

    ghost reads = { λ p k c. opt_reads (F.reads p.parser k c) };

    ghost begins = { λ p. no_first };
}

/// If the parser runs, writes the value of `Some`; `None` is a mismatch. If it doesn't run, it is the other way round: `None` is
/// written as nothing, and `Some` is a mismatch.
impl<I: Items, F: Writer<I> + Drop> Writer<I> for Cond<F> {
    ghost Form = { λ p. CondForm p.condition (F.Form p.parser) };

    ghost Fails = { λ p. CondFails p.condition (F.Fails p.parser) };

    ghost Follow = { λ p rest. WhereRun p.condition (F.Follow p.parser rest) };

    ghost CanWrite = { λ p. WhereRun p.condition (F.CanWrite p.parser) };

    #[inline]
    fn write<S: Sink<I::Item>>(
        &self,
        value: &Option<F::Output>,
        out: &mut S,
    ) -> Result<(), WriteError> {
        if self.condition {
            match value {
                Some(output) => self.parser.write(output, out),
                None => Err(WriteError::Mismatch(out.len())),
            }
        } else {
            match value {
                Some(_) => Err(WriteError::Mismatch(out.len())),
                None => Ok(()),
            }
        }
    }

    ghost reads = { λ p k c. cond_reads I.model (F.grammar (F.state p.parser)) (F.Form p.parser) (F.Follow p.parser) (F.CanWrite p.parser)
        (F.reads p.parser) p.condition k c };

    ghost begins = { λ p. no_first };
}

/// Writes as the part does.
impl<I: Items, F: Writer<I> + Drop> Writer<I> for Context<F>
where
    F::Error: ContextError<I>,
{
    ghost Form = { λ p. F.Form p.parser };

    ghost Fails = { λ p. F.Fails p.parser };

    ghost Follow = { λ p. F.Follow p.parser };

    ghost CanWrite = { λ p. F.CanWrite p.parser };

    ghost First = { λ p. F.First p.parser };

    #[inline(always)]
    fn write<S: Sink<I::Item>>(&self, value: &F::Output, out: &mut S) -> Result<(), WriteError> {
        self.parser.write(value, out)
    }

    ghost reads = { λ p k c. context_reads F.Error.contexts p.context.now (F.reads p.parser k c) };

    ghost begins = { λ p. context_begins (F.begins p.parser) F.Error.contexts p.context.now };
}
