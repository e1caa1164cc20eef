//! Promises about all expressions.
ghost use Rattle.nom_operators.specs.Trees.{HasOneTree};
ghost use Rattle.nom_operators.specs.Groups.{groups_left};
ghost use Rattle.nom_operators.specs.OperatorTrees.{HasNoOther};
ghost use Rattle.nom_operators.specs.Evaluations.{HasTree, by_precedence};
ghost use Rattle.nom_operators.specs.declared.precedences.Unary.{Unary};
ghost use Rattle.nom_operators.specs.declared.precedences.Binary.{Binary};

use crate::operation::Assoc;

/// A term and pairs, each of an operator with its level and a term, have one tree.
pub fn one_tree<T, B>(levels: &[Assoc])
    ensures { HasOneTree T B (groups_left levels.now) }
{
    let _count = levels.len();
}

/// A term, and pairs of a binary operator and a term, with operators before and after their operands, have one tree.
pub fn one_operator_tree<P, O, Q, B>()
    ensures tree { HasTree P O Q B }
    ensures other { HasNoOther (Unary P) O (Unary Q) (Binary B) by_precedence }
{}
