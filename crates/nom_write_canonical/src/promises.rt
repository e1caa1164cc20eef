//! The promises of a canonical writer.
ghost use Rattle.nom_write_canonical.specs.Forms.{HasOneForm, WritesBack};

use crate::canonical::Canonical;
use nom_traits::input::Items;

/// No value has two forms: lists of items that are forms of one value are equal. So the contract of `write` determines the items. The
/// function does nothing: its contract is the promise.
pub fn writes_one_form<I: Items, P: Canonical<I>>(_parser: &P)
    requires canonical { P.IsCanonical _parser.now }
    ensures { HasOneForm I.Item.IsValue (P.Form _parser.now) }
{}

/// What is accepted and written again are the same items, in either mode: the input is any form of the output, and then the rest. The
/// function does nothing: its contract is the promise.
pub fn writes_back<I: Items, P: Canonical<I>>(_parser: &P)
    requires canonical { P.IsCanonical _parser.now }
    ensures { WritesBack I.model I.Item.IsValue (P.grammar (P.state _parser.now)) (P.Form _parser.now) }
{}
