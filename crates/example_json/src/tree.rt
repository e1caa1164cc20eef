//! The trees of JSON texts.
ghost use Rattle.std.specs.Prelude.{◌≡◌, false, true};
ghost use Rattle.example_json.specs.declared.tree.Json.TheVariants.{Null, Bool};

use nom::Viewed;

/// A value. Numbers and strings are slices of the text: a number as it is written, a string with its escapes and
/// without its quotes. The members of an object stand in their order, each after its name, and a name may stand
/// twice.
#[derive(Debug, Drop)]
pub enum Json<'a> {
    Null,
    Bool(bool),
    Number(&'a str),
    String(&'a str),
    Array(Vec<Json<'a>>),
    Object(Vec<(&'a str, Json<'a>)>),
}

// `map` asks it of what it gives: trees are compared as they are.
impl<'a> Viewed for Json<'a> {}

pub fn null<'a>(_word: &'a str) -> Json<'a>
    ensures { result ≡ Null }
{
    Json::Null
}

pub fn yes<'a>(_word: &'a str) -> Json<'a>
    ensures { result ≡ Bool true }
{
    Json::Bool(true)
}

pub fn no<'a>(_word: &'a str) -> Json<'a>
    ensures { result ≡ Bool false }
{
    Json::Bool(false)
}
