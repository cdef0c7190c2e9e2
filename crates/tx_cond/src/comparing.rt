//! What a test asks of numbers and tokens.
ghost use Rattle.std.specs.Prelude.{◌≡◌};
ghost use Rattle.tx_cond.specs.Tests as spec;

use crate::test::{Compared, Judged, Relation};
use tx_char::{Cat, Token};
use tx_list::Kept;
use tx_seen::{Meaning, Seen, Want};

/// The value of a test that is true or false.
pub(crate) fn truth(holds: bool) -> i64
    ensures { result ≡ spec.truth holds }
{
    if holds { 1 } else { 0 }
}

impl Relation {
    /// The relation that a token is.
    pub(crate) fn of_token(token: &Token) -> Option<Relation>
        ensures { result ≡ spec.relation_of token.now }
    {
        match token {
            Token::Character(b'<', Cat::Other) => Some(Relation::Less),
            Token::Character(b'=', Cat::Other) => Some(Relation::Equal),
            Token::Character(b'>', Cat::Other) => Some(Relation::Greater),
            _ => None,
        }
    }

    /// Whether two numbers stand in it.
    fn stands(self, left: i64, right: i64) -> bool
        ensures { result ≡ spec.stands self left right }
    {
        match self {
            Relation::Less => left < right,
            Relation::Equal => left <= right && right <= left,
            Relation::Greater => right < left,
        }
    }
}

impl Judged {
    /// What the last number makes of the test.
    pub(crate) fn judgement(self, number: i64) -> i64
        ensures { result ≡ spec.judgement self number }
    {
        match self {
            Judged::Case => number,
            Judged::Odd => truth(number.unsigned_abs() % 2 == 1),
            Judged::Against(left, relation) => truth(relation.stands(left, number)),
        }
    }
}

/// The character that a token means.
fn code_of(token: &Seen) -> Option<u8>
    ensures { result ≡ spec.code_of token.now }
{
    match (&token.meaning, &token.token) {
        (Meaning::Character(code, _), _) => Some(*code),
        (Meaning::Held, Token::Character(code, Cat::Active)) => Some(*code),
        _ => None,
    }
}

/// The number of the category of the character that a token means.
fn category_of(token: &Seen) -> Option<u8>
    ensures { result ≡ spec.category_of token.now }
{
    match (&token.meaning, &token.token) {
        (Meaning::Character(_, category), _) => Some(category.number()),
        (Meaning::Held, Token::Character(_, Cat::Active)) => Some(Cat::Active.number()),
        _ => None,
    }
}

/// Whether both are the same number, or none.
fn same_number(one: Option<u8>, other: Option<u8>) -> bool
    ensures { result ≡ spec.same_number one other }
{
    match (one, other) {
        (None, None) => true,
        (Some(one), Some(other)) => one == other,
        _ => false,
    }
}

/// Whether two tokens mean the same.
fn same_meaning(one: &Seen, other: &Seen) -> bool
    ensures { result ≡ spec.alike Compared.Meaning one.now other.now }
{
    one.meaning.same(&other.meaning)
}

impl Compared {
    /// How its tokens are wanted.
    pub(crate) fn want(self) -> Want
        ensures { result ≡ spec.want self }
    {
        match self {
            Compared::Code | Compared::Category => Want::Expanded,
            Compared::Meaning => Want::Raw,
        }
    }

    /// Whether two tokens are alike in it.
    pub(crate) fn alike(self, one: &Seen, other: &Seen) -> bool
        ensures { result ≡ spec.alike self one.now other.now }
    {
        match self {
            Compared::Code => same_number(code_of(one), code_of(other)),
            Compared::Category => same_number(category_of(one), category_of(other)),
            Compared::Meaning => same_meaning(one, other),
        }
    }
}
