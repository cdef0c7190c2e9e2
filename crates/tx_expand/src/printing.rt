//! What is printed of tokens, meanings and marks.
ghost use Rattle.std.specs.Prelude.{◌≡◌, ◌++◌, OnOk};
ghost use Rattle.tx_convert.specs.Texts.{as_tokens};
ghost use Rattle.tx_expand.specs.Values.{lent};
ghost use Rattle.tx_prim.specs.declared.modes.Mode.{Mode as Any_mode};
ghost use Rattle.tx_expand.specs.Expanding.{escape_of, world_of};
ghost use Rattle.tx_expand.specs.Turns as turns;
ghost use Rattle.tx_expand.specs.Turns.{text_of};

use crate::known::Known;
use crate::types::Printed;
use std::alloc::{AllocError, Global};
use tx_convert::{push_mark, push_meaning, push_string};
use tx_eqtb::Eqtb;
use tx_prim::{Expandable, IntegerParameter, MarkKind};
use tx_scan::byte;
use tx_seen::{Meaning, Place, Seen};
use tx_toklist::Toks;

/// The escape character, if there is one.
pub fn escape_of(table: &Eqtb) -> Option<u8>
    ensures { result ≡ escape_of table.now }
{
    byte(i64::from(table.number(&Place::Integer(IntegerParameter::Escapechar))))
}

/// Which mark a meaning is that of, if it is \topmark or one of its kin.
fn mark_meant(meaning: &Meaning) -> Option<MarkKind>
    ensures { result ≡ turns.mark_meant meaning.now }
{
    match meaning {
        Meaning::Expandable(Expandable::Mark(kind)) => Some(*kind),
        _ => None,
    }
}

/// Puts what \meaning prints of a mark behind the tokens. Its only error is want of memory.
fn push_mark_of(
    alloc: Global,
    tokens: &mut Toks,
    known: &Known,
    kind: MarkKind,
) -> Result<(), AllocError>
    ensures { (any : Any_mode) → OnOk result (tokens.new ≡ tokens.old ++ as_tokens (turns.mark_shown (world_of (lent known.now) any) kind)) }
{
    let escape = escape_of(known.table);
    let codes = known.table.categories();
    match known.pages.marks.get(kind)? {
        Some(mark) => push_mark(
            alloc,
            tokens,
            escape,
            codes,
            known.fonts,
            kind,
            mark.as_slice(),
        ),
        None => push_mark(alloc, tokens, escape, codes, known.fonts, kind, &[]),
    }
}

/// Puts what \meaning prints behind the tokens. Its only error is want of memory.
fn push_shown(
    alloc: Global,
    tokens: &mut Toks,
    known: &Known,
    meaning: &Meaning,
) -> Result<(), AllocError>
    ensures { (any : Any_mode) → OnOk result (tokens.new ≡ tokens.old ++ as_tokens (turns.meaning_shown (world_of (lent known.now) any) meaning.now)) }
{
    match mark_meant(meaning) {
        Some(kind) => push_mark_of(alloc, tokens, known, kind),
        None => push_meaning(
            alloc,
            tokens,
            escape_of(known.table),
            known.table.categories(),
            known.fonts,
            meaning,
        ),
    }
}

/// Puts what is printed of a token behind the tokens. Its only error is want of memory.
pub(crate) fn push_printed(
    alloc: Global,
    tokens: &mut Toks,
    known: &Known,
    what: Printed,
    token: &Seen,
) -> Result<(), AllocError>
    ensures { (any : Any_mode) → OnOk result (tokens.new ≡ tokens.old ++ as_tokens (text_of (world_of (lent known.now) any) what token.now)) }
{
    match what {
        Printed::Token => push_string(tokens, escape_of(known.table), known.fonts, &token.token),
        Printed::Meaning => push_shown(alloc, tokens, known, &token.meaning),
    }
}
