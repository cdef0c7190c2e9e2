//! The box that is needed, and what stands before it (TeX: The Program, sections 1079, 1084 and 1241).
ghost use Rattle.std.specs.Prelude.{◌≡◌, ◌∷◌};
ghost use Rattle.tx_seen.specs.declared.item.Item.TheVariants.{Took};
ghost use Rattle.tx_shape.specs.Boxes as boxes;
ghost use Rattle.tx_shape.specs.Rests.{Begins};

use crate::scans::{Amount, Opening, Plain, Registering, ShapeScan, Sizing, Stage};
use crate::types::{BoxContext, BoxRead, Shaped};
use tx_prim::{BoxSource, Primitive};
use tx_scan::EqualsScan;
use tx_seen::{Fed, Meaning, Seen, TexError};

impl ShapeScan {
    /// \box, \copy, \lastbox or \vsplit.
    pub(crate) fn begin_source(&mut self, source: BoxSource, context: BoxContext) -> Fed<Shaped>
        ensures { Begins (λ more. boxes.box_from source context more) self.new result }
    {
        match source {
            BoxSource::Register => self.to_amount(Amount::Register(Registering::Use(context))),
            BoxSource::Copy => self.to_amount(Amount::Register(Registering::Copy(context))),
            BoxSource::Last => Fed::Done(Shaped::Box(BoxRead::Last, context), 0),
            BoxSource::Split => self.to_amount(Amount::Register(Registering::Split(context))),
        }
    }

    /// The box that is needed, or what is skipped before it.
    pub fn feed_needed(&mut self, context: BoxContext, token: &Seen) -> Fed<Shaped>
        ensures { Begins (λ more. boxes.needed_box context (Took token.now ∷ more)) self.new result }
    {
        if token.is_undefined() {
            return Fed::Wrong(TexError::Undefined);
        }
        if token.is_space() || token.is_relax() {
            return self.on(Stage::Plain(Plain::Needed(context)));
        }
        match &token.meaning {
            Meaning::Command(Primitive::Box(kind)) => {
                let kind = *kind;
                self.on(Stage::Plain(Plain::Goal(Opening::Box(kind, context))))
            }
            Meaning::Command(Primitive::BoxFrom(source)) => self.begin_source(*source, context),
            // of all others alike
            _ => Fed::Wrong(TexError::MissingBox),
        }
    }

    /// The word `to` of \vsplit, or what is skipped before it.
    pub(crate) fn feed_to(&mut self, register: u8, context: BoxContext, token: &Seen) -> Fed<Shaped>
        ensures { Begins (λ more. boxes.split_to register context (Took token.now ∷ more)) self.new result }
    {
        if token.is_key(b't') {
            if token.is_undefined() {
                return Fed::Wrong(TexError::Undefined);
            }
            return self.on(Stage::Plain(Plain::ToLetter(register, context)));
        }
        if token.is_space() {
            return self.on(Stage::Plain(Plain::To(register, context)));
        }
        Fed::Wrong(missing_word(token))
    }

    /// The second letter of `to`.
    pub(crate) fn feed_to_letter(
        &mut self,
        register: u8,
        context: BoxContext,
        token: &Seen,
    ) -> Fed<Shaped>
        ensures { Begins (λ more. boxes.split_letter register context (Took token.now ∷ more)) self.new result }
    {
        if token.is_undefined() {
            return Fed::Wrong(TexError::Undefined);
        }
        if !token.is_key(b'o') {
            return Fed::Wrong(TexError::MissingUnit);
        }
        self.to_amount(Amount::Size(Sizing::Split(register, context)))
    }

    /// An optional `=` before the box that is put into a register, or the first token behind it.
    pub(crate) fn feed_equals(&mut self, register: u8, token: &Seen) -> Fed<Shaped>
        ensures { Begins (λ more. boxes.register_setting register (Took token.now ∷ more)) self.new result }
    {
        match EqualsScan::new().feed(token) {
            Fed::More(want) => {
                self.stage = Stage::Plain(Plain::Equals(register));
                Fed::More(want)
            }
            Fed::Need(kind) => Fed::Need(kind),
            Fed::Done(_, 0) => self.on(Stage::Plain(Plain::Needed(BoxContext::Register(register)))),
            Fed::Done(_, _) => self.feed_needed(BoxContext::Register(register), token),
            Fed::Wrong(error) => Fed::Wrong(error),
        }
    }
}

/// The error of a token where `to` is needed.
fn missing_word(token: &Seen) -> TexError
    ensures { result ≡ boxes.missing_word token.now }
{
    if token.is_undefined() {
        TexError::Undefined
    } else {
        TexError::MissingUnit
    }
}
