//! What an expansion comes to, and how one begins.
ghost use Rattle.std.specs.Prelude.{◌≡◌, ◌||◌, ◌∷◌, [], IfOk, OnOk};
ghost use Rattle.tx_char.specs.declared.tokens.Token.{Token as Any_token};
ghost use Rattle.tx_cond.specs.Conditionals.{meeting};
ghost use Rattle.tx_expand.specs.Values.{lent};
ghost use Rattle.tx_eqtb.specs.Table.{tokens_at};
ghost use Rattle.tx_pending.specs.Elements.{Input};
ghost use Rattle.tx_prim.specs.declared.modes.Mode.{Mode as Any_mode};
ghost use Rattle.tx_expand.specs.declared.types.Wanted.{Wanted as Any_wanted};
ghost use Rattle.tx_expand.specs.Expanding.{reader_of, world_of};
ghost use Rattle.tx_expand.specs.Turns as turns;
ghost use Rattle.tx_expand.specs.Turns.{begins, come, decided, ended, expands, listed, met_word, reads, replaced, returned, uses, IsTurned};

use crate::begun::Begun;
use crate::innermost::{destination, is_finding, release};
use crate::known::Known;
use crate::part::Part;
use crate::scanning::Scanning;
use crate::state::Expander;
use crate::types::{Destination, Expanded, Made, Printed, Scanned, Wanted};
use crate::using::Using;
use std::alloc::{AllocError, Global};
use tx_char::{ControlName, Token};
use tx_cond::{Meet, Skipper};
use tx_convert::{push_font_name, push_job_name};
use tx_pending::Pending;
use tx_prim::{CondWord, Conversion, Expandable, MarkKind, Mode, Test};
use tx_scan::byte;
use tx_seen::{Fed, FontName, Meaning, Place, TexError};
use tx_toklist::{Macro, TokList, Toks};

impl Expander {
    /// An expansion begins. Its only error is want of memory.
    pub(crate) fn begin(&mut self, begun: Begun) -> Result<Expanded, AllocError>
        ensures { (input : Input) → IfOk result (IsTurned (begins begun (reader_of self.old input)) (reader_of self.new input)) }
    {
        self.begun.push(begun)?;
        Ok(Expanded::Went)
    }

    /// An expansion has ended: what \expandafter held back comes in front. Its only error is want of memory.
    pub(crate) fn went(&mut self, input: &mut Pending) -> Result<Expanded, AllocError>
        ensures { IfOk result (IsTurned (ended (reader_of self.old input.old)) (reader_of self.new input.new)) }
    {
        release(&mut self.begun, input)?;
        Ok(Expanded::Went)
    }

    /// Tokens stand in the place of an expansion that has ended. Its only error is want of memory.
    pub(crate) fn replace(
        &mut self,
        alloc: Global,
        input: &mut Pending,
        tokens: Toks,
    ) -> Result<Expanded, AllocError>
        ensures { IfOk result (IsTurned (replaced tokens (reader_of self.old input.old)) (reader_of self.new input.new)) }
    {
        input.push_list(TokList::from_toks(alloc, tokens)?, false)?;
        self.went(input)
    }

    /// TeX puts a \relax in before this token. Its only error is want of memory.
    fn relax_before(&mut self, input: &mut Pending, token: Token) -> Result<Expanded, AllocError>
        ensures { IfOk result (IsTurned (returned (Token.FrozenRelax ∷ token ∷ []) (reader_of self.old input.old)) (reader_of self.new input.new)) }
    {
        input.give_back(token)?;
        input.give_back(Token::FrozenRelax)?;
        self.went(input)
    }

    /// A word of the innermost conditional. Its only error is want of memory.
    pub(crate) fn meet(
        &mut self,
        input: &mut Pending,
        token: Token,
        word: CondWord,
    ) -> Result<Expanded, AllocError>
        ensures { IfOk result (IsTurned (met_word token (reader_of self.old input.old) (meeting self.old.conditionals word)) (reader_of self.new input.new)) }
    {
        match self.conditionals.meet(word) {
            Ok(Meet::Relax) => self.relax_before(input, token),
            Ok(Meet::Skip) => self.begin(Begun::Skipping(Skipper::new())),
            Ok(Meet::Closed) => self.went(input),
            Err(error) => Ok(Expanded::Wrong(error)),
        }
    }

    /// The innermost test has this value. Its only error is want of memory.
    fn decide(&mut self, input: &mut Pending, value: i64) -> Result<Expanded, AllocError>
        ensures { IfOk result (IsTurned (decided value (reader_of self.old input.old)) (reader_of self.new input.new)) }
    {
        self.conditionals.decide(value);
        if self.conditionals.is_skipping() {
            self.begin(Begun::Skipping(Skipper::new()))
        } else {
            self.went(input)
        }
    }

    /// A name stands in the place of an expansion. Its only error is want of memory.
    fn name(
        &mut self,
        input: &mut Pending,
        known: &Known,
        name: ControlName,
    ) -> Result<Expanded, AllocError>
        ensures { (any : Any_mode) → IfOk result (IsTurned (come (world_of (lent known.now) any) (Made.Names name) (reader_of self.old input.old)) (reader_of self.new input.new)) }
    {
        let meaning = known.table.name_meaning(&name)?;
        input.give_back(Token::Name(name.clone()?))?;
        release(&mut self.begun, input)?;
        match meaning {
            Meaning::Undefined => Ok(Expanded::Relaxes(name)),
            _ => Ok(Expanded::Went),
        }
    }

    /// The list of tokens at a place stands in the place of an expansion that has ended, or belongs to the text that the caller
    /// takes. Its only error is want of memory.
    fn list(
        &mut self,
        alloc: Global,
        input: &mut Pending,
        known: &Known,
        to: Destination,
        place: &Place,
    ) -> Result<Expanded, AllocError>
        ensures { IfOk result (IsTurned (listed to (tokens_at (lent known.now).table.table place.now) (reader_of self.old input.old)) (reader_of self.new input.new)) }
    {
        let tokens = known.table.tokens(place)?;
        match to {
            Destination::Input => {
                input.push_list(tokens, false)?;
                self.went(input)
            }
            Destination::Text => {
                release(&mut self.begun, input)?;
                Ok(Expanded::Text(Toks::from_slice(alloc, tokens.as_slice())?))
            }
        }
    }

    /// The identifier of a font stands in the place of an expansion that has ended, or belongs to the text that the caller takes.
    /// Its only error is want of memory.
    fn identify_font(
        &mut self,
        alloc: Global,
        input: &mut Pending,
        known: &Known,
        to: Destination,
        font: FontName,
    ) -> Result<Expanded, AllocError>
        ensures { (any : Any_mode) → IfOk result (IsTurned (come (world_of (lent known.now) any) (Made.Identifier to font) (reader_of self.old input.old)) (reader_of self.new input.new)) }
    {
        let tokens = Toks::one(alloc, Token::FontIdentifier(known.font_number(font)))?;
        match to {
            Destination::Input => self.replace(alloc, input, tokens),
            Destination::Text => {
                release(&mut self.begun, input)?;
                Ok(Expanded::Text(tokens))
            }
        }
    }

    /// The name of a font stands in the place of an expansion that has ended. Its only error is want of memory.
    fn name_font(
        &mut self,
        alloc: Global,
        input: &mut Pending,
        known: &Known,
        font: FontName,
    ) -> Result<Expanded, AllocError>
        ensures { (any : Any_mode) → IfOk result (IsTurned (come (world_of (lent known.now) any) (Made.Font font) (reader_of self.old input.old)) (reader_of self.new input.new)) }
    {
        let mut tokens = Toks::new(alloc);
        push_font_name(alloc, &mut tokens, known.fonts, known.font_number(font))?;
        self.replace(alloc, input, tokens)
    }

    /// What comes of what was read. Its only error is want of memory.
    pub(crate) fn come(
        &mut self,
        alloc: Global,
        input: &mut Pending,
        known: &Known,
        made: Made,
    ) -> Result<Expanded, AllocError>
        ensures { (any : Any_mode) → IfOk result (IsTurned (come (world_of (lent known.now) any) made (reader_of self.old input.old)) (reader_of self.new input.new)) }
    {
        match made {
            Made::Puts(tokens) => self.replace(alloc, input, tokens),
            Made::Gives(tokens) => {
                release(&mut self.begun, input)?;
                Ok(Expanded::Text(tokens))
            }
            Made::List(to, place) => self.list(alloc, input, known, to, &place),
            Made::Register(to, number) => match byte(number) {
                Some(number) => self.list(alloc, input, known, to, &Place::Toks(number)),
                None => Ok(Expanded::Wrong(TexError::NumberOutOfRange)),
            },
            Made::Names(name) => self.name(input, known, name),
            Made::Decides(value) => self.decide(input, value),
            Made::Opens(name) => {
                self.begun.push(Begun::Opening)?;
                Ok(Expanded::Asks(name))
            }
            Made::Identifier(to, font) => self.identify_font(alloc, input, known, to, font),
            Made::Font(font) => self.name_font(alloc, input, known, font),
        }
    }

    /// An expansion reads this. Its only error is want of memory.
    fn scan(
        &mut self,
        alloc: Global,
        input: &mut Pending,
        known: &Known,
        what: Scanned,
    ) -> Result<Expanded, AllocError>
        ensures { (any : Any_mode) → IfOk result (IsTurned (reads (world_of (lent known.now) any) what [] (reader_of self.old input.old)) (reader_of self.new input.new)) }
    {
        let (part, fed) = Part::begin(alloc, what);
        match fed {
            Fed::More(want) => {
                self.begin(Begun::Scanning(Scanning::new(alloc, what, want, part)?))
            }
            Fed::Need(_) => unreachable!(),
            Fed::Done(made, _) => self.come(alloc, input, known, made),
            Fed::Wrong(error) => Ok(Expanded::Wrong(error)),
        }
    }

    /// Whether a file's name is being read, by the caller or by an expansion: an \input there ends it (TeX: The Program, section
    /// 378).
    fn is_naming(&self, wanted: Wanted) -> bool
        ensures { result ≡ (wanted.names || turns.is_finding self.now.begun) }
    {
        wanted.names || is_finding(self.begun.as_slice())
    }

    /// The expansion of a primitive, whose token is this. Its only error is want of memory.
    #[inline(never)]
    pub(crate) fn expand_primitive(
        &mut self,
        alloc: Global,
        input: &mut Pending,
        known: &Known,
        mode: Mode,
        wanted: Wanted,
        token: Token,
        primitive: Expandable,
    ) -> Result<Expanded, AllocError>
        ensures { IfOk result (IsTurned (expands (world_of (lent known.now) mode) wanted token (reader_of self.old input.old) primitive) (reader_of self.new input.new)) }
    {
        match primitive {
            Expandable::ExpandAfter => self.begin(Begun::After),
            Expandable::NoExpand => self.begin(Begun::Hold),
            Expandable::CsName => self.scan(alloc, input, known, Scanned::Name),
            Expandable::Convert(kind) => self.convert(alloc, input, known, kind),
            Expandable::The => {
                let what = Scanned::Quantity {
                    to: destination(wanted.takes_the, &self.begun),
                };
                self.scan(alloc, input, known, what)
            }
            Expandable::Input => {
                if self.is_naming(wanted) {
                    self.relax_before(input, token)
                } else {
                    self.scan(alloc, input, known, Scanned::File)
                }
            }
            Expandable::EndInput => {
                input.end_input();
                self.went(input)
            }
            Expandable::Test(test) => {
                self.conditionals.begin(is_case(test))?;
                self.scan(alloc, input, known, Scanned::Test(test, mode))
            }
            Expandable::Word(word) => self.meet(input, token, word),
            Expandable::Mark(kind) => self.put_mark(input, known, kind),
        }
    }

    /// A mark stands in the place of its expansion, if there is one. Its only error is want of memory.
    fn put_mark(
        &mut self,
        input: &mut Pending,
        known: &Known,
        kind: MarkKind,
    ) -> Result<Expanded, AllocError>
        ensures { (any : Any_mode) → IfOk result (IsTurned (turns.marked ((world_of (lent known.now) any).mark kind) (reader_of self.old input.old)) (reader_of self.new input.new)) }
    {
        if let Some(tokens) = known.pages.marks.get(kind)? {
            input.push_list(tokens, false)?;
        }
        self.went(input)
    }

    /// What is printed as tokens. Its only error is want of memory.
    fn convert(
        &mut self,
        alloc: Global,
        input: &mut Pending,
        known: &Known,
        kind: Conversion,
    ) -> Result<Expanded, AllocError>
        ensures { (mode : Any_mode) (wanted : Any_wanted) (token : Any_token) → IfOk result (IsTurned (expands (world_of (lent known.now) mode) wanted token (reader_of self.old input.old) (Expandable.Convert kind)) (reader_of self.new input.new)) }
    {
        match kind {
            Conversion::Number => self.scan(alloc, input, known, Scanned::Number),
            Conversion::RomanNumeral => self.scan(alloc, input, known, Scanned::Roman),
            Conversion::Token => self.begin(Begun::Print(Printed::Token)),
            Conversion::Meaning => self.begin(Begun::Print(Printed::Meaning)),
            Conversion::JobName => {
                let mut tokens = Toks::new(alloc);
                push_job_name(&mut tokens, self.job.as_slice())?;
                self.replace(alloc, input, tokens)
            }
            Conversion::FontName => self.scan(alloc, input, known, Scanned::Font),
        }
    }

    /// The use of a macro. Its only error is want of memory.
    #[inline(never)]
    pub(crate) fn use_macro(
        &mut self,
        alloc: Global,
        input: &mut Pending,
        made: &Macro,
    ) -> Result<Expanded, AllocError>
        ensures { IfOk result (IsTurned (uses made.now (reader_of self.old input.old)) (reader_of self.new input.new)) }
    {
        if is_bare(made) {
            input.push_use(made, &[])?;
            self.went(input)
        } else {
            self.begin(Begun::Use(Using::new(alloc, made.share()?)?))
        }
    }

    /// The next token is expanded once, and what comes of it is read as it stands. Its only error is want of memory.
    pub fn expand_once(&mut self) -> Result<(), AllocError>
        ensures { (input : Input) → OnOk result (reader_of self.new input ≡ turns.expanding_once (reader_of self.old input)) }
    {
        self.begun.push(Begun::Once)?;
        Ok(())
    }
}

/// Whether a conditional is \ifcase.
fn is_case(test: Test) -> bool
    ensures { result ≡ turns.is_case test }
{
    matches!(test, Test::Case)
}

/// Whether a macro has nothing in its parameter text.
fn is_bare(made: &Macro) -> bool
    ensures { result ≡ turns.is_bare made.now.parameters }
{
    made.before().is_empty() && made.delimiters().is_empty()
}
