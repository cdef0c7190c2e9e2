//! What the list of a box or the preamble of an alignment is packed to, and the begin-group token (TeX: The Program, sections 403,
//! 645 and 774).
ghost use Rattle.std.specs.Prelude.{◌≡◌, ◌≤◌, ◌<◌, ◌+◌, ◌∷◌, ◌++◌, [], List, length};
ghost use Rattle.tx_seen.specs.declared.item.Item.{Item};
ghost use Rattle.tx_seen.specs.declared.item.Item.TheVariants.{Took};
ghost use Rattle.tx_seen.specs.Readings.{next};
ghost use Rattle.tx_scan.specs.Integers.{expanded};
ghost use Rattle.tx_scan.specs.Rests.{IsRead};
ghost use Rattle.tx_scan.specs.Supplied.{NeedsFewer};
ghost use Rattle.tx_shape.specs.Boxes as boxes;
ghost use Rattle.tx_shape.specs.Rests as rests;
ghost use Rattle.tx_shape.specs.Rests.{Begins, begun_at, held, lost_rest, needed, rest, word_rest};
ghost use Rattle.tx_shape.specs.Words as words;

use crate::letters::{Letters, begins_spread, begins_to, expected, longer};
use crate::scans::{Amount, Opening, Plain, ShapeScan, Sizing, Stage};
use crate::types::{BoxGoal, BoxRead, Opener, Shaped};
use crate::words::{Lost, Word};
use tx_scan::BraceScan;
use tx_seen::{Fed, Seen, TexError, Want};

/// The size behind a word.
fn sizing_behind(word: Word, opening: Opening) -> Sizing
    ensures { result ≡ rests.sizing_behind word opening }
{
    match word {
        Word::T => Sizing::To(opening),
        Word::S | Word::Sp | Word::Spr | Word::Spre | Word::Sprea => Sizing::Spread(opening),
    }
}

impl ShapeScan {
    /// The scan goes on with this part, whose next token is expanded.
    pub(crate) fn on(&mut self, stage: Stage) -> Fed<Shaped>
        ensures scan { self.new ≡ record self.old { stage = stage } }
        ensures answer { result ≡ Fed.More Want.Expanded }
    {
        self.stage = stage;
        Fed::More(Want::Expanded)
    }

    /// A number or a size comes next.
    pub(crate) fn to_amount(&mut self, amount: Amount) -> Fed<Shaped>
        ensures scan { self.new ≡ begun_at amount self.old.glue }
        ensures answer { result ≡ Fed.More Want.Expanded }
    {
        self.amount.begin(amount);
        self.on(Stage::Amount)
    }

    /// The first token behind \hbox and its kin.
    pub(crate) fn feed_goal(&mut self, opening: Opening, token: &Seen) -> Fed<Shaped>
        ensures { Begins (λ more. boxes.box_begin opening (Took token.now ∷ more)) self.new result }
    {
        if token.is_key(b't') {
            return self.begin_word(opening, begins_to(token), token);
        }
        if token.is_space() {
            return self.on(Stage::Plain(Plain::Goal(opening)));
        }
        self.feed_spread(opening, token)
    }

    /// The first token where `to` can't stand any more.
    pub(crate) fn feed_spread(&mut self, opening: Opening, token: &Seen) -> Fed<Shaped>
        ensures { Begins (λ more. next (boxes.spread_goal (Took token.now ∷ more)) (boxes.opened opening)) self.new result }
    {
        if token.is_key(b's') {
            return self.begin_word(opening, begins_spread(token), token);
        }
        if token.is_space() {
            return self.on(Stage::Plain(Plain::Spread(opening)));
        }
        self.feed_brace(opening, BoxGoal::Natural, token)
    }

    /// This token is the first letter of a word.
    fn begin_word(&mut self, opening: Opening, letters: Letters, token: &Seen) -> Fed<Shaped>
        requires { words.behind_group letters.lost ≡ 0 }
        ensures { Begins (λ more. expanded token.now (word_rest opening letters.word letters.lost [] more)) self.new result }
    {
        if token.is_undefined() {
            return Fed::Wrong(TexError::Undefined);
        }
        self.on(Stage::Word(opening, letters))
    }

    /// The next letter of a word, or what breaks it off.
    #[inline(never)]
    pub(crate) fn feed_word(
        &mut self,
        opening: Opening,
        letters: Letters,
        token: &Seen,
    ) -> Fed<Shaped>
        ensures reads { (behind : List Item) → length behind ≤ words.behind_group letters.lost → IsRead rest held (words.behind_group letters.lost + 1) (λ more. word_rest opening letters.word letters.lost behind (Took token.now ∷ more)) (behind ++ Took token.now ∷ []) self.new result }
        ensures fewer { NeedsFewer 0 (needed self.new) result }
    {
        if token.is_undefined() {
            return Fed::Wrong(TexError::Undefined);
        }
        if !token.is_key(expected(letters.word)) {
            return self.lose_word(opening, letters.lost, token);
        }
        match longer(letters, token) {
            Some(letters) => self.on(Stage::Word(opening, letters)),
            None => self.to_amount(Amount::Size(sizing_behind(letters.word, opening))),
        }
    }

    /// A word broke off before this token.
    fn lose_word(&mut self, opening: Opening, lost: Lost, token: &Seen) -> Fed<Shaped>
        requires { words.behind_group lost < 6 }
        ensures reads { (behind : List Item) → length behind ≤ words.behind_group lost → IsRead rest held (words.behind_group lost + 1) (λ more. lost_rest opening lost behind (Took token.now ∷ more)) (behind ++ Took token.now ∷ []) self.new result }
        ensures fewer { NeedsFewer 0 (needed self.new) result }
    {
        match lost {
            Lost::Spread => self.feed_spread(opening, token),
            Lost::Brace => self.feed_brace(opening, BoxGoal::Natural, token),
            Lost::Begun(behind) => Fed::Done(begun(opening, BoxGoal::Natural), behind + 1),
            Lost::Bare => Fed::Wrong(TexError::MissingBeginGroup),
        }
    }

    /// The begin-group token that is awaited, or what is skipped before it; what was read before is forgotten.
    pub fn feed_open(&mut self, opener: Opener, token: &Seen) -> Fed<Shaped>
        ensures { Begins (λ more. boxes.group_begun opener (Took token.now ∷ more)) self.new result }
    {
        match BraceScan::new().feed(token) {
            Fed::More(_) => self.on(Stage::Plain(Plain::Open(opener))),
            Fed::Need(kind) => Fed::Need(kind),
            Fed::Done(_, back) => Fed::Done(Shaped::Open(opener), back),
            Fed::Wrong(error) => Fed::Wrong(error),
        }
    }

    /// The first token behind \halign; what was read before is forgotten.
    pub fn feed_align(&mut self, token: &Seen) -> Fed<Shaped>
        ensures { Begins (λ more. boxes.box_begin Opening.Align (Took token.now ∷ more)) self.new result }
    {
        self.feed_goal(Opening::Align, token)
    }

    /// The begin-group token of a box, or what is skipped before it.
    pub(crate) fn feed_brace(
        &mut self,
        opening: Opening,
        goal: BoxGoal,
        token: &Seen,
    ) -> Fed<Shaped>
        ensures { Begins (λ more. boxes.opened opening goal (Took token.now ∷ more)) self.new result }
    {
        match BraceScan::new().feed(token) {
            Fed::More(_) => self.on(Stage::Plain(Plain::Brace(opening, goal))),
            Fed::Need(kind) => Fed::Need(kind),
            Fed::Done(_, back) => Fed::Done(begun(opening, goal), back),
            Fed::Wrong(error) => Fed::Wrong(error),
        }
    }
}

/// A box or an alignment that is begun.
fn begun(opening: Opening, goal: BoxGoal) -> Shaped
    ensures { result ≡ boxes.begun opening goal }
{
    match opening {
        Opening::Box(kind, context) => Shaped::Box(BoxRead::Begin(kind, goal), context),
        Opening::Align => Shaped::BeginAlign(goal),
    }
}
