//! What each command does, once it is whole (TeX: The Program, parts 45 to 49).
ghost use Rattle.std.specs.Prelude.{◌≡◌, [], if◌then◌else◌, IfOk};
ghost use Rattle.tx_command.specs.Commands.{box_before, leaders_before};
ghost use Rattle.tx_eqtb.specs.Stack.{kind_of};
ghost use Rattle.tx_main.specs.Effects as effects;
ghost use Rattle.tx_node.specs.Nodes.{item_of};
ghost use Rattle.tx_state.specs.Ended.{adding};
ghost use Rattle.tx_state.specs.Meanings.{IsStepped, state_of};

use std::alloc::AllocError;
use std::alloc::Global;
use tx_aligning::align;
use tx_aligning::begin_align;
use tx_aligning::begin_entry;
use tx_aligning::begin_noalign;
use tx_aligning::end_align;
use tx_aligning::expand_next;
use tx_aligning::feed_template;
use tx_aligning::set_tabskip;
use tx_assign::Assignment;
use tx_assign::Carried;
use tx_assign::relaxed;
use tx_boxing::add_rule;
use tx_boxing::begin_break;
use tx_boxing::begin_vertical_list;
use tx_boxing::copy_box;
use tx_boxing::end_run;
use tx_boxing::open_box;
use tx_boxing::remove;
use tx_boxing::set_dead_cycles;
use tx_boxing::set_depth;
use tx_boxing::set_page;
use tx_boxing::split;
use tx_boxing::take_box;
use tx_boxing::unbox;
use tx_boxing::use_box;
use tx_building::build_behind;
use tx_building::build_here;
use tx_building::build_outside_behind;
use tx_char::Token;
use tx_command::Command;
use tx_command::CommandScan;
use tx_command::Head;
use tx_command::Prefixes;
use tx_command::SizeUse;
use tx_eqtb::Eqtb;
use tx_eqtb::GroupKind;
use tx_event::Event;
use tx_formula::add_noad;
use tx_formula::await_delimiter;
use tx_formula::begin_atom;
use tx_formula::begin_choice;
use tx_formula::begin_script;
use tx_formula::divide;
use tx_formula::divide_sized;
use tx_formula::end_choice;
use tx_formula::end_part;
use tx_formula::go_on_behind_display;
use tx_formula::open_formula;
use tx_formula::set_coded;
use tx_formula::set_delimiter;
use tx_formula::set_limits;
use tx_formula::set_number;
use tx_formula::shift;
use tx_formula::style_of;
use tx_formula::thickness_of;
use tx_grouping::add_size;
use tx_grouping::begin_shape;
use tx_grouping::end_paragraph;
use tx_grouping::end_semi_simple;
use tx_grouping::indent;
use tx_grouping::insert_par;
use tx_grouping::set_graf;
use tx_lettering::begin_accent;
use tx_lettering::begin_list;
use tx_lettering::begin_text;
use tx_lettering::break_word;
use tx_lettering::collect;
use tx_lettering::control_space;
use tx_lettering::correct_italic;
use tx_lettering::define_font;
use tx_lettering::define_macro;
use tx_lettering::end_accent;
use tx_lettering::factor_now;
use tx_lettering::find_font;
use tx_lettering::set_below;
use tx_lettering::set_dimension;
use tx_lettering::set_factor;
use tx_lettering::set_family;
use tx_lettering::set_integer;
use tx_lettering::space;
use tx_mlist::Noad;
use tx_mlist::PlainNoad;
use tx_mlist::plain_head;
use tx_nest::append_item;
use tx_node::KernKind;
use tx_node::Leaders;
use tx_node::LeadersHead;
use tx_node::Node;
use tx_node::Plain;
use tx_node::Rule;
use tx_node::Shared;
use tx_num::Glue;
use tx_prim::AfterKind;
use tx_prim::LeadersKind;
use tx_prim::Mode;
use tx_prim::Prefix;
use tx_prim::Shorthand;
use tx_prim::SizeKind;
use tx_seen::Place;
use tx_shape::Opener;
use tx_state::KeptToken;
use tx_state::Phase;
use tx_state::State;
use tx_state::add;
use tx_state::carry_out_assignment;
use tx_state::end_assignment;
use tx_state::fail;
use tx_state::open;

/// The prefixes with one more.
fn with_prefix(prefixes: Prefixes, prefix: Prefix) -> Prefixes
    ensures { result ≡ effects.with_prefix prefixes prefix }
{
    match prefix {
        Prefix::Global => Prefixes {
            global: true,
            ..prefixes
        },
        Prefix::Long => Prefixes {
            long: true,
            ..prefixes
        },
        Prefix::Outer => Prefixes {
            outer: true,
            ..prefixes
        },
    }
}

/// What stands before the command behind these prefixes, which an accent that waits stands before.
fn head_behind(accents: bool, prefixes: Prefixes) -> Head
    ensures { result ≡ (if accents then Head.Accenting prefixes else Head.Prefixed prefixes) }
{
    if accents {
        Head::Accenting(prefixes)
    } else {
        Head::Prefixed(prefixes)
    }
}

/// A prefix.
pub(crate) fn prefix(scan: &mut CommandScan, prefix: Prefix) -> Event
    requires { scan.old.taken ≡ [] }
    ensures { (s : State) → s.phase ≡ Phase.Running → IsStepped (effects.effect (state_of (record s { scan = scan.old })) (Command.Prefix prefix)) (record s { scan = scan.old }) result (record s { scan = scan.new }) }
{
    let prefixes = with_prefix(scan.prefixes(), prefix);
    let head = head_behind(scan.is_accenting(), prefixes);
    scan.begin_behind(head);
    Event::Went
}

/// \chardef or its kin and the name that it defines, which means \relax from now on.
fn define(s: &mut State, defined: Place, kind: Shorthand) -> Result<Event, AllocError>
    requires running { s.old.phase ≡ Phase.Running }
    requires between { s.old.scan.taken ≡ [] }
    ensures { IfOk result (λ event. IsStepped (effects.effect (state_of s.old) (Command.Define defined kind)) s.old event s.new) }
{
    let prefixes = s.scan.prefixes();
    match tx_assign::carry_out(&mut s.table, relaxed(defined.clone()?), prefixes.global)? {
        Carried::Done => {
            s.scan.begin_behind(Head::Defining(prefixes, defined, kind));
            Ok(Event::Went)
        }
        Carried::Refused(error) => Ok(fail(s, error)),
    }
}

/// An assignment, or the begin of its text.
pub(crate) fn assign(
    alloc: Global,
    s: &mut State,
    assignment: Assignment,
) -> Result<Event, AllocError>
    requires running { s.old.phase ≡ Phase.Running }
    requires between { s.old.scan.taken ≡ [] }
    ensures { IfOk result (λ event. IsStepped (effects.effect (state_of s.old) (Command.Assign assignment)) s.old event s.new) }
{
    if s.scan.is_preamble() {
        return set_tabskip(alloc, s, assignment);
    }
    let global = s.scan.prefixes().global;
    if assignment.is_text() {
        let Assignment { place, change: _ } = assignment;
        Ok(begin_list(alloc, s, place))
    } else {
        carry_out_assignment(s, assignment, global)
    }
}

/// \futurelet and the name that it defines.
fn define_future(scan: &mut CommandScan, defined: Place) -> Event
    requires { scan.old.taken ≡ [] }
    ensures { (s : State) → s.phase ≡ Phase.Running → IsStepped (effects.effect (state_of (record s { scan = scan.old })) (Command.DefineFuture defined)) (record s { scan = scan.old }) result (record s { scan = scan.new }) }
{
    let prefixes = scan.prefixes();
    scan.begin_behind(Head::Future(prefixes, defined));
    Event::Went
}

/// The token of \aftergroup or \afterassignment is kept. Its only error is want of memory.
fn keep(
    table: &Eqtb,
    after_groups: &mut tx_list::Stack<KeptToken>,
    after_assignment: &mut Option<Token>,
    kind: AfterKind,
    token: Token,
) -> Result<Event, AllocError>
    ensures { (s : State) → s.phase ≡ Phase.Running → IfOk result (λ event. IsStepped (effects.effect (state_of (record s { table = table.now; after_groups = after_groups.old; after_assignment = after_assignment.old })) (Command.Keep kind token)) (record s { table = table.now; after_groups = after_groups.old; after_assignment = after_assignment.old }) event (record s { table = table.now; after_groups = after_groups.new; after_assignment = after_assignment.new })) }
{
    match kind {
        AfterKind::Assignment => *after_assignment = Some(token),
        AfterKind::Group => {
            let groups = table.depth();
            if groups > 0 {
                after_groups.push(KeptToken { groups, token })?;
            }
        }
    }
    Ok(Event::Went)
}

/// What is made of a size.
fn use_size(alloc: Global, s: &mut State, size_use: SizeUse, size: i32) -> Result<Event, AllocError>
    requires running { s.old.phase ≡ Phase.Running }
    requires between { s.old.scan.taken ≡ [] }
    ensures { IfOk result (λ event. IsStepped (effects.effect (state_of s.old) (Command.Sized size_use size)) s.old event s.new) }
{
    match size_use {
        SizeUse::Item(SizeKind::Kern) => {
            add(s, Node::Plain(Plain::Kern(KernKind::Explicit, size)))
        }
        SizeUse::Item(SizeKind::MathKern) => {
            add_noad(alloc, s, Noad::Plain(PlainNoad::Kern(size)))
        }
        SizeUse::Item(SizeKind::Above) => divide_sized(alloc, s, size),
        SizeUse::Shape => add_size(alloc, s, size),
    }
}

/// How leaders are spread, as an item says it.
fn spread(kind: LeadersKind) -> tx_node::LeadersKind
    ensures { result ≡ effects.spread kind }
{
    match kind {
        LeadersKind::Aligned => tx_node::LeadersKind::Aligned,
        LeadersKind::Centered => tx_node::LeadersKind::Centered,
        LeadersKind::Expanded => tx_node::LeadersKind::Expanded,
    }
}

/// What glue is where no leaders of a rule stand before it, but perhaps those of a box, which are used up then. Its only error is
/// want of memory.
fn box_skip(alloc: Global, scan: &mut CommandScan, glue: Glue) -> Result<Node, AllocError>
    requires { scan.old.taken ≡ [] }
    ensures { (s : State) → IfOk result (λ node. effects.skipping_by_box (state_of (record s { scan = scan.old })) glue (box_before scan.old.head) ≡ adding (state_of (record s { scan = scan.new })) (item_of node)) }
{
    match scan.box_leaders()? {
        None => Ok(Node::Plain(Plain::Glue(glue))),
        Some((kind, repeated)) => {
            let kind = spread(kind);
            scan.begin_fresh();
            Node::from_box_leaders(alloc, LeadersHead { kind, glue }, repeated)
        }
    }
}

/// What glue is: itself, or leaders where they stand before it, which are used up then. Its only error is want of memory.
fn skipped(alloc: Global, scan: &mut CommandScan, glue: Glue) -> Result<Node, AllocError>
    requires { scan.old.taken ≡ [] }
    ensures { (s : State) → IfOk result (λ node. effects.skipping (state_of (record s { scan = scan.old })) glue (leaders_before scan.old.head) ≡ adding (state_of (record s { scan = scan.new })) (item_of node)) }
{
    match scan.leaders() {
        None => box_skip(alloc, scan, glue),
        Some((kind, rule)) => {
            let kind = spread(kind);
            let leaders = Shared::Leaders(Leaders { kind, glue, rule });
            scan.begin_fresh();
            Node::from_shared(alloc, leaders)
        }
    }
}

/// \hskip or its kin: glue is appended, or leaders where they stand before it. Its only error is want of memory.
fn skip(alloc: Global, s: &mut State, glue: Glue) -> Result<Event, AllocError>
    requires running { s.old.phase ≡ Phase.Running }
    requires between { s.old.scan.taken ≡ [] }
    ensures { IfOk result (λ event. IsStepped (effects.effect (state_of s.old) (Command.Skip glue)) s.old event s.new) }
{
    let node = skipped(alloc, &mut s.scan, glue)?;
    add(s, node)
}

/// \leaders or its kin and the rule that they repeat: glue is to follow.
fn begin_leaders(scan: &mut CommandScan, kind: LeadersKind, rule: Rule) -> Event
    requires { scan.old.taken ≡ [] }
    ensures { (s : State) → s.phase ≡ Phase.Running → IsStepped (effects.effect (state_of (record s { scan = scan.old })) (Command.BeginLeaders kind rule)) (record s { scan = scan.old }) result (record s { scan = scan.new }) }
{
    scan.begin_behind(Head::Leading(kind, rule));
    Event::Went
}

/// A penalty, behind which the page builder is exercised.
fn penalize(alloc: Global, s: &mut State, number: i32) -> Result<Event, AllocError>
    requires { s.old.phase ≡ Phase.Running }
    ensures { IfOk result (λ event. IsStepped (effects.effect (state_of s.old) (Command.Penalize number)) s.old event s.new) }
{
    append_item(s.lists.nest.top(), Node::Plain(Plain::Penalty(number)))?;
    build_here(alloc, s)
}

/// The begin-group token that was awaited.
fn open_by(alloc: Global, s: &mut State, opener: Opener) -> Result<Event, AllocError>
    requires running { s.old.phase ≡ Phase.Running }
    requires between { s.old.scan.taken ≡ [] }
    ensures { IfOk result (λ event. IsStepped (effects.effect (state_of s.old) (Command.Open opener)) s.old event s.new) }
{
    match opener {
        Opener::Break(text) => begin_break(alloc, s, text),
        Opener::Choice(style) => open_formula(alloc, s, GroupKind::MathChoice(style)),
        Opener::Insert(class) => begin_vertical_list(alloc, s, GroupKind::Insert(class)),
        Opener::Output => begin_vertical_list(alloc, s, GroupKind::Output),
        Opener::NoAlign => begin_noalign(s),
    }
}

/// A character: below an accent that waits, the delimiter that is awaited, or one of a horizontal list, or of a formula.
#[inline(always)]
pub(crate) fn set_character(alloc: Global, s: &mut State, code: u8) -> Result<Event, AllocError>
    requires running { s.old.phase ≡ Phase.Running }
    requires between { s.old.scan.taken ≡ [] }
    ensures { IfOk result (λ event. IsStepped (effects.character_set (state_of s.old) code) s.old event s.new) }
{
    if s.scan.is_accenting() {
        return set_below(alloc, s, code);
    }
    if let Some(what) = s.scan.delimiting() {
        return set_delimiter(alloc, s, code, what);
    }
    match factor_now(s) {
        Some(factor) => collect(alloc, s, factor, code),
        None => tx_formula::set_character(alloc, s, code),
    }
}

/// A begin-group token, which in a formula begins a list of its own.
pub(crate) fn begin_group(alloc: Global, s: &mut State) -> Result<Event, AllocError>
    requires running { s.old.phase ≡ Phase.Running }
    requires between { s.old.scan.taken ≡ [] }
    ensures { IfOk result (λ event. IsStepped (effects.beginning_group (state_of s.old) s.old.scan.mode) s.old event s.new) }
{
    match s.scan.mode() {
        Mode::Math | Mode::DisplayMath => tx_formula::begin_group(alloc, s),
        _ => open(s, GroupKind::Simple),
    }
}

/// An end-group token.
pub(crate) fn end_group(alloc: Global, s: &mut State) -> Result<Event, AllocError>
    requires running { s.old.phase ≡ Phase.Running }
    requires between { s.old.scan.taken ≡ [] }
    ensures { IfOk result (λ event. IsStepped (effects.ending_group (state_of s.old) (kind_of s.old.table)) s.old event s.new) }
{
    match s.table.kind() {
        Some(GroupKind::MathPart(part)) => end_part(alloc, s, part),
        Some(GroupKind::MathChoice(style)) => end_choice(alloc, s, style),
        _ => tx_grouping::end_group(alloc, s),
    }
}

/// The end-group token of an alignment, behind which the page builder is exercised.
fn end_alignment(alloc: Global, s: &mut State) -> Result<Event, AllocError>
    requires { s.old.phase ≡ Phase.Running }
    ensures { IfOk result (λ event. IsStepped (effects.effect (state_of s.old) Command.EndAlign) s.old event s.new) }
{
    let event = end_align(alloc, s)?;
    build_behind(alloc, s, event)
}

/// `$$` in a paragraph, behind which the page builder is exercised.
fn start_display(alloc: Global, s: &mut State) -> Result<Event, AllocError>
    requires { s.old.phase ≡ Phase.Running }
    ensures { IfOk result (λ event. IsStepped (effects.effect (state_of s.old) Command.BeginDisplay) s.old event s.new) }
{
    let event = tx_formula::begin_display(alloc, s)?;
    build_outside_behind(alloc, s, event)
}

/// A paragraph goes on behind a display, and the page builder is exercised.
fn resume(alloc: Global, s: &mut State) -> Result<Event, AllocError>
    requires running { s.old.phase ≡ Phase.Running }
    requires between { s.old.scan.taken ≡ [] }
    ensures { IfOk result (λ event. IsStepped (effects.effect (state_of s.old) Command.GoOn) s.old event s.new) }
{
    let event = go_on_behind_display(&mut s.scan);
    build_outside_behind(alloc, s, event)
}

/// Carries out a command. Its only error is want of memory.
#[inline(never)]
fn carry_out(alloc: Global, s: &mut State, command: Command) -> Result<Event, AllocError>
    requires running { s.old.phase ≡ Phase.Running }
    requires between { s.old.scan.taken ≡ [] }
    ensures { IfOk result (λ event. IsStepped (effects.effect (state_of s.old) command) s.old event s.new) }
{
    match command {
        Command::Nothing => Ok(Event::Went),
        Command::Space => space(s),
        Command::ControlSpace => control_space(s),
        Command::Character(code) => set_character(alloc, s, code),
        Command::ItalicCorrection => correct_italic(s),
        Command::Indent(how) => indent(alloc, s, how),
        Command::InsertPar => insert_par(alloc, s),
        Command::EndParagraph => end_paragraph(alloc, s),
        Command::DiscretionaryHyphen => break_word(alloc, s),
        Command::BeginGroup => begin_group(alloc, s),
        Command::EndGroup => end_group(alloc, s),
        Command::BeginSemiSimple => open(s, GroupKind::SemiSimple),
        Command::EndSemiSimple => end_semi_simple(s),
        Command::MathShift => shift(alloc, s),
        Command::BeginFormula => tx_formula::begin_text(alloc, s, GroupKind::MathShift),
        Command::BeginDisplay => start_display(alloc, s),
        Command::EndDisplay => tx_formula::end_display(alloc, s),
        Command::GoOn => resume(alloc, s),
        Command::BeginNumber(side) => tx_formula::begin_number(alloc, s, side),
        Command::Script(part) => begin_script(alloc, s, part),
        Command::MathCharacter(number) => set_number(alloc, s, number),
        Command::BeginAtom(class) => begin_atom(alloc, &mut s.lists, &mut s.scan, class),
        Command::SetLimits(kind) => set_limits(alloc, s, kind),
        Command::SetStyle(style) => {
            add_noad(alloc, s, Noad::Plain(PlainNoad::Style(style_of(style))))
        }
        Command::BeginChoice => begin_choice(alloc, s),
        Command::BeginFraction(kind) => divide(alloc, s, plain_head(thickness_of(kind))),
        Command::BeginDelimited(what) => Ok(await_delimiter(&mut s.scan, what)),
        Command::Coded(kind, number) => set_coded(alloc, s, kind, number),
        Command::BeginAccent(code) => {
            begin_accent(&mut s.said, &s.table, &mut s.words, &mut s.scan, code)
        }
        Command::EndAccent => end_accent(alloc, &mut s.words, &mut s.scan, &mut s.lists),
        Command::MathSkip(glue) => add_noad(alloc, s, Noad::Plain(PlainNoad::Glue(glue))),
        Command::Nonscript => add_noad(alloc, s, Noad::Plain(PlainNoad::Nonscript)),
        Command::SetFamily(size, family, font) => set_family(s, size, family, font),
        Command::Prefix(found) => Ok(prefix(&mut s.scan, found)),
        Command::Define(defined, kind) => define(s, defined, kind),
        Command::Assign(assignment) => assign(alloc, s, assignment),
        Command::Sized(size_use, size) => use_size(alloc, s, size_use, size),
        Command::Rule(_, rule) => add_rule(alloc, s, rule),
        Command::BeginBox(kind, goal, context) => open_box(alloc, s, kind, goal, context),
        Command::UseBox(number, context) => use_box(alloc, s, number, context),
        Command::CopyBox(number, context) => copy_box(alloc, s, number, context),
        Command::LastBox(context) => take_box(alloc, s, context),
        Command::Unbox(kind, number) => unbox(s, kind, number),
        Command::Penalize(number) => penalize(alloc, s, number),
        Command::SplitBox(number, size, context) => split(alloc, s, number, size, context),
        Command::Skip(glue) => skip(alloc, s, glue),
        Command::BeginLeaders(kind, rule) => Ok(begin_leaders(&mut s.scan, kind, rule)),
        Command::SetDepth(depth) => set_depth(s, depth),
        Command::SetFactor(number) => set_factor(s, number),
        Command::SetPrevGraf(number) => set_graf(s, number),
        Command::BeginShape(lines) => begin_shape(alloc, s, lines),
        Command::Open(opener) => open_by(alloc, s, opener),
        Command::Align => Ok(align(s)),
        Command::BeginAlign(goal) => begin_align(alloc, s, goal),
        Command::ExpandOnce => expand_next(s),
        Command::Template(token) => feed_template(alloc, s, token),
        Command::BeginEntry(omitted) => begin_entry(alloc, s, omitted),
        Command::EndAlign => end_alignment(alloc, s),
        Command::SetDeadCycles(number) => set_dead_cycles(s, number),
        Command::SetPage(quantity, value) => set_page(s, quantity, value),
        Command::DefineFont(defined) => define_font(s, defined),
        Command::LoadFont(defined, name, size) => find_font(alloc, s, defined, name, size),
        Command::SetFontDimen(font, number, size) => set_dimension(s, font, number, size),
        Command::SetFontInteger(kind, font, value) => set_integer(s, kind, font, value),
        Command::Remove(kind) => Ok(remove(s, kind)),
        Command::End => end_run(alloc, s),
        Command::Interact(_) => end_assignment(s),
        Command::DefineMacro(defined, kind) => Ok(define_macro(alloc, s, defined, kind)),
        Command::BeginText(purpose) => Ok(begin_text(alloc, s, purpose)),
        Command::DefineFuture(defined) => Ok(define_future(&mut s.scan, defined)),
        Command::Keep(kind, token) => keep(
            &s.table,
            &mut s.after_groups,
            &mut s.after_assignment,
            kind,
            token,
        ),
    }
}

/// Carries out the command that is whole, where no scan of assignments has made it. Its only error is want of memory.
#[inline(never)]
pub(crate) fn carry_other_out(alloc: Global, s: &mut State) -> Result<Event, AllocError>
    requires running { s.old.phase ≡ Phase.Running }
    requires between { s.old.scan.taken ≡ [] }
    ensures { IfOk result (λ event. IsStepped (effects.effect (state_of s.old) s.old.made) s.old event s.new) }
{
    let command = s.made.take();
    carry_out(alloc, s, command)
}
