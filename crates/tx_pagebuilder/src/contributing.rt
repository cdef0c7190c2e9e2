//! Contributing a node to a page.
ghost use Rattle.std.specs.Prelude.{◌≡◌, ◌≢◌, IfOk, IfErr, OnOk, Ok, Err};
ghost use Rattle.tx_num.specs.Glue.{IsDimension};
ghost use Rattle.tx_node.specs.Nodes.{item_of, list_of};
ghost use Rattle.tx_pagebuilder.specs.declared.error.PageError.TheVariants.{OutOfMemory};
ghost use Rattle.tx_pagebuilder.specs.declared.measures.Built.TheVariants.{Fires};
ghost use Rattle.tx_pagebuilder.specs.Contributed as spec;
ghost use Rattle.tx_pagebuilder.specs.Pages.{grown, put, with_node, has_solid, is_frozen, frozen};
ghost use Rattle.tx_pagebuilder.specs.Placing.{IsMeasured};

use crate::error::PageError;
use crate::inserting::taken_in;
use crate::kern::{kern_node, kern_of};
use crate::measures::{Built, Contents, Measures};
use crate::page::Page;
use crate::params::{ClassParams, PageParams};
use crate::placing::place_kind;
use std::alloc::AllocError;
use tx_insert::{Kind, SplitError, glue_above, is_glue, kind_of, no_sums};
use tx_node::{InsertHead, Node, Plain};
use tx_num::Glue;

fn has_solid(contents: Contents) -> bool
    ensures { result ≡ has_solid contents }
{
    match contents {
        Contents::Nothing | Contents::Fired | Contents::Inserts => false,
        Contents::Solid => true,
    }
}

fn is_frozen(contents: Contents) -> bool
    ensures { result ≡ is_frozen contents }
{
    match contents {
        Contents::Nothing | Contents::Fired => false,
        Contents::Inserts | Contents::Solid => true,
    }
}

/// The measures of a page that gets its first box, rule or insertion.
fn frozen(params: &PageParams, contents: Contents, measures: &Measures) -> Measures
    requires vsize { IsDimension params.now.vsize }
    requires most { IsDimension params.now.max_depth }
    ensures value { result ≡ frozen params.now.vsize params.now.max_depth contents measures.now }
    ensures measured { IsMeasured result }
{
    let mut more = *measures;
    more.contents = contents;
    more.goal = params.vsize;
    more.most = params.max_depth;
    more.sums = no_sums();
    more
}

/// The measures of a page that has a box or a rule from now on.
fn solid_measures(params: &PageParams, measures: &Measures) -> Measures
    requires measured { IsMeasured measures.now }
    requires vsize { IsDimension params.now.vsize }
    requires most { IsDimension params.now.max_depth }
    ensures value { result ≡ spec.solid_measures params.now measures.now }
    ensures measured { IsMeasured result }
{
    if is_frozen(measures.contents) {
        let mut more = *measures;
        more.contents = Contents::Solid;
        more
    } else {
        frozen(params, Contents::Solid, measures)
    }
}

/// The measures of a page that has an insertion from now on.
fn insert_measures(params: &PageParams, measures: &Measures) -> Measures
    requires measured { IsMeasured measures.now }
    requires vsize { IsDimension params.now.vsize }
    requires most { IsDimension params.now.max_depth }
    ensures value { result ≡ spec.insert_measures params.now measures.now }
    ensures measured { IsMeasured result }
{
    if is_frozen(measures.contents) {
        *measures
    } else {
        frozen(params, Contents::Inserts, measures)
    }
}

/// The registers of a class where none are given.
fn void_class() -> ClassParams
    ensures { result ≡ spec.void_class }
{
    ClassParams {
        box_size: None,
        is_hbox: false,
        count: 0,
        dimen: 0,
        skip: Glue::zero(),
    }
}

impl Page {
    /// Puts a node behind the others. Its only error is want of memory.
    fn push(&mut self, node: Node) -> Result<(), AllocError>
        ensures { OnOk result (self.new ≡ with_node self.old (item_of node)) }
    {
        self.nodes.push(node)
    }

    /// Puts a node behind the others, at which the page may fire, else it counts.
    fn put(&mut self, before_glue: bool, kind: &Kind, node: Node) -> Result<Built, PageError>
        ensures ok { IfOk result (λ built. put self.old before_glue kind.now (item_of node) ≡ Ok (grown self.new built)) }
        ensures error { IfErr result (λ e. e ≢ OutOfMemory → put self.old before_glue kind.now (item_of node) ≡ Err e) }
    {
        let placed = place_kind(&self.measures, self.nodes.len(), before_glue, kind)?;
        self.push(node)?;
        self.measures = placed.measures;
        Ok(placed.built)
    }

    /// Puts the kern that waits on the page.
    fn settle(&mut self, before_glue: bool) -> Result<Built, PageError>
        ensures ok { IfOk result (λ built. spec.settled self.old before_glue ≡ Ok (grown self.new built)) }
        ensures error { IfErr result (λ e. e ≢ OutOfMemory → spec.settled self.old before_glue ≡ Err e) }
    {
        match self.waiting {
            None => Ok(Built::Went),
            Some(kern) => {
                self.waiting = None;
                self.put(before_glue, &Kind::Kern(kern.size), kern_node(kern))
            }
        }
    }

    /// Puts this glue before the first box or rule.
    fn top_with(&mut self, glue: Result<Glue, SplitError>) -> Result<Built, PageError>
        ensures ok { IfOk result (λ built. spec.topped_by self.old glue ≡ Ok (grown self.new built)) }
        ensures error { IfErr result (λ e. e ≢ OutOfMemory → spec.topped_by self.old glue ≡ Err e) }
    {
        let glue = glue?;
        self.put(false, &Kind::Skip(glue), Node::Plain(Plain::Glue(glue)))
    }

    /// From now on the page has a box or a rule.
    fn begin_solid(&mut self, params: &PageParams)
        requires vsize { IsDimension params.now.vsize }
        requires most { IsDimension params.now.max_depth }
        ensures { self.new ≡ record self.old { measures = spec.solid_measures params.now self.old.measures } }
    {
        self.measures = solid_measures(params, &self.measures);
    }

    /// Puts \topskip before the first box or rule, which is so high, in sp, where the page had none.
    fn top_first(&mut self, height: i32, params: &PageParams) -> Result<Built, PageError>
        requires vsize { IsDimension params.now.vsize }
        requires most { IsDimension params.now.max_depth }
        ensures ok { IfOk result (λ built. spec.topped_first self.old height params.now ≡ Ok (grown self.new built)) }
        ensures error { IfErr result (λ e. e ≢ OutOfMemory → spec.topped_first self.old height params.now ≡ Err e) }
    {
        let glue = glue_above(&params.top_skip, height);
        self.begin_solid(params);
        self.top_with(glue)
    }

    /// Puts \topskip before the first box or rule, which is so high, in sp.
    fn top(&mut self, height: i32, params: &PageParams) -> Result<Built, PageError>
        requires vsize { IsDimension params.now.vsize }
        requires most { IsDimension params.now.max_depth }
        ensures ok { IfOk result (λ built. spec.topped self.old height params.now ≡ Ok (grown self.new built)) }
        ensures error { IfErr result (λ e. e ≢ OutOfMemory → spec.topped self.old height params.now ≡ Err e) }
    {
        if has_solid(self.measures.contents) {
            return Ok(Built::Went);
        }
        self.top_first(height, params)
    }

    /// Puts a node behind the others, where the page fired before it.
    fn put_behind(&mut self, node: Node) -> Result<Built, PageError>
        ensures ok { IfOk result (λ built. grown (with_node self.old (item_of node)) Fires ≡ grown self.new built) }
        ensures error { IfErr result (λ e. e ≡ OutOfMemory) }
    {
        self.push(node)?;
        Ok(Built::Fires)
    }

    /// Contributes a box or a rule, which is so high, in sp.
    fn contribute_solid(
        &mut self,
        height: i32,
        kind: &Kind,
        node: Node,
        params: &PageParams,
    ) -> Result<Built, PageError>
        requires vsize { IsDimension params.now.vsize }
        requires most { IsDimension params.now.max_depth }
        ensures ok { IfOk result (λ built. spec.with_solid self.old height kind.now (item_of node) params.now ≡ Ok (grown self.new built)) }
        ensures error { IfErr result (λ e. e ≢ OutOfMemory → spec.with_solid self.old height kind.now (item_of node) params.now ≡ Err e) }
    {
        match self.top(height, params)? {
            Built::Went => self.put(false, kind, node),
            Built::Fires => self.put_behind(node),
        }
    }

    /// Contributes glue or a penalty.
    fn contribute_discardable(&mut self, kind: &Kind, node: Node) -> Result<Built, PageError>
        ensures ok { IfOk result (λ built. spec.with_discardable self.old kind.now (item_of node) ≡ Ok (grown self.new built)) }
        ensures error { IfErr result (λ e. e ≢ OutOfMemory → spec.with_discardable self.old kind.now (item_of node) ≡ Err e) }
    {
        if has_solid(self.measures.contents) {
            self.put(false, kind, node)
        } else {
            Ok(Built::Went)
        }
    }

    /// Contributes a kern, which waits.
    fn contribute_kern(&mut self, node: &Node) -> Built
        ensures { spec.with_kern self.old (item_of node.now) ≡ grown self.new result }
    {
        if has_solid(self.measures.contents) {
            self.waiting = kern_of(node);
            return Built::Went;
        }
        Built::Went
    }

    /// Counts an insertion, before it stands on the page.
    fn insert(
        &mut self,
        head: &InsertHead,
        list: &[Node],
        params: &PageParams,
    ) -> Result<(), PageError>
        requires vsize { IsDimension params.now.vsize }
        requires most { IsDimension params.now.max_depth }
        ensures ok { OnOk result (spec.inserted self.old head.now (list_of list.now) params.now ≡ Ok self.new) }
        ensures error { IfErr result (λ e. e ≢ OutOfMemory → spec.inserted self.old head.now (list_of list.now) params.now ≡ Err e) }
    {
        if head.class >= 255 {
            return Err(PageError::ClassOutOfRange);
        }
        let class = params.class.unwrap_or(void_class());
        let measures = insert_measures(params, &self.measures);
        let made = taken_in(
            &measures,
            self.classes.as_slice(),
            self.nodes.len(),
            head,
            list,
            &class,
        )?;
        self.classes.set(made.class)?;
        self.measures = made.measures;
        Ok(())
    }

    /// Counts a node, if it is an insertion, before it stands on the page.
    #[tactic(auto, using(crate::proofs::Lists::listed))]
    fn prepare(&mut self, node: &Node, params: &PageParams) -> Result<(), PageError>
        requires vsize { IsDimension params.now.vsize }
        requires most { IsDimension params.now.max_depth }
        ensures ok { OnOk result (spec.prepared self.old (item_of node.now) params.now ≡ Ok self.new) }
        ensures error { IfErr result (λ e. e ≢ OutOfMemory → spec.prepared self.old (item_of node.now) params.now ≡ Err e) }
    {
        match node {
            Node::Insertion(inner) => self.insert(&inner.head(), inner.list(), params),
            Node::Plain(_) | Node::Shared(_) | Node::Box(_, _) => Ok(()),
            Node::Discretionary(_) | Node::Adjustment(_) => Ok(()),
            Node::BoxLeaders(_) => Ok(()),
        }
    }

    /// Contributes what stands still: a mark, a special, an insertion.
    fn contribute_still(&mut self, node: Node, params: &PageParams) -> Result<Built, PageError>
        requires vsize { IsDimension params.now.vsize }
        requires most { IsDimension params.now.max_depth }
        ensures ok { IfOk result (λ built. spec.with_still self.old (item_of node) params.now ≡ Ok (grown self.new built)) }
        ensures error { IfErr result (λ e. e ≢ OutOfMemory → spec.with_still self.old (item_of node) params.now ≡ Err e) }
    {
        self.prepare(&node, params)?;
        self.put(false, &Kind::Still, node)
    }

    /// Contributes a node of this kind, before which no kern waits.
    fn take(&mut self, kind: Kind, node: Node, params: &PageParams) -> Result<Built, PageError>
        requires vsize { IsDimension params.now.vsize }
        requires most { IsDimension params.now.max_depth }
        ensures ok { IfOk result (λ built. spec.taken self.old (item_of node) params.now kind ≡ Ok (grown self.new built)) }
        ensures error { IfErr result (λ e. e ≢ OutOfMemory → spec.taken self.old (item_of node) params.now kind ≡ Err e) }
    {
        match kind {
            Kind::Solid(height, _) => self.contribute_solid(height, &kind, node, params),
            Kind::Skip(_) => self.contribute_discardable(&kind, node),
            Kind::Kern(_) => Ok(self.contribute_kern(&node)),
            Kind::Penalty(_) => self.contribute_discardable(&kind, node),
            Kind::Still => self.contribute_still(node, params),
        }
    }

    /// Contributes a node to the page (TeX: The Program, sections 994 to 1010), and tells whether the page is to be fired. Glue,
    /// kerns and penalties before its first box or rule vanish; before that comes \topskip, less its height and at least 0. A kern
    /// waits until the next node comes, which tells whether a break at it is legal. An insertion makes the goal fall, by all of it
    /// that fits or by the part that is split off. A break is the best one if none before it costs less; the page fires at one that
    /// is forced, or at which it is overfull, and then the node just stands behind it.
    ///
    /// The page may only be dropped behind an error. The errors: `ClassOutOfRange` for an insertion of class 255; `WrongBox` where
    /// the box of a class is an \hbox when its first insertion comes; `EndlessShrink` for glue on the page, \skip of a class when
    /// its first insertion comes, or glue of an insertion that is split, that shrinks infinitely; `SizeOutOfRange` for a sum or the
    /// goal that is no dimension, and for an \insertpenalties past 2^31-1; and want of memory.
    #[tactic(auto, unfolding(crate::specs::Contributed::contributed))]
    pub fn contribute(&mut self, node: Node, params: &PageParams) -> Result<Built, PageError>
        requires vsize { IsDimension params.now.vsize }
        requires most { IsDimension params.now.max_depth }
        ensures ok { IfOk result (λ built. spec.contributed self.old (item_of node) params.now ≡ Ok (grown self.new built)) }
        ensures error { IfErr result (λ e. e ≢ OutOfMemory → spec.contributed self.old (item_of node) params.now ≡ Err e) }
    {
        let kind = kind_of(&node);
        match self.settle(is_glue(&kind))? {
            Built::Went => self.take(kind, node, params),
            Built::Fires => self.put_behind(node),
        }
    }
}
