//! The preamble of an alignment (TeX: The Program, sections 777 to 785).
ghost use Rattle.std.specs.Prelude.{◌≡◌, ◌↔◌, length, Some, None, Ok, IfOk, IsTrue, MatchOption, OnOk};
ghost use Rattle.std.specs.Option.{option_copied};
ghost use Rattle.tx_align.specs.Columns as counted;
ghost use Rattle.tx_align.specs.Preambles as spec;
ghost use Rattle.tx_align.specs.Preambles.{IsFed, nothing_read};

use crate::column::Column;
use crate::part::Part;
use crate::pre_item::PreItem;
use std::alloc::{AllocError, Global};
use std::marker::Model;
use std::mem;
use tx_char::Token;
use tx_list::{Items, Kept};
use tx_num::Glue;
use tx_seen::{Fed, TexError, Want};
use tx_toklist::{TokList, Toks};

/// A preamble of which some is read. Contracts see the columns that are whole, with their u- and v-parts and the glue between them,
/// from which one on they repeat, what is read of the next one, and \tabskip. After an error it may only be dropped.
#[derive(Drop)]
pub struct Preamble {
    first: Glue,
    columns: Items<Column>,
    repeats: Option<usize>,
    skip: Glue,
    u_part: Toks,
    v_part: Toks,
    part: Part,
}

impl Model for Preamble {
    ghost use Rattle.tx_align.specs.Preambles.{Forming};

    ghost Value = { Forming };

    ghost view = { λ p. record { first = p.first; columns = p.columns; repeats = p.repeats; skip = p.skip; u_part = p.u_part; v_part = p.v_part; part = p.part } };
}

impl Preamble {
    /// A preamble of which nothing is read, where \tabskip is this glue; takes no memory.
    pub fn new(alloc: Global, tabskip: Glue) -> Preamble
        ensures { result ≡ nothing_read tabskip }
    {
        Preamble {
            first: tabskip,
            columns: Items::new(alloc),
            repeats: None,
            skip: tabskip,
            u_part: Toks::new(alloc),
            v_part: Toks::new(alloc),
            part: Part::Before,
        }
    }

    /// Takes one more item, at first and after More. `MisplacedAlignment` where a column has no #, or a second one, or where & tells
    /// a second time that columns repeat; `IncompleteText` at an \outer macro and at the end of a file. Done comes at the \cr that
    /// ends the preamble. Its only further error is want of memory.
    pub fn feed(&mut self, alloc: Global, item: PreItem) -> Result<Fed<()>, AllocError>
        ensures { IfOk result (λ fed. IsFed (spec.takes self.old item self.old.part) fed self.new) }
    {
        match self.part {
            Part::Before => self.feed_before(item),
            Part::Behind => self.feed_behind(alloc, item),
            Part::Ended => Ok(self.answer()),
        }
    }

    /// The answer where nothing is wrong.
    fn answer(&self) -> Fed<()>
        ensures { result ≡ spec.answer self.now.part }
    {
        match self.part {
            Part::Before | Part::Behind => Fed::More(Want::Raw),
            Part::Ended => Fed::Done((), 0),
        }
    }

    /// Takes an item of a u-part. Its only further error is want of memory.
    fn feed_before(&mut self, item: PreItem) -> Result<Fed<()>, AllocError>
        ensures { IfOk result (λ fed. IsFed (spec.before_takes self.old item) fed self.new) }
    {
        match item {
            PreItem::Token(token) => {
                self.u_part.push(token)?;
                Ok(self.answer())
            }
            PreItem::Space(token) => self.feed_space(token),
            PreItem::Param => {
                self.part = Part::Behind;
                Ok(self.answer())
            }
            PreItem::Tab => Ok(self.feed_first_tab()),
            PreItem::Cr => Ok(Fed::Wrong(TexError::MisplacedAlignment)),
            PreItem::Tabskip(glue) => {
                self.skip = glue;
                Ok(self.answer())
            }
            PreItem::Outer | PreItem::EndOfFile => Ok(Fed::Wrong(TexError::IncompleteText)),
        }
    }

    /// Takes a space of a u-part, which vanishes at its beginning. Its only error is want of memory.
    fn feed_space(&mut self, token: Token) -> Result<Fed<()>, AllocError>
        ensures { IfOk result (λ fed. IsFed (Ok (spec.space_in_u_part self.old token)) fed self.new) }
    {
        if self.u_part.len() == 0 {
            return Ok(self.answer());
        }
        self.u_part.push(token)?;
        Ok(self.answer())
    }

    /// Takes & in a u-part: at its beginning it tells that columns repeat, unless they do already.
    fn feed_first_tab(&mut self) -> Fed<()>
        ensures { IsFed (spec.tab_in_u_part self.old) result self.new }
    {
        if self.u_part.len() == 0 && !self.repeats.is_some() {
            self.repeats = Some(self.columns.len());
            return self.answer();
        }
        Fed::Wrong(TexError::MisplacedAlignment)
    }

    /// Takes an item of a v-part. Its only further error is want of memory.
    fn feed_behind(&mut self, alloc: Global, item: PreItem) -> Result<Fed<()>, AllocError>
        ensures { IfOk result (λ fed. IsFed (spec.behind_takes self.old item) fed self.new) }
    {
        match item {
            PreItem::Token(token) => {
                self.v_part.push(token)?;
                Ok(self.answer())
            }
            PreItem::Space(token) => {
                self.v_part.push(token)?;
                Ok(self.answer())
            }
            PreItem::Param => Ok(Fed::Wrong(TexError::MisplacedAlignment)),
            PreItem::Tab => {
                self.end_column(alloc, Part::Before)?;
                Ok(self.answer())
            }
            PreItem::Cr => {
                self.end_column(alloc, Part::Ended)?;
                Ok(self.answer())
            }
            PreItem::Tabskip(glue) => {
                self.skip = glue;
                Ok(self.answer())
            }
            PreItem::Outer | PreItem::EndOfFile => Ok(Fed::Wrong(TexError::IncompleteText)),
        }
    }

    /// Puts the column that was read behind the others. Its only error is want of memory.
    fn end_column(&mut self, alloc: Global, part: Part) -> Result<(), AllocError>
        ensures { OnOk result (self.new ≡ spec.with_column self.old part) }
    {
        let u_part = mem::replace(&mut self.u_part, Toks::new(alloc));
        let v_part = mem::replace(&mut self.v_part, Toks::new(alloc));
        let column = column_of(alloc, u_part, v_part, self.skip)?;
        self.columns.push(column)?;
        self.part = part;
        Ok(())
    }

    /// The column that a column is like, counted from 0, those counted that repeat; None exactly where there is none.
    fn column(&self, column: usize) -> Option<&Column>
        ensures { option_copied result ≡ counted.column_of self.now column }
    {
        let place = source(self.repeats, self.columns.len(), column);
        self.columns.as_slice().get(place)
    }

    /// The u- and the v-part of a column, counted from 0, those counted that repeat; None exactly where the preamble has no such
    /// column.
    pub fn parts(&self, column: u32) -> Option<(&TokList, &TokList)>
        ensures { MatchOption result (counted.parts self.now column ≡ None) (λ lists. counted.parts self.now column ≡ Some (lists.0.now, lists.1.now)) }
    {
        match self.column(column as usize) {
            Some(found) => Some((&found.u_part, &found.v_part)),
            None => None,
        }
    }

    /// Whether the preamble has so many columns, those counted that repeat.
    pub(crate) fn has_columns(&self, count: usize) -> bool
        ensures { result ≡ counted.has_columns self.now count }
    {
        match self.column(count.saturating_sub(1)) {
            Some(_) => true,
            None => false,
        }
    }

    /// The glue before the first column.
    pub(crate) fn first(&self) -> Glue
        ensures { result ≡ self.now.first }
    {
        self.first
    }

    /// How many columns it has of its own.
    pub(crate) fn count(&self) -> usize
        ensures { result ≡ length self.now.columns }
    {
        self.columns.len()
    }

    /// The glue behind a column, counted from 0, those counted that repeat.
    pub(crate) fn skip_behind(&self, column: usize) -> Glue
        ensures { result ≡ counted.skip_behind self.now column }
    {
        match self.column(column) {
            Some(found) => found.skip,
            None => Glue::zero(),
        }
    }

    /// Whether both have read the same.
    pub fn same(&self, other: &Preamble) -> bool
        ensures { IsTrue result ↔ (self.now ≡ other.now) }
    {
        self.part == other.part
            && same_place(self.repeats, other.repeats)
            && self.first.same(&other.first)
            && self.skip.same(&other.skip)
            && self.u_part.same(&other.u_part)
            && self.v_part.same(&other.v_part)
            && self.columns.same(&other.columns)
    }

    /// The same preamble once more, which shares the parts of its columns. Its only error is want of memory.
    pub fn share(&self) -> Result<Preamble, AllocError>
        ensures { IfOk result (λ shared. shared ≡ self.now) }
    {
        Ok(Preamble {
            first: self.first,
            columns: self.columns.share()?,
            repeats: self.repeats,
            skip: self.skip,
            u_part: self.u_part.share()?,
            v_part: self.v_part.share()?,
            part: self.part,
        })
    }
}

/// Whether both are the same place, or none.
fn same_place(one: Option<usize>, other: Option<usize>) -> bool
    ensures { IsTrue result ↔ (one ≡ other) }
{
    match (one, other) {
        (None, None) => true,
        (Some(one), Some(other)) => one == other,
        (None, Some(_)) | (Some(_), None) => false,
    }
}

/// A column of these parts. Its only error is want of memory.
fn column_of(alloc: Global, u_part: Toks, v_part: Toks, skip: Glue) -> Result<Column, AllocError>
    ensures { IfOk result (λ column. column ≡ record { u_part = u_part; v_part = v_part; skip = skip }) }
{
    Ok(Column {
        u_part: TokList::from_toks(alloc, u_part)?,
        v_part: TokList::from_toks(alloc, v_part)?,
        skip,
    })
}

/// Which of so many columns a column is like, where they repeat from one of them on or don't.
fn source(repeats: Option<usize>, count: usize, column: usize) -> usize
    ensures { result ≡ counted.source repeats count column }
{
    match repeats {
        None => column,
        Some(from) => {
            if from < count && count <= column {
                from + (column - from) % (count - from)
            } else {
                column
            }
        }
    }
}
