//! The marks of pages and of splits.
ghost use Rattle.std.specs.Prelude.{◌≡◌, ◌↔◌, IsTrue, IfOk, OnOk};
ghost use Rattle.tx_output.specs.Marks as spec;

use std::alloc::AllocError;
use std::mem::replace;
use tx_list::{both, same_option, share_option};
use tx_prim::MarkKind;
use tx_toklist::TokList;

/// The marks (TeX: The Program, section 382), each None where there is none.
#[derive(Drop)]
pub struct Marks {
    /// \topmark: the last one before the page.
    pub top: Option<TokList>,
    /// \firstmark and \botmark: the first and the last one on it.
    pub first: Option<TokList>,
    pub bottom: Option<TokList>,
    /// \splitfirstmark and \splitbotmark: those of what was split off last.
    pub split_first: Option<TokList>,
    pub split_bottom: Option<TokList>,
}

impl Marks {
    /// No mark.
    pub fn new() -> Marks
        ensures { result ≡ spec.no_marks }
    {
        Marks {
            top: None,
            first: None,
            bottom: None,
            split_first: None,
            split_bottom: None,
        }
    }

    /// A mark, if there is one. Its only error is that no more owners can be counted.
    pub fn get(&self, kind: MarkKind) -> Result<Option<TokList>, AllocError>
        ensures { IfOk result (λ mark. mark ≡ spec.mark_of kind self.now) }
    {
        match kind {
            MarkKind::Top => share_option(&self.top),
            MarkKind::First => share_option(&self.first),
            MarkKind::Bottom => share_option(&self.bottom),
            MarkKind::SplitFirst => share_option(&self.split_first),
            MarkKind::SplitBottom => share_option(&self.split_bottom),
        }
    }

    /// The marks behind a page that was fired, of which these are the first and the last one, if it has some (sections 1012 and
    /// 1016). Its only error is that no more owners can be counted.
    pub fn turn_page(
        &mut self,
        first: Option<TokList>,
        last: Option<TokList>,
    ) -> Result<(), AllocError>
        ensures { OnOk result (self.new ≡ spec.of_page first last self.old) }
    {
        let before = share_option(&self.bottom)?;
        let top = share_option(&self.bottom)?;
        self.top = top;
        self.first = first.or(before);
        if last.is_some() {
            self.bottom = last;
        }
        Ok(())
    }

    /// The marks behind a split, of which these are the first and the last one, if it has some (section 977).
    pub fn split(&mut self, first: Option<TokList>, last: Option<TokList>)
        ensures { self.new ≡ record self.old { split_first = first; split_bottom = last } }
    {
        drop(replace(&mut self.split_first, first));
        drop(replace(&mut self.split_bottom, last));
    }

    /// Whether both are the same.
    pub fn same(&self, other: &Marks) -> bool
        ensures { IsTrue result ↔ (self.now ≡ other.now) }
    {
        same_option(&self.top, &other.top)
            && same_option(&self.first, &other.first)
            && same_option(&self.bottom, &other.bottom)
            && same_option(&self.split_first, &other.split_first)
            && same_option(&self.split_bottom, &other.split_bottom)
    }

    /// The same once more. Its only error is that no more owners can be counted.
    pub fn share(&self) -> Result<Marks, AllocError>
        ensures { IfOk result (λ shared. shared ≡ self.now) }
    {
        let page = both(
            share_option(&self.top),
            both(share_option(&self.first), share_option(&self.bottom)),
        );
        let split = both(
            share_option(&self.split_first),
            share_option(&self.split_bottom),
        );
        let ((top, (first, bottom)), (split_first, split_bottom)) = both(page, split)?;
        Ok(Marks {
            top,
            first,
            bottom,
            split_first,
            split_bottom,
        })
    }
}
