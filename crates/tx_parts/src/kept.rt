//! What can be kept of the parts of a state: each can be shared, and compared exactly.
ghost use Rattle.std.specs.Prelude.{◌≡◌, ◌↔◌, IsTrue, IfOk};

use crate::parts::{Due, FontRequest, KeptToken, OpenText};
use std::alloc::AllocError;
use tx_bytes::Bytes;
use tx_list::Kept;
use tx_tfm::Size;

impl Kept for Due {
    fn share(&self) -> Result<Self, AllocError> {
        match self {
            Due::OpenMain(name) => Ok(Due::OpenMain(name.clone()?)),
            Due::FileAbsent => Ok(Due::FileAbsent),
            Due::FileEnded => Ok(Due::FileEnded),
            Due::MainClosed => Ok(Due::MainClosed),
            Due::LoadFont(request) => Ok(Due::LoadFont(request.share()?)),
            Due::Boxes(work) => Ok(Due::Boxes(work.share()?)),
        }
    }

    fn same(&self, other: &Self) -> bool {
        match (self, other) {
            (Due::OpenMain(one), Due::OpenMain(other)) => one.same(other),
            (Due::FileAbsent, Due::FileAbsent) => true,
            (Due::FileEnded, Due::FileEnded) => true,
            (Due::MainClosed, Due::MainClosed) => true,
            (Due::LoadFont(one), Due::LoadFont(other)) => one.same(other),
            (Due::Boxes(one), Due::Boxes(other)) => one.same(other),
            _ => false,
        }
    }
}

/// The same bytes once more, if there are any. Its only error is want of memory.
fn share_bytes(bytes: &Option<Bytes>) -> Result<Option<Bytes>, AllocError>
    ensures { IfOk result (λ shared. shared ≡ bytes.now) }
{
    match bytes {
        Some(bytes) => Ok(Some(bytes.clone()?)),
        None => Ok(None),
    }
}

/// Whether both are the same bytes, or none.
fn same_bytes(one: &Option<Bytes>, other: &Option<Bytes>) -> bool
    ensures { IsTrue result ↔ (one.now ≡ other.now) }
{
    match (one, other) {
        (Some(bytes), Some(other_bytes)) => bytes.same(other_bytes),
        (None, None) => true,
        _ => false,
    }
}

/// Whether both are the same size.
fn same_size(one: Size, other: Size) -> bool
    ensures { IsTrue result ↔ (one ≡ other) }
{
    one == other
}

impl Kept for FontRequest {
    fn share(&self) -> Result<Self, AllocError> {
        Ok(FontRequest {
            defined: self.defined.clone()?,
            global: self.global,
            name: self.name.clone()?,
            size: self.size,
            file: share_bytes(&self.file)?,
        })
    }

    fn same(&self, other: &Self) -> bool {
        self.global == other.global
            && same_size(self.size, other.size)
            && self.defined.same(&other.defined)
            && self.name.same(&other.name)
            && same_bytes(&self.file, &other.file)
    }
}

impl Kept for OpenText {
    fn share(&self) -> Result<Self, AllocError> {
        match self {
            OpenText::Definition(defined, kind, scan) => Ok(OpenText::Definition(
                defined.clone()?,
                *kind,
                scan.share()?,
            )),
            OpenText::Absorbed(purpose, scan) => Ok(OpenText::Absorbed(*purpose, scan.share()?)),
            OpenText::List(place, scan) => Ok(OpenText::List(place.clone()?, scan.share()?)),
        }
    }

    fn same(&self, other: &Self) -> bool {
        match (self, other) {
            (OpenText::Definition(defined, kind, one), OpenText::Definition(also, like, other)) => {
                kind == like && defined.same(also) && one.same(other)
            }
            (OpenText::Absorbed(purpose, one), OpenText::Absorbed(like, other)) => {
                purpose == like && one.same(other)
            }
            (OpenText::List(place, one), OpenText::List(also, other)) => {
                place.same(also) && one.same(other)
            }
            _ => false,
        }
    }
}

impl Kept for KeptToken {
    fn share(&self) -> Result<Self, AllocError> {
        Ok(KeptToken {
            groups: self.groups,
            token: self.token.clone()?,
        })
    }

    fn same(&self, other: &Self) -> bool {
        self.groups == other.groups && self.token.same(&other.token)
    }
}
