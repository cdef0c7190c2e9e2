//! Questions about kinds of atoms.
ghost use Rattle.std.specs.Prelude.{◌≡◌};
ghost use Rattle.tx_math.specs.Classes.{lacks_operand as lacks};
ghost use Rattle.tx_math.specs.Composing as spec;

use tx_mlist::AtomKind;

/// Whether it is a Bin.
pub fn is_bin(kind: AtomKind) -> bool
    ensures { result ≡ spec.is_bin kind }
{
    match kind {
        AtomKind::Bin => true,
        AtomKind::Ord | AtomKind::Op(_) | AtomKind::Rel | AtomKind::Open | AtomKind::Close => false,
        AtomKind::Punct | AtomKind::Inner => false,
        AtomKind::Over | AtomKind::Under | AtomKind::Center => false,
        AtomKind::Radical(_) | AtomKind::Accent(_) => false,
    }
}

/// Whether no Bin follows it.
pub fn awaits_operand(kind: AtomKind) -> bool
    ensures { result ≡ spec.awaits_operand kind }
{
    match kind {
        AtomKind::Op(_) | AtomKind::Bin | AtomKind::Rel | AtomKind::Open | AtomKind::Punct => true,
        AtomKind::Ord | AtomKind::Close | AtomKind::Inner => false,
        AtomKind::Over | AtomKind::Under | AtomKind::Center => false,
        AtomKind::Radical(_) | AtomKind::Accent(_) => false,
    }
}

/// Whether no Bin stands before it.
pub fn lacks_operand(kind: AtomKind) -> bool
    ensures { result ≡ lacks kind }
{
    match kind {
        AtomKind::Rel | AtomKind::Close | AtomKind::Punct => true,
        AtomKind::Ord | AtomKind::Op(_) | AtomKind::Bin | AtomKind::Open | AtomKind::Inner => false,
        AtomKind::Over | AtomKind::Under | AtomKind::Center => false,
        AtomKind::Radical(_) | AtomKind::Accent(_) => false,
    }
}

/// Whether it is one of the first seven classes.
pub fn may_follow(kind: AtomKind) -> bool
    ensures { result ≡ spec.may_follow kind }
{
    match kind {
        AtomKind::Ord | AtomKind::Op(_) | AtomKind::Bin | AtomKind::Rel | AtomKind::Open => true,
        AtomKind::Close | AtomKind::Punct => true,
        AtomKind::Inner | AtomKind::Over | AtomKind::Under | AtomKind::Center => false,
        AtomKind::Radical(_) | AtomKind::Accent(_) => false,
    }
}
