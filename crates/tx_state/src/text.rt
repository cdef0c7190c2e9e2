//! What is taken next of the text that is being taken.
ghost use Rattle.std.specs.Prelude.{◌≡◌};
ghost use Rattle.tx_state.specs.Texts as spec;

use tx_expand::Wanted;
use tx_parts::OpenText;

/// What a text takes next.
pub fn text_wanted(text: &OpenText) -> Wanted
    ensures { result ≡ spec.text_wanted text.now }
{
    Wanted {
        want: text.want(),
        text: true,
        takes_the: text.takes_the(),
        names: false,
        peeks: false,
    }
}
