//! Lists of tokens with one owner.

use tx_char::Token;
use tx_list::Items;

/// Tokens in the order in which they are read. Contracts see the list of them.
pub type Toks = Items<Token>;

/// Lists of tokens, as the arguments of a macro's use or the delimiters behind its parameters. Contracts see the list
/// of the lists.
pub type Lists = Items<Toks>;
