//! The lists that TeX builds, one in another (TeX: The Program, parts 16 and 47): a list with its mode and what the mode keeps
//! beside it; how boxes and rules are appended, with the leading of vertical lists; and what commands read, take away and put
//! at a list's end.
//!
//! Proved: a nest is the list on top and those around it; what is appended stands behind the rest, with leading by \prevdepth
//! where the mode is vertical; what is read and taken away is the last item where it is of that kind, and nothing else is.
//! Nothing is left to tests.
//!
//! Modules in reading order: `factor`, `state`, `graf`, `list`, `nest`, `leading`, `append`, `last`, `change`.
#![tactic(auto)]

mod append;
mod change;
mod factor;
mod graf;
mod last;
mod leading;
mod list;
mod nest;
mod state;

pub use append::{append_box, append_leading, append_rule};
pub use change::{
    append_item, append_items, has_last, is_bare_page, remove_item, set_prev_depth,
    set_space_factor,
};
pub use factor::SpaceFactor;
pub use graf::{go_on_behind, graf_of, raised_graf, set_prev_graf};
pub use last::{has_last_box, last_kern, last_penalty, last_skip, take_last_box};
pub use leading::{LeadingParams, NestError, leading_behind};
pub use list::ModeList;
pub use nest::Nest;
pub use state::ModeState;
