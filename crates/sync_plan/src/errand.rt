//! What a command is to transfer or remove.

use path_filters::Filters;
use s3_model::{Kind, Limits, Place, Text, Times};

/// What a command is to transfer or remove, and how.
///
/// `from` and `to` are extended already: where there may be many names, a key that is not empty ends in `/`. A removal
/// has no `to`. `content` is the content type of each upload; without one, `guess` has it follow from the file's name.
#[derive(Drop)]
pub struct Errand {
    pub kind: Kind,
    /// A source is removed once its transfer is done.
    pub moves: bool,
    pub from: Place,
    pub to: Option<Place>,
    /// There may be many names below the two places.
    pub many: bool,
    pub times: Times,
    /// Names that stand at the destination alone are removed.
    pub remove_extra: bool,
    pub content: Option<Text>,
    pub guess: bool,
    /// No transfer replaces anything.
    pub fresh: bool,
    pub filters: Filters,
    pub limits: Limits,
}
