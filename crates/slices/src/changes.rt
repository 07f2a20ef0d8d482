//! The change of a group's contents by a claim.
use agreement::Change;
use groups::Content;
use partitions::Rows;
use requests::Group;

/// The change that sets a group's contents to those of these rows, whatever they were.
#[derive(Drop)]
pub(crate) struct ContentOf<'a, T: Rows> {
    pub(crate) rows: &'a T,
    pub(crate) group: Group,
}

impl<T: Rows> Change<Content> for ContentOf<'_, T> {
    ghost use Rattle.groups.specs.Content.{content};

    ghost changed = { λ of before. content (T.tables of.rows.now) of.group };
}
