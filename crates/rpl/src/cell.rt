use crate::element::Key;
use crate::short_list::ShortList;

/// A cell of at most 22 keys.
pub type Cell = ShortList<Key, 22>;
