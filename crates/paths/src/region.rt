use rpl::{Element, ShortList};

/// A path of at most 12 elements.
pub type Region = ShortList<Element, 12>;
