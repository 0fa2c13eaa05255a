use crate::short_list::Blank;

/// An element of a cell.
#[derive(Clone, Copy, Debug, PartialEq, Eq)]
pub enum Key {
    /// A name.
    Named(u16),
    /// An index.
    Indexed(u32),
}

/// What stands in the places of a cell that hold no key yet.
impl Default for Key {
    ghost use Rattle.std.specs.Prelude.{◌≡◌};
    ghost use Rattle.rpl.specs.declared.element.Key.TheVariants.{Named};

    ghost is_default = { λ key. key ≡ Named 0 };

    fn default() -> Key {
        Key::Named(0)
    }
}

impl Blank for Key {
    ghost use Rattle.rpl.specs.declared.element.Key.TheVariants.{Named};

    ghost blank = { Named 0 };

    fn blank() -> Key {
        Key::default()
    }
}

/// An element of a path that stands for just one key.
#[derive(Clone, Copy, Debug, PartialEq, Eq)]
pub enum Part {
    /// This name.
    Name(u16),
    /// This index.
    Index(u32),
    /// Any index, `[?]`.
    AnyIndex,
}

/// An element of a path.
#[derive(Clone, Copy, Debug, Default, PartialEq, Eq)]
pub enum Element {
    /// `*`: no key, or one key of either sort and then itself.
    #[default]
    Star,
    /// Just one key.
    One(Part),
}

impl Blank for Element {
    ghost use Rattle.rpl.specs.declared.element.Element.TheVariants.{Star};

    ghost blank = { Star };

    fn blank() -> Element {
        Element::default()
    }
}
