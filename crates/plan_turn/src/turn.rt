// What one round decides.
#[derive(Clone, Copy, Debug, PartialEq, Eq)]
pub enum Turn {
    // The step of this kind, Autoderef or Autoview: one layer in, nothing taken.
    Auto(u64),
    // The asked Element, with this mark: one layer in.
    Element(u64),
    // The asked Element through a Pointer or a View, with this mark: two layers in.
    ElementThrough(u64),
    // Autodeslice with this mark, then the asked Element: one layer in.
    Desliced(u64),
    // The asked Member: to the table's type.
    Member,
}
