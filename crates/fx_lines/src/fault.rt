/// Why a line is no item's.
#[derive(Clone, Copy, Debug, PartialEq, Eq)]
pub enum ItemFault {
    /// Its first word is no kind of item, as where the line is empty or begins with a space.
    NoSuchKind,
    /// The field of this number, 1 to 7, is the first that is missing or wrong. A list, from its
    /// `:` on, is one field, and so is a message: whatever is wrong in it, or follows it, makes
    /// that field wrong.
    BadField(u8),
    /// Each field is there, and more follows.
    TrailingText,
}
