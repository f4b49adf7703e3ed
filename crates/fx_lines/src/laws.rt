//! What follows from the table of lines. The functions do nothing: their contracts are theorems.
ghost use Rattle.std.specs.Prelude.{◌≡◌, ◌≤◌, ◌↔◌, ◌++◌, ℕ, List, Ok, Err, true};
ghost use Rattle.fx_item.specs.declared.item.Item.{Item};
ghost use Rattle.fx_text.specs.Written.{spaced};
ghost use Rattle.fx_lines.specs.declared.fault.ItemFault.{ItemFault};
ghost use Rattle.fx_lines.specs.declared.fault.ItemFault.TheVariants.{BadField};
ghost use Rattle.fx_lines.specs.Items.{line_of, item_in, is_writable, is_in_type};
ghost use Rattle.fx_lines.specs.Printing.{has_forms, first_word, other_words};
ghost use Rattle.fx_lines.specs.Refusals.{IsRefused};

/// An item whose fields have their forms is read back from its line.
pub fn what_is_printed_is_read_back()
    ensures { (item : Item) → is_writable item ≡ true → is_in_type item ≡ true → item_in (line_of item) ≡ Ok item }
{}

/// A line that tells an item is that item's line, byte for byte, and the item's fields have their
/// forms.
pub fn what_is_read_is_printed_the_same()
    ensures line { (line : List ℕ) (item : Item) → item_in line ≡ Ok item → line_of item ≡ line }
    ensures writable { (line : List ℕ) (item : Item) → item_in line ≡ Ok item → is_writable item ≡ true }
    ensures in_type { (line : List ℕ) (item : Item) → item_in line ≡ Ok item → is_in_type item ≡ true }
{}

/// Different items have different lines.
pub fn no_two_items_have_one_line()
    ensures { (a b : Item) → is_writable a ≡ true → is_in_type a ≡ true → is_writable b ≡ true → is_in_type b ≡ true → line_of a ≡ line_of b → a ≡ b }
{}

/// A line that is refused is no item's. It is refused exactly for what is first wrong in it from
/// the left: its first word, or a field, one of at most seven, that is missing or wrong, or that
/// words follow the last field.
pub fn a_line_is_refused_for_its_first_fault()
    ensures no_item { (line : List ℕ) (fault : ItemFault) → item_in line ≡ Err fault → (item : Item) → is_writable item ≡ true → is_in_type item ≡ true → line_of item ≡ line → ⊥ }
    ensures field { (line : List ℕ) (k : ℕ) → item_in line ≡ Err (BadField k) → (1 ≤ k) × (k ≤ 7) }
    ensures first { (line : List ℕ) (fault : ItemFault) → item_in line ≡ Err fault ↔ IsRefused line fault }
{}

/// An item can be printed where what it joins with, its name, or its message has its form; any
/// other item can.
pub fn which_items_are_writable()
    ensures { (item : Item) → is_writable item ≡ has_forms item }
{}

/// A line is its first word, and then each other word behind a space.
pub fn a_line_is_words_behind_spaces()
    ensures { (item : Item) → line_of item ≡ first_word item ++ spaced (other_words item) }
{}
