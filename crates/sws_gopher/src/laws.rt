//! What holds of all menus.
ghost use Rattle.std.specs.Prelude.{◌≡◌, ◌↔◌, ℕ, List, Some, Contains};
ghost use Rattle.std.specs.List.{Any};
ghost use Rattle.std.specs.List.Sorted.{IsStrictlySortedBy};
ghost use Rattle.sws_site.specs.Files.{File};
ghost use Rattle.sws_gopher.specs.Menus.{Item, item_cmp, item_in, items_of};

/// A menu lists each name once, in order: its items ascend by what is displayed, and they are what
/// is to be seen of the files in the folder, and nothing else. A call does nothing.
pub fn a_menu_lists_each_name_once()
    ensures ascend { (files : List File) (folder : List ℕ)
        → IsStrictlySortedBy item_cmp (items_of files folder) }
    ensures exact { (files : List File) (folder : List ℕ) (item : Item)
        → Contains (items_of files folder) item
        ↔ Any (λ file. item_in folder file.0 ≡ Some item) files }
{}
