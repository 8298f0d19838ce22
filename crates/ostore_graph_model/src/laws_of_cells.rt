//! Laws of the cells that code reads and edits, each the contract of a function that does nothing. They tie
//! the edits of one image to the cells at addresses.

ghost use Rattle.ostore_graph_model.specs.LawsOfCells.{LawOfHeldImages, LawOfEditedCells};
ghost use Rattle.ostore_graph_model.specs.LawsOfCells.{LawOfAddedCells, LawOfDeadCells};
ghost use Rattle.ostore_graph_model.specs.LawsOfCells.{LawOfSizes, LawOfPointers};

/// For every list of pages that has an image at a page, the cell at an address in that page is what the
/// image says.
pub fn held_image_tells_cells()
    ensures { LawOfHeldImages }
{}

/// An edit of a cell gives this cell other bytes, and leaves all others.
pub fn one_cell_is_edited()
    ensures { LawOfEditedCells }
{}

/// A cell that is added stands where none was, live and zero, and all others stay.
pub fn one_cell_is_added()
    ensures { LawOfAddedCells }
{}

/// A row that is marked dead keeps its type, serial and size; its cell is zeros, and all others stay.
pub fn one_cell_is_dead()
    ensures { LawOfDeadCells }
{}

/// In good pages a cell, live or dead, has the size of its code.
pub fn cells_are_sized()
    ensures { LawOfSizes }
{}

/// In good pages each pointer of a live cell or of a root that isn't 0 leads to a page that may have cells.
pub fn pointers_lead_to_pages()
    ensures { LawOfPointers }
{}
