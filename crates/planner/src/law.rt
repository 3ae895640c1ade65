ghost use Rattle.planner.specs.Sound.{BooksSound};

// A theorem: what every call book keeps.
pub fn books_stand()
    ensures { BooksSound }
{}
