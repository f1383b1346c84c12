//! The config of a run, named by a type.
ghost use Rattle.hb_base.specs.Numbers.{Numbers};

use std::marker::Brand;

/// Which config the run of a book is of. Which nodes lie decides the number under which a post stands in the turn book, so the
/// type of what is kept there has to name the config. A program picks it where it makes the book.
pub trait Naming {
    ghost config: { Numbers };
}

impl Naming for Brand {
    ghost use Rattle.std.specs.Prelude.{[]};
    ghost use Rattle.hb_base.specs.Numbers.{numbers};

    ghost config = { numbers 1 0 1 1 1 0 1 [] };
}
