//! The book and the script of a run, named by a type.

ghost use Rattle.std.specs.Prelude.{◌≡◌};
ghost use Rattle.atomic_table.specs.Seated.{TableId};
ghost use Rattle.net_script.specs.declared.script.Script.{Script};

use std::marker::Brand;

/// Of which run is what lies under a lock: a clause can't name a value there, so the type names its book and its script. A
/// program picks both where it makes them.
pub trait RunName {
    /// The name of the book of the run.
    ghost book: { TableId };

    /// The script of the run.
    ghost is_script: { Script → Type 0 };

    /// There is one.
    ghost one_script: { (a b : Script) → is_script a → is_script b → a ≡ b };
}

/// Nothing is of the run of `Brand`, unless a program picks another in its place.
impl RunName for Brand {
    ghost use Rattle.std.specs.Prelude.{[]};

    ghost book = { record { words = 0; slots = 0; views_name = 0; atom = 0; block = 0; offset = 0; slot_names = [] } };

    ghost is_script = { λ s. ⊥ };

    ghost one_script = { λ a b one two. absurd one };
}
