//! The drawing of all coins.

ghost use Rattle.std.specs.Prelude.{◌≡◌, IfOk};

use crate::dealt::Deal;
use crate::words::{draw_bytes, draw_salts};
use hb_base::Config;
use once_cell::race::OnceBox;
use seed_words::words_of;
use std::alloc::{AllocError, Global};

/// All coins of the run with these numbers, drawn from its seed in one pass over the words. Their trees are built when they
/// are first asked for.
pub fn deal(alloc: Global, config: &Config) -> Result<Deal, AllocError>
    ensures { IfOk result (λ deal. deal ≡ config.now) }
{
    let n = config.n() as usize;
    let width = config.f() as usize + 1;
    let count = config.epochs() as usize * n * config.rounds() as usize;
    let mut words = words_of(config.seed(), 0);
    let mut coefficients = Vec::with_capacity(alloc, count * width)?;
    let mut salts = Vec::with_capacity(alloc, count * n)?;
    let mut trees = Vec::with_capacity(alloc, count)?;
    for _ in 0..count {
        draw_bytes(&mut words, width, &mut coefficients)?;
        draw_salts(&mut words, n, &mut salts)?;
        trees.push(OnceBox::new(alloc))?;
    }
    Ok(Deal {
        alloc,
        config: *config,
        coefficients,
        salts,
        trees,
    })
}
