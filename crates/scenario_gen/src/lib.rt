//! Scenarios made of a number: a run of 4 to 10 nodes with as many liars as there may be, lossy links, and one power
//! stop at each correct node. All of it is drawn from the words of the number, one after another.
#![tactic(auto)]

ghost use Rattle.std.specs.Prelude.{◌≡◌, IfOk};
ghost use Rattle.net_script.specs.Scenario.{told};
ghost use Rattle.net_script.specs.Sound.{IsScenario};
ghost use Rattle.scenario_gen.specs.Generated.{generated};

mod drawing;
mod numbers;

use drawing::{draw_liars, draw_plans, draw_submits};
use net_script::{Order, Script};
use numbers::{config_of, links_of};
use seed_words::{next_word, words_of};
use std::alloc::{AllocError, Global};

/// The scenario of this number.
pub fn generate(alloc: Global, number: u64) -> Result<Script, AllocError>
    ensures exact { IfOk result (λ script. told script ≡ generated number) }
    ensures sound { IfOk result (λ script. IsScenario (told script)) }
{
    let mut words = words_of(number, 0);
    let n = 4 + (next_word(&mut words) % 7) as u8;
    let epochs = 2 + (next_word(&mut words) % 4) as u8;
    let batch = 8 + (next_word(&mut words) % 16) as u8;
    let workers = 1 + (next_word(&mut words) % 3) as u8;
    let submit = draw_submits(alloc, n, &mut words)?;
    let liars = draw_liars(alloc, n, &mut words)?;
    let plans = draw_plans(alloc, n, &mut words)?;
    let links = links_of(alloc, n)?;
    Ok(Script {
        config: config_of(number, n, epochs, batch),
        workers,
        order: Order::Fifo,
        submit,
        liars,
        links,
        plans,
    })
}
