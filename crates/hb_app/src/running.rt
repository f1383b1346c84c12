//! Runs.

ghost use Rattle.std.specs.Prelude.{◌≡◌, ◌<◌, ◌^◌, length, All, OnOk, OnErr};
ghost use Rattle.hb_base.specs.ByteLists.{AreBytes};
ghost use Rattle.net_script.specs.Scenario.{told};
ghost use Rattle.net_script.specs.Sound.{IsScenario};
ghost use Rattle.net_script.specs.declared.script.Script.{Script};
ghost use Rattle.trace_reader.specs.Trace.{IsAddress, IsPost};
ghost use Rattle.ledger_run.specs.Run.{IsRunOf};
ghost use Rattle.hb_app.specs.Headline.{Headline};

use accuse::accuse_laws;
use acs_world::ledger_laws;
use hb_base::Gate;
use hb_rules::Report;
use hb_wire::{Post, To};
use ledger_run::{hire, run_script};
use liar_cast::Liar;
use net_script::Script;
use observer::observer_laws;
use quiet_world::{calm_laws, quiet_laws};
use run_status::status;
use std::alloc::{AllocError, Global};
use std::sync::Wait;
use std::thread::Threads;
use thread_run::run_on_threads;

/// Runs a script by this thread alone, with the liars that it asks a cast for, and leaves the report of the run. Err is want of
/// memory, and leaves the report as it was.
pub fn run_alone<G: Gate>(
    alloc: Global,
    script: Script,
    cast: Vec<Box<dyn Liar>>,
    gate: &G,
    report: &mut Report,
) -> Result<(), AllocError>
    requires scenario { IsScenario (told script) }
    ensures ran { OnOk result (Headline (told script) report.new) }
    ensures kept { OnErr result (report.new ≡ report.old) }
{
    let voices = hire(alloc, script.liars.as_slice(), cast)?;
    let made = run_script(alloc, script, voices, gate)?;
    *report = with_status(made);
    Ok(())
}

/// Runs a script by the workers that it asks for, in the same way. It may wait.
pub fn run_by_workers<R: Threads + Wait + Sync, G: Gate>(
    rt: &R,
    alloc: Global,
    script: Script,
    cast: Vec<Box<dyn Liar>>,
    gate: &G,
    report: &mut Report,
) -> Result<(), AllocError>
    requires scenario { IsScenario (told script) }
    ensures ran { OnOk result (Headline (told script) report.new) }
    ensures kept { OnErr result (report.new ≡ report.old) }
{
    let voices = hire(alloc, script.liars.as_slice(), cast)?;
    let made = run_on_threads(rt, alloc, script, voices, gate)?;
    *report = with_status(made);
    Ok(())
}

// The report with its status.
fn with_status(made: Report) -> Report
    ensures { (s : Script) → IsScenario (told s) → IsRunOf s made → Headline (told s) result }
{
    let mut made = made;
    // what these calls ensure are the laws of ledgers, of observers, of quiet and calm runs and of accusations, and that the
    // numbers of the run are sound
    ledger_laws();
    observer_laws();
    quiet_laws();
    calm_laws();
    accuse_laws();
    let _sound = made.config.liars();
    // and these, that its seed and its posts are such as a text tells
    let _seed = made.config.seed();
    posts_fit(made.history.as_slice());
    made.status = status(&made);
    made
}

// Each post is such as the text of a history tells. The call goes through the posts, and changes nothing.
fn posts_fit(posts: &[Post])
    ensures { All IsPost posts.now }
{
    for post in posts {
        post_fits(post);
    }
}

// Its numbers are of one byte, and what it says are bytes.
fn post_fits(post: &Post)
    ensures { IsPost post.now }
{
    let _from = post.from;
    let _actor = post.actor;
    address_fits(post.to);
    bytes_fit(post.bytes.as_slice());
}

fn address_fits(to: To)
    ensures { IsAddress to }
{
    match to {
        To::Book => {}
        To::Home => {}
        To::All => {}
        To::Node(_) => {}
    }
}

fn bytes_fit(_bytes: &[u8])
    ensures { AreBytes _bytes.now }
{}
