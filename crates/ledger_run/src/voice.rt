//! What speaks for the nodes that lie.
ghost use Rattle.std.specs.Prelude.{◌≡◌, bytes_eq, map, length, IfOk, IfSome, IfNone};
ghost use Rattle.ledger_run.specs.Voices.{NoneHas, HasFirst, IsTaken, AreHired};

use hb_base::LiarName;
use hb_wire::Post;
use liar_cast::{Liar, LiarSeat, Lies};
use net_script::LiarAt;
use std::alloc::{AllocError, Global};
use step_driver::Mouth;

/// What speaks for a node that lies: a liar of the cast, or nothing where the cast has none left for it.
#[derive(Drop)]
pub struct Voice {
    liar: Option<Box<dyn Liar>>,
}

impl Voice {
    /// A voice that says nothing.
    pub fn silent() -> Voice
        ensures { result.liar ≡ None }
    {
        Voice { liar: None }
    }

    /// The voice of a liar.
    pub fn of(liar: Box<dyn Liar>) -> Voice
        ensures { result.liar ≡ Some liar }
    {
        Voice { liar: Some(liar) }
    }

    // What it was; it is silent then.
    pub(crate) fn taken(&mut self) -> Voice
        ensures taken { result.liar ≡ self.old.liar }
        ensures left { self.new.liar ≡ None }
    {
        Voice {
            liar: self.liar.take(),
        }
    }
}

impl Mouth for Voice {
    fn start(&mut self, alloc: Global, me: &LiarSeat, lies: &mut Lies) {
        if let Some(liar) = &mut self.liar {
            liar.start(alloc, me, lies);
        }
    }

    fn hear(&mut self, alloc: Global, me: &LiarSeat, post: &Post, lies: &mut Lies) {
        if let Some(liar) = &mut self.liar {
            liar.hear(alloc, me, post, lies);
        }
    }
}

/// The voices of these liars, in their order: of each the first of the cast that has its name and that no liar before it has
/// taken, and a silent one where none is left. What is left of the cast is dropped. Err is want of memory.
pub fn hire(
    alloc: Global,
    liars: &[LiarAt],
    cast: Vec<Box<dyn Liar>>,
) -> Result<Vec<Voice>, AllocError>
    ensures { IfOk result (λ voices. AreHired (λ liar. called liar) (map (λ at. at.name) liars.now) cast.items (map (λ voice. voice.liar) voices.items)) }
{
    let mut cast = cast;
    let mut voices = Vec::with_capacity(alloc, liars.len())?;
    for liar in liars {
        let voice = take(&mut cast, &liar.name);
        voices.push(voice)?;
    }
    Ok(voices)
}

// Takes the first of the cast that has this name.
fn take(cast: &mut Vec<Box<dyn Liar>>, name: &LiarName) -> Voice
    ensures { IsTaken (λ liar. called liar) name.now cast.old.items result.liar cast.new.items }
{
    match first_of(cast.as_slice(), name) {
        Some(place) => Voice::of(cast.remove(place)),
        None => Voice::silent(),
    }
}

// The place of the first of a cast that has this name.
fn first_of(cast: &[Box<dyn Liar>], name: &LiarName) -> Option<usize>
    ensures found { IfSome result (λ place. HasFirst (λ liar. called liar) name.now cast.now place) }
    ensures none { IfNone result (NoneHas (λ liar. called liar) name.now cast.now (length cast.now)) }
{
    for place in 0..cast.len() {
        let liar = &cast[place];
        if is_called(liar, name) {
            return Some(place);
        }
    }
    None
}

// Whether this is the name of a liar.
fn is_called(liar: &Box<dyn Liar>, name: &LiarName) -> bool
    ensures { result ≡ bytes_eq (called liar.now) name.now }
{
    let own = liar.name();
    own.as_bytes() == name.as_bytes()
}
