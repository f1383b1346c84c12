//! The texts that a scenario has: words, names of liars, and transactions in hex.
ghost use Rattle.std.specs.Prelude.{◌≡◌, IfOk};
ghost use Rattle.serde_json.specs.View.{view};
ghost use Rattle.hex.specs.Hex.{decode_of};
ghost use Rattle.hb_base.specs.Limits.{IsTransaction};
ghost use Rattle.script_reader.specs.Fault.{Gives};
ghost use Rattle.script_reader.specs.Fields.{known_word, order_named, order_or_fifo, shape_named, shape_at, leave_named, leave_at, name_of, name_at};
ghost use Rattle.script_reader.specs.Fields.{transaction_from, transaction_at};

use crate::fields::{found, text_at, text_of};
use disk_model::Leave;
use hb_base::limits::LONGEST_TRANSACTION;
use hb_base::{Bytes, LiarName};
use net_script::{Order, Shape};
use script_fault::{Place, ScriptFault};
use serde_json::Value;
use std::alloc::Global;

// What a text names, at a place that takes no other words.
fn known_word<W>(
    alloc: Global,
    place: Place,
    text: &str,
    named: Option<W>,
) -> Result<W, ScriptFault>
    ensures { Gives (λ w. w) result (known_word place text.now named) }
{
    if let Some(word) = named {
        return Ok(word);
    }
    let word = Bytes::copy(alloc, text.as_bytes())?;
    Err(ScriptFault::BadWord { place, word })
}

// The order, which is Fifo where none is named.
#[tactic(auto, unfolding(crate::specs::Fields::order_or_fifo))]
pub(crate) fn order_or_fifo(
    alloc: Global,
    value: &Value,
    place: Place,
) -> Result<Order, ScriptFault>
    ensures { Gives (λ order. order) result (order_or_fifo place (view value.now)) }
{
    match found(value, place) {
        None => Ok(Order::Fifo),
        Some(value) => {
            let text = text_of(value, place)?;
            known_word(alloc, place, text, order_named(text))
        }
    }
}

fn order_named(text: &str) -> Option<Order>
    ensures { result ≡ order_named text.now }
{
    match text {
        "fifo" => Some(Order::Fifo),
        "mixed" => Some(Order::Mixed),
        _ => None,
    }
}

#[tactic(auto, unfolding(crate::specs::Fields::shape_at))]
pub(crate) fn shape_at(alloc: Global, value: &Value, place: Place) -> Result<Shape, ScriptFault>
    ensures { Gives (λ shape. shape) result (shape_at place (view value.now)) }
{
    let text = text_at(value, place)?;
    known_word(alloc, place, text, shape_named(text))
}

fn shape_named(text: &str) -> Option<Shape>
    ensures { result ≡ shape_named text.now }
{
    match text {
        "once" => Some(Shape::Once),
        "twice" => Some(Shape::Twice),
        "late" => Some(Shape::Late),
        "drop" => Some(Shape::Drop),
        _ => None,
    }
}

#[tactic(auto, unfolding(crate::specs::Fields::leave_at))]
pub(crate) fn leave_at(alloc: Global, value: &Value, place: Place) -> Result<Leave, ScriptFault>
    ensures { Gives (λ leave. leave) result (leave_at place (view value.now)) }
{
    let text = text_at(value, place)?;
    known_word(alloc, place, text, leave_named(text))
}

fn leave_named(text: &str) -> Option<Leave>
    ensures { result ≡ leave_named text.now }
{
    match text {
        "old" => Some(Leave::Old),
        "new" => Some(Leave::New),
        "torn" => Some(Leave::Torn),
        _ => None,
    }
}

#[tactic(auto, unfolding(crate::specs::Fields::name_at))]
pub(crate) fn name_at(alloc: Global, value: &Value, place: Place) -> Result<LiarName, ScriptFault>
    ensures { Gives (λ name. name) result (name_at place (view value.now)) }
{
    let text = text_at(value, place)?;
    known_word(alloc, place, text, name_of(text))
}

#[tactic(auto, using(crate::proofs::Names::is_name_true, crate::proofs::Names::is_name_false))]
fn name_of(text: &str) -> Option<LiarName>
    ensures { result ≡ name_of text.now }
{
    LiarName::of(text)
}

#[tactic(auto, unfolding(crate::specs::Fields::transaction_at))]
pub(crate) fn transaction_at(
    alloc: Global,
    value: &Value,
    place: Place,
) -> Result<Bytes, ScriptFault>
    ensures gives { Gives (λ tx. tx) result (transaction_at place (view value.now)) }
    ensures sound { IfOk result IsTransaction }
{
    let text = text_at(value, place)?;
    transaction_of(alloc, place, text)
}

fn transaction_of(alloc: Global, place: Place, text: &str) -> Result<Bytes, ScriptFault>
    ensures gives { Gives (λ tx. tx) result (transaction_from place (decode_of text.now)) }
    ensures sound { IfOk result IsTransaction }
{
    match hex::decode(alloc, text) {
        Ok(bytes) if 1 <= bytes.len() && bytes.len() <= LONGEST_TRANSACTION => Ok(Bytes::from_vec(
            bytes,
        )?),
        Ok(bytes) => Err(ScriptFault::BadLength {
            place,
            length: bytes.len() as u64,
        }),
        Err(hex::FromHexError::OutOfMemory) => Err(ScriptFault::Memory),
        Err(_) => Err(ScriptFault::BadHex { place }),
    }
}
