//! The lines of the text of a run, each by one put.

ghost use Rattle.std.specs.Prelude.{◌≡◌, ◌+◌, ◌≤◌, ◌++◌, length, codes};
ghost use Rattle.hb_base.specs.Limits.{longest_transaction};
ghost use Rattle.script_fault.specs.Line.{Writes};
ghost use Rattle.ledger_text.specs.Lines.{counted, numbers_line, node_line, fate_word, actor_line, epoch_line, batch_line, tx_line, end_line, soak_line, yes_or_no, answer_line};

use hb_base::{Config, Failed, Sink};
use hb_rules::Fate;
use script_fault::Line;

/// Appends a word and a number to a line. There must be room for both.
#[tactic(auto, unfolding(crate::specs::Lines::counted))]
pub fn add_count(line: &mut Line, word: &str, number: u64)
    requires { length line.old + length word.now ≤ 500 }
    ensures value { line.new ≡ line.old ++ counted word.now number }
    ensures len { length line.new ≤ length line.old + length word.now + 20 }
{
    line.text(word);
    line.number(number)
}

/// Puts the first line of a text: a word, and the numbers of the run.
#[tactic(auto, unfolding(crate::specs::Lines::numbers_line))]
pub fn put_numbers<O: Sink>(word: &str, config: &Config, out: &mut O) -> Result<(), Failed>
    requires { length word.now ≤ 20 }
    ensures { Writes (O.held out.old) (O.held out.new) (O.faults out.old) (O.faults out.new) result (numbers_line word.now config.now) }
{
    let mut line = Line::new();
    line.text(word);
    add_count(&mut line, " nodes ", u64::from(config.n()));
    add_count(&mut line, " faulty ", u64::from(config.f()));
    add_count(&mut line, " version ", u64::from(config.version()));
    add_count(&mut line, " epochs ", u64::from(config.epochs()));
    line.text("\n");
    out.put(line.as_slice())
}

/// Puts the line of a node, with a word of what it is.
#[tactic(auto, unfolding(crate::specs::Lines::node_line))]
pub(crate) fn put_node<O: Sink>(node: u8, word: &str, out: &mut O) -> Result<(), Failed>
    requires { length word.now ≤ 20 }
    ensures { Writes (O.held out.old) (O.held out.new) (O.faults out.old) (O.faults out.new) result (node_line node word.now) }
{
    let mut line = Line::new();
    add_count(&mut line, "node ", u64::from(node));
    line.text(" ");
    line.text(word);
    line.text("\n");
    out.put(line.as_slice())
}

// The word of a fate.
fn fate_word(fate: Fate) -> &'static str
    ensures value { result.now ≡ fate_word fate }
    ensures len { length result.now ≤ 7 }
{
    match fate {
        Fate::Running => "running",
        Fate::Memory => "memory",
        Fate::Journal => "journal",
        Fate::Full => "full",
    }
}

/// Puts the line of an actor, with its fate.
#[tactic(auto, unfolding(crate::specs::Lines::actor_line))]
pub(crate) fn put_actor<O: Sink>(actor: u8, fate: Fate, out: &mut O) -> Result<(), Failed>
    ensures { Writes (O.held out.old) (O.held out.new) (O.faults out.old) (O.faults out.new) result (actor_line actor fate) }
{
    let mut line = Line::new();
    add_count(&mut line, "actor ", u64::from(actor));
    line.text(" ");
    line.text(fate_word(fate));
    line.text("\n");
    out.put(line.as_slice())
}

/// Puts the line of a closed epoch, with the number of batches in its list.
#[tactic(auto, unfolding(crate::specs::Lines::epoch_line))]
pub(crate) fn put_epoch<O: Sink>(epoch: u8, batches: u8, out: &mut O) -> Result<(), Failed>
    ensures { Writes (O.held out.old) (O.held out.new) (O.faults out.old) (O.faults out.new) result (epoch_line epoch batches) }
{
    let mut line = Line::new();
    add_count(&mut line, "epoch ", u64::from(epoch));
    add_count(&mut line, " batches ", u64::from(batches));
    line.text("\n");
    out.put(line.as_slice())
}

/// Puts the line of a batch, with the number of its transactions.
#[tactic(auto, unfolding(crate::specs::Lines::batch_line))]
pub(crate) fn put_batch<O: Sink>(lane: u8, transactions: u8, out: &mut O) -> Result<(), Failed>
    ensures { Writes (O.held out.old) (O.held out.new) (O.faults out.old) (O.faults out.new) result (batch_line lane transactions) }
{
    let mut line = Line::new();
    add_count(&mut line, "batch ", u64::from(lane));
    add_count(&mut line, " txs ", u64::from(transactions));
    line.text("\n");
    out.put(line.as_slice())
}

/// Puts the line of a transaction.
#[tactic(auto, unfolding(crate::specs::Lines::tx_line))]
pub(crate) fn put_tx<O: Sink>(tx: &[u8], out: &mut O) -> Result<(), Failed>
    requires { length tx.now ≤ longest_transaction }
    ensures { Writes (O.held out.old) (O.held out.new) (O.faults out.old) (O.faults out.new) result (tx_line tx.now) }
{
    let mut line = Line::new();
    line.text("tx ");
    line.hex(tx);
    line.text("\n");
    out.put(line.as_slice())
}

/// Puts the last line of a text, with a number: of a run the status.
#[tactic(auto, unfolding(crate::specs::Lines::end_line))]
pub fn put_end<O: Sink>(number: u64, out: &mut O) -> Result<(), Failed>
    ensures { Writes (O.held out.old) (O.held out.new) (O.faults out.old) (O.faults out.new) result (end_line number) }
{
    let mut line = Line::new();
    add_count(&mut line, "end ", number);
    line.text("\n");
    out.put(line.as_slice())
}

/// Puts the last line of the text of a run, with its status.
pub fn put_status<O: Sink>(status: u8, out: &mut O) -> Result<(), Failed>
    ensures { Writes (O.held out.old) (O.held out.new) (O.faults out.old) (O.faults out.new) result (end_line status) }
{
    put_end(u64::from(status), out)
}

/// Puts the first line of the text of a generated run.
#[tactic(auto, unfolding(crate::specs::Lines::soak_line))]
pub(crate) fn put_soak<O: Sink>(
    number: u64,
    config: &Config,
    workers: u8,
    out: &mut O,
) -> Result<(), Failed>
    ensures { Writes (O.held out.old) (O.held out.new) (O.faults out.old) (O.faults out.new) result (soak_line number config.now workers) }
{
    let mut line = Line::new();
    add_count(&mut line, "soak ", number);
    add_count(&mut line, " nodes ", u64::from(config.n()));
    add_count(&mut line, " faulty ", u64::from(config.f()));
    add_count(&mut line, " epochs ", u64::from(config.epochs()));
    add_count(&mut line, " batch ", u64::from(config.batch()));
    add_count(&mut line, " workers ", u64::from(workers));
    line.text("\n");
    out.put(line.as_slice())
}

fn yes_or_no(answer: bool) -> &'static str
    ensures value { result.now ≡ yes_or_no answer }
    ensures len { length result.now ≤ 3 }
{
    if answer { "yes" } else { "no" }
}

/// Puts the line of a question, with its answer.
#[tactic(auto, unfolding(crate::specs::Lines::answer_line))]
pub(crate) fn put_answer<O: Sink>(question: &str, answer: bool, out: &mut O) -> Result<(), Failed>
    requires { length question.now ≤ 20 }
    ensures { Writes (O.held out.old) (O.held out.new) (O.faults out.old) (O.faults out.new) result (answer_line question.now answer) }
{
    let mut line = Line::new();
    line.text(question);
    line.text(" ");
    line.text(yes_or_no(answer));
    line.text("\n");
    out.put(line.as_slice())
}
