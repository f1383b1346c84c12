//! What the words of a call ask for.

ghost use Rattle.std.specs.Prelude.{◌≡◌, ℕ, ◌<◌, ◌^◌, [], ◌∷◌, None, IfSome, map, string_bytes, decimal};
ghost use Rattle.hb_app.specs.Commands.{Asks, word_of};
ghost use Rattle.hb_app.specs.declared.command.Text.{Text};

use itoa::Buffer;

/// What is printed of the run of a scenario.
#[derive(Clone, Copy, Debug, PartialEq, Eq)]
pub enum Text {
    /// How each node stands, and the ledger of each correct one.
    Ledgers,
    /// The history, post by post.
    Trace,
    /// The ledgers that observers take from the history.
    Observed,
    /// The nodes whose own posts contradict each other.
    Accused,
}

/// What a call asks for.
#[derive(Clone, Copy, Debug, PartialEq, Eq)]
pub enum Command {
    /// The run of the scenario on the input, and this text of it.
    Run(Text),
    /// The verdict on the history whose text is on the input.
    Audit,
    /// The run of the scenario of this number.
    Soak(u64),
}

/// What these words ask for: `run`, `trace`, `observe`, `accuse` or `audit`, or `soak` and a whole number below 2^64 in decimal
/// digits, with no sign and no needless zeros in front. None for all other words.
pub fn command_of(words: &[String]) -> Option<Command>
    ensures { Asks (map string_bytes words.now) result }
{
    match words.len() {
        1 => one_word(words[0].as_str()),
        2 => soak_of(words[0].as_str(), words[1].as_str()),
        _ => None,
    }
}

fn one_word(word: &str) -> Option<Command>
    ensures { Asks (word.now ∷ []) result }
{
    if word == "audit" {
        Some(Command::Audit)
    } else {
        text_of(word).map(Command::Run)
    }
}

// The text that a word asks for.
fn text_of(word: &str) -> Option<Text>
    ensures some { IfSome result (λ text. word.now ≡ word_of text) }
    ensures none { result ≡ None → (text : Text) → word.now ≡ word_of text → ⊥ }
{
    match word {
        "run" => Some(Text::Ledgers),
        "trace" => Some(Text::Trace),
        "observe" => Some(Text::Observed),
        "accuse" => Some(Text::Accused),
        _ => None,
    }
}

fn soak_of(word: &str, number: &str) -> Option<Command>
    ensures { Asks (word.now ∷ number.now ∷ []) result }
{
    if word == "soak" {
        number_of(number).map(Command::Soak)
    } else {
        None
    }
}

// The number that a word is the decimal digits of.
fn number_of(word: &str) -> Option<u64>
    ensures some { IfSome result (λ number. (number < 2 ^ 64) × (word.now ≡ decimal number)) }
    ensures none { result ≡ None → (number : ℕ) → number < 2 ^ 64 → word.now ≡ decimal number → ⊥ }
{
    let number = word.parse::<u64>().ok()?;
    let mut buffer = Buffer::new();
    if buffer.format(number) == word {
        Some(number)
    } else {
        None
    }
}
