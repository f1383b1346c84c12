ghost use Rattle.std.specs.Prelude.{◌≡◌};
ghost use Rattle.script_fault.specs.Place.{list_text, key_text, required_keys, optional_keys, place};

/// The lists of a scenario, and the scenario itself.
#[derive(Clone, Copy, Debug, PartialEq, Eq)]
pub enum ListName {
    /// The scenario itself.
    Top,
    /// The submissions.
    Submit,
    /// The nodes that lie.
    Liars,
    /// The rules on posts between nodes.
    Links,
    /// The device calls at which disks stop.
    Stops,
    /// The device calls that fail.
    Faults,
}

impl ListName {
    /// The word under which the list is told.
    #[tactic(auto, unfolding(crate::specs::Place::list_text))]
    pub fn text(self) -> &'static str
        ensures { result.now ≡ list_text self }
    {
        match self {
            ListName::Top => "top",
            ListName::Submit => "submit",
            ListName::Liars => "liars",
            ListName::Links => "links",
            ListName::Stops => "stops",
            ListName::Faults => "faults",
        }
    }

    /// The keys that an entry must have, in the order in which they are looked for.
    #[tactic(auto, unfolding(crate::specs::Place::required_keys))]
    pub fn required_keys(self) -> &'static [KeyName]
        ensures { result.now ≡ required_keys self }
    {
        match self {
            ListName::Top => &[KeyName::Nodes, KeyName::Faulty, KeyName::Epochs],
            ListName::Submit => &[KeyName::Node, KeyName::Tx],
            ListName::Liars => &[KeyName::Node, KeyName::Name],
            ListName::Links => &[KeyName::Every, KeyName::At, KeyName::Shape],
            ListName::Stops => &[KeyName::Node, KeyName::Actor, KeyName::Call, KeyName::Leave],
            ListName::Faults => &[KeyName::Node, KeyName::Actor, KeyName::Call],
        }
    }

    /// The keys that an entry may have besides.
    #[tactic(auto, unfolding(crate::specs::Place::optional_keys))]
    pub fn optional_keys(self) -> &'static [KeyName]
        ensures { result.now ≡ optional_keys self }
    {
        match self {
            ListName::Top => &[
                KeyName::Rounds,
                KeyName::Batch,
                KeyName::Seed,
                KeyName::Version,
                KeyName::Workers,
                KeyName::Order,
                KeyName::Submit,
                KeyName::Liars,
                KeyName::Links,
                KeyName::Stops,
                KeyName::Faults,
            ],
            ListName::Submit => &[],
            ListName::Liars => &[KeyName::Hears],
            ListName::Links => &[KeyName::From, KeyName::To],
            ListName::Stops => &[],
            ListName::Faults => &[],
        }
    }
}

/// The keys of a scenario and of the entries of its lists. `Itself` is no key: it stands for the scenario or the entry
/// as a whole.
#[derive(Clone, Copy, Debug, PartialEq, Eq)]
pub enum KeyName {
    Itself,
    Nodes,
    Faulty,
    Epochs,
    Rounds,
    Batch,
    Seed,
    Version,
    Workers,
    Order,
    Submit,
    Liars,
    Links,
    Stops,
    Faults,
    Node,
    Tx,
    Name,
    Hears,
    From,
    To,
    Every,
    At,
    Shape,
    Actor,
    Call,
    Leave,
}

impl KeyName {
    /// The key as it stands in a scenario, and `-` for `Itself`.
    #[tactic(auto, unfolding(crate::specs::Place::key_text))]
    pub fn text(self) -> &'static str
        ensures { result.now ≡ key_text self }
    {
        match self {
            KeyName::Itself => "-",
            KeyName::Nodes => "nodes",
            KeyName::Faulty => "faulty",
            KeyName::Epochs => "epochs",
            KeyName::Rounds => "rounds",
            KeyName::Batch => "batch",
            KeyName::Seed => "seed",
            KeyName::Version => "version",
            KeyName::Workers => "workers",
            KeyName::Order => "order",
            KeyName::Submit => "submit",
            KeyName::Liars => "liars",
            KeyName::Links => "links",
            KeyName::Stops => "stops",
            KeyName::Faults => "faults",
            KeyName::Node => "node",
            KeyName::Tx => "tx",
            KeyName::Name => "name",
            KeyName::Hears => "hears",
            KeyName::From => "from",
            KeyName::To => "to",
            KeyName::Every => "every",
            KeyName::At => "at",
            KeyName::Shape => "shape",
            KeyName::Actor => "actor",
            KeyName::Call => "call",
            KeyName::Leave => "leave",
        }
    }
}

/// A place in a scenario: a key of an entry of a list. Entries are counted from 0. A list as a whole is a key of the
/// top at 0.
#[derive(Clone, Copy, Debug, PartialEq, Eq)]
pub struct Place {
    /// The list.
    pub list: ListName,
    /// The entry's number in its list, from 0 to 2^32 - 1.
    pub index: u32,
    /// The key.
    pub key: KeyName,
}

/// An entry of a list of a scenario, or the scenario itself.
#[derive(Clone, Copy, Debug, PartialEq, Eq)]
pub struct Spot {
    /// The list.
    pub list: ListName,
    /// The entry's number in its list, 0 for the scenario itself.
    pub index: u32,
}

impl Spot {
    /// The scenario itself.
    pub fn top() -> Spot
        ensures { result ≡ record { list = ListName.Top; index = 0 } }
    {
        Spot {
            list: ListName::Top,
            index: 0,
        }
    }

    /// The place of a key.
    pub fn at(self, key: KeyName) -> Place
        ensures { result ≡ place self.list self.index key }
    {
        Place {
            list: self.list,
            index: self.index,
            key,
        }
    }
}
