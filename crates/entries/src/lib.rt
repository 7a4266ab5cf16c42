// The kinds of entries and what the calls on a journal answer, as types, and the numbers of kinds and faults. Entries, what is
// written and what a replay makes of them are the definitions under specs/.
#![tactic(auto)]

ghost use Rattle.std.specs.Prelude.{◌≡◌};
ghost use Rattle.entries.specs.Entry.{kind_number, kind_of};
ghost use Rattle.entries.specs.Replay.{fault_number};

use paper::Refusal;

// What an entry tells of its instance: its record, or that it was newly marked as handed out.
#[derive(Clone, Copy, Debug, PartialEq, Eq)]
pub enum Kind {
    Record,
    Mark,
}

impl Kind {
    pub fn number(self) -> u8
        ensures { result ≡ kind_number self }
    {
        match self {
            Kind::Record => 20,
            Kind::Mark => 21,
        }
    }

    // The kind of a number, if there is one.
    pub fn of(number: usize) -> Option<Kind>
        ensures { result ≡ kind_of number }
    {
        match number {
            20 => Some(Kind::Record),
            21 => Some(Kind::Mark),
            _ => None,
        }
    }
}

// Why no entry was written: a refusal, or 43, that a replay would not take it.
#[derive(Clone, Copy, Debug, PartialEq, Eq)]
pub enum Unwritten {
    Refused(Refusal),
    Unsound,
}

impl From<Refusal> for Unwritten {
    ghost use Rattle.entries.specs.declared.Unwritten.TheVariants.{Refused};

    ghost from_gives = { λ why e. e ≡ Refused why };

    fn from(why: Refusal) -> Unwritten {
        Unwritten::Refused(why)
    }
}

// What is wrong with an entry: its kind, its instance, or its record or mark.
#[derive(Clone, Copy, Debug, PartialEq, Eq)]
pub enum Fault {
    Kind,
    Instance,
    Unsound,
}

impl Fault {
    // Its number in the paper.
    pub fn number(self) -> u32
        ensures { result ≡ fault_number self }
    {
        match self {
            Fault::Kind => 41,
            Fault::Instance => 42,
            Fault::Unsound => 43,
        }
    }
}

// What stands in front where nothing is wrong: an entry, or less than one.
#[derive(Clone, Copy, Debug, PartialEq, Eq)]
pub enum Front {
    Whole,
    Rest,
}

// What is wrong, and with the entry at which offset.
#[derive(Clone, Copy, Debug, PartialEq, Eq)]
pub struct BadEntry {
    pub why: Fault,
    pub offset: usize,
}

// Why a journal was not replayed: its table is refused, or one of its entries.
#[derive(Clone, Copy, Debug, PartialEq, Eq)]
pub enum Unreplayed {
    Refused(Refusal),
    Bad(BadEntry),
}

impl From<Refusal> for Unreplayed {
    ghost use Rattle.entries.specs.declared.Unreplayed.TheVariants.{Refused};

    ghost from_gives = { λ why e. e ≡ Refused why };

    fn from(why: Refusal) -> Unreplayed {
        Unreplayed::Refused(why)
    }
}

impl From<BadEntry> for Unreplayed {
    ghost use Rattle.entries.specs.declared.Unreplayed.TheVariants.{Bad};

    ghost from_gives = { λ entry e. e ≡ Bad entry };

    fn from(entry: BadEntry) -> Unreplayed {
        Unreplayed::Bad(entry)
    }
}
