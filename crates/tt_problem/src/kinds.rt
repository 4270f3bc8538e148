//! What a type of distribution is: a method a question, and the one table of the types' names.

ghost use Rattle.std.specs.Prelude.{◌≡◌};
ghost use Rattle.std.specs.List.{find};
ghost use Rattle.std.proofs.Common.{bytes_eq};
ghost use Rattle.tt_problem.specs.declared.parts.DistKind.TheVariants.{Pair};
ghost use Rattle.tt_problem.specs.declared.kinds.Parameters.TheVariants.{Plain, One, Two};
ghost use Rattle.tt_problem.specs.Alone.{exceeds_alone};
ghost use Rattle.tt_problem.specs.Kinds.{pair_of, is_group, is_shared_by_weeks, counts_blocks, naming_of, named};

use crate::parts::DistKind;
use tt_bits::{PairKind, Spot};

/// The numbers that stand after the name of a type.
#[derive(Clone, Copy, Debug, PartialEq, Eq)]
pub enum Parameters {
    Plain,
    One(u16),
    Two(u16, u16),
}

/// How a problem file names a type.
#[derive(Clone, Copy)]
pub struct Naming {
    pub name: &'static str,
    /// The first version of the file's form that has the type.
    pub since: u8,
    pub parameters: Parameters,
}

impl Naming {
    // A line of the table of types.
    fn new(name: &'static str, since: u8, parameters: Parameters) -> Naming
        ensures name { result.name.now ≡ name.now }
        ensures since { result.since ≡ since }
        ensures parameters { result.parameters ≡ parameters }
    {
        Naming {
            name,
            since,
            parameters,
        }
    }

    // The lines of the pair types.
    #[tactic(auto, unfolding(crate::specs::Kinds::naming_of))]
    fn of_pair(kind: PairKind) -> Naming
        ensures name { result.name.now ≡ (naming_of (Pair kind)).name }
        ensures since { result.since ≡ (naming_of (Pair kind)).since }
        ensures parameters { result.parameters ≡ (naming_of (Pair kind)).parameters }
    {
        match kind {
            PairKind::SameStart => Naming::new("SameStart", 1, Parameters::Plain),
            PairKind::SameTime => Naming::new("SameTime", 1, Parameters::Plain),
            PairKind::DifferentTime => Naming::new("DifferentTime", 1, Parameters::Plain),
            PairKind::SameDays => Naming::new("SameDays", 1, Parameters::Plain),
            PairKind::DifferentDays => Naming::new("DifferentDays", 1, Parameters::Plain),
            PairKind::SameWeeks => Naming::new("SameWeeks", 1, Parameters::Plain),
            PairKind::DifferentWeeks => Naming::new("DifferentWeeks", 1, Parameters::Plain),
            PairKind::Overlap => Naming::new("Overlap", 1, Parameters::Plain),
            PairKind::NotOverlap => Naming::new("NotOverlap", 1, Parameters::Plain),
            PairKind::SameRoom => Naming::new("SameRoom", 1, Parameters::Plain),
            PairKind::DifferentRoom => Naming::new("DifferentRoom", 1, Parameters::Plain),
            PairKind::SameAttendees => Naming::new("SameAttendees", 1, Parameters::Plain),
            PairKind::Precedence => Naming::new("Precedence", 1, Parameters::Plain),
            PairKind::WorkDay { span } => Naming::new("WorkDay", 1, Parameters::One(span)),
            PairKind::MinGap { gap } => Naming::new("MinGap", 1, Parameters::One(gap)),
        }
    }
}

// The type that has a name, of these types.
fn first_named(kinds: &[DistKind], name: &[u8]) -> Option<DistKind>
    ensures { result ≡ find (λ kind. bytes_eq name.now (naming_of kind).name) kinds.now }
{
    kinds.iter().find(|kind| kind.has_name(name)).copied()
}

static PLAIN_TYPES: [DistKind; 13] = [
    DistKind::Pair {
        kind: PairKind::SameStart,
    },
    DistKind::Pair {
        kind: PairKind::SameTime,
    },
    DistKind::Pair {
        kind: PairKind::DifferentTime,
    },
    DistKind::Pair {
        kind: PairKind::SameDays,
    },
    DistKind::Pair {
        kind: PairKind::DifferentDays,
    },
    DistKind::Pair {
        kind: PairKind::SameWeeks,
    },
    DistKind::Pair {
        kind: PairKind::DifferentWeeks,
    },
    DistKind::Pair {
        kind: PairKind::Overlap,
    },
    DistKind::Pair {
        kind: PairKind::NotOverlap,
    },
    DistKind::Pair {
        kind: PairKind::SameRoom,
    },
    DistKind::Pair {
        kind: PairKind::DifferentRoom,
    },
    DistKind::Pair {
        kind: PairKind::SameAttendees,
    },
    DistKind::Pair {
        kind: PairKind::Precedence,
    },
];

// The type without parameters that has a name.
#[tactic(auto, unfolding(crate::specs::Kinds::named, crate::specs::Kinds::kinds_with))]
fn plain_named(name: &[u8]) -> Option<DistKind>
    ensures { result ≡ named name.now Plain }
{
    first_named(&PLAIN_TYPES, name)
}

// The type with this parameter that has a name.
#[tactic(auto, unfolding(crate::specs::Kinds::named, crate::specs::Kinds::kinds_with))]
fn named_with_one(name: &[u8], n: u16) -> Option<DistKind>
    ensures { result ≡ named name.now (One n) }
{
    let kinds = [
        DistKind::Pair {
            kind: PairKind::WorkDay { span: n },
        },
        DistKind::Pair {
            kind: PairKind::MinGap { gap: n },
        },
        DistKind::MaxDays { most: n },
        DistKind::MaxWeeks { most: n },
        DistKind::MaxDayLoad { most: n },
    ];
    first_named(&kinds, name)
}

// The type with these two parameters that has a name.
#[tactic(auto, unfolding(crate::specs::Kinds::named, crate::specs::Kinds::kinds_with))]
fn named_with_two(name: &[u8], m: u16, n: u16) -> Option<DistKind>
    ensures { result ≡ named name.now (Two m n) }
{
    let kinds = [
        DistKind::MaxBreaks { breaks: m, gap: n },
        DistKind::MaxBlock { most: m, gap: n },
    ];
    first_named(&kinds, name)
}

impl DistKind {
    /// What it asks of each two members, where it is a pair type.
    pub fn pair(self) -> Option<PairKind>
        ensures { result ≡ pair_of self }
    {
        match self {
            DistKind::Pair { kind } => Some(kind),
            _ => None,
        }
    }

    /// Whether it is a group type, of which a required rule is one hard conflict at most.
    pub fn is_group(self) -> bool
        ensures { result ≡ is_group self }
    {
        self.pair().is_none()
    }

    /// Whether its amount is counted in each week, and costs by the mean.
    pub fn is_shared_by_weeks(self) -> bool
        ensures { result ≡ is_shared_by_weeks self }
    {
        match self {
            DistKind::Pair { .. } => false,
            DistKind::MaxDays { .. } => false,
            DistKind::MaxWeeks { .. } => false,
            DistKind::MaxDayLoad { .. } => true,
            DistKind::MaxBreaks { .. } => true,
            DistKind::MaxBlock { .. } => true,
        }
    }

    /// Whether its amount is counted in blocks.
    pub fn counts_blocks(self) -> bool
        ensures { result ≡ counts_blocks self }
    {
        match self {
            DistKind::MaxBreaks { .. } | DistKind::MaxBlock { .. } => true,
            DistKind::Pair { .. }
            | DistKind::MaxDays { .. }
            | DistKind::MaxWeeks { .. }
            | DistKind::MaxDayLoad { .. } => false,
        }
    }

    /// Whether one class alone at the spot is more than a group type allows.
    pub fn exceeds_alone(self, spot: Spot) -> bool
        ensures { result ≡ exceeds_alone self spot }
    {
        match self {
            DistKind::MaxDays { most } => u16::from(spot.time.days.count()) > most,
            DistKind::MaxWeeks { most } => u16::from(spot.time.weeks.count()) > most,
            DistKind::MaxDayLoad { most } => spot.time.length > most,
            DistKind::Pair { .. } | DistKind::MaxBreaks { .. } | DistKind::MaxBlock { .. } => false,
        }
    }

    /// Its line of the table of types.
    #[tactic(auto, unfolding(crate::specs::Kinds::naming_of))]
    pub fn naming(self) -> Naming
        ensures name { result.name.now ≡ (naming_of self).name }
        ensures since { result.since ≡ (naming_of self).since }
        ensures parameters { result.parameters ≡ (naming_of self).parameters }
    {
        match self {
            DistKind::Pair { kind } => Naming::of_pair(kind),
            DistKind::MaxDays { most } => Naming::new("MaxDays", 1, Parameters::One(most)),
            DistKind::MaxWeeks { most } => Naming::new("MaxWeeks", 2, Parameters::One(most)),
            DistKind::MaxDayLoad { most } => Naming::new("MaxDayLoad", 1, Parameters::One(most)),
            DistKind::MaxBreaks { breaks, gap } => {
                Naming::new("MaxBreaks", 1, Parameters::Two(breaks, gap))
            }
            DistKind::MaxBlock { most, gap } => {
                Naming::new("MaxBlock", 1, Parameters::Two(most, gap))
            }
        }
    }

    // Whether this is its name.
    fn has_name(self, name: &[u8]) -> bool
        ensures { result ≡ bytes_eq name.now (naming_of self).name }
    {
        name == self.naming().name.as_bytes()
    }

    /// The type of a name and its parameters.
    pub fn named(name: &[u8], parameters: Parameters) -> Option<DistKind>
        ensures { result ≡ named name.now parameters }
    {
        match parameters {
            Parameters::Plain => plain_named(name),
            Parameters::One(n) => named_with_one(name, n),
            Parameters::Two(m, n) => named_with_two(name, m, n),
        }
    }
}
