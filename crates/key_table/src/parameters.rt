// The settled parameters: one value for each of the twelve keys of the table. Yes is 1, No is 0.
ghost use Rattle.std.specs.Prelude.{◌≡◌};
ghost use Rattle.key_table.specs.Table.{standards, own, none_seen};

use crate::table::TABLE;

// A column of the table.
macro_rules! column {
    ($field:ident) => {
        [
            TABLE[0].$field,
            TABLE[1].$field,
            TABLE[2].$field,
            TABLE[3].$field,
            TABLE[4].$field,
            TABLE[5].$field,
            TABLE[6].$field,
            TABLE[7].$field,
            TABLE[8].$field,
            TABLE[9].$field,
            TABLE[10].$field,
            TABLE[11].$field,
        ]
    };
}

#[derive(Clone, Copy)]
pub struct Parameters {
    pub values: [u32; 12],
}

impl Parameters {
    // In force until a key is settled.
    pub const STANDARD: [u32; 12] = column!(standard);

    // What we bring to the settling: the standard value, but 4 MaxConnections and ErrorRecoveryLevel 1.
    pub const OURS: [u32; 12] = column!(ours);

    #[tactic(auto, unfolding(crate::specs::Table::standards, crate::specs::Table::rows))]
    pub fn standard() -> Self
        ensures { result.values ≡ standards }
    {
        Self {
            values: Self::STANDARD,
        }
    }

    #[tactic(auto, unfolding(crate::specs::Table::own, crate::specs::Table::rows))]
    pub fn ours() -> Self
        ensures { result.values ≡ own }
    {
        Self { values: Self::OURS }
    }
}

// What a login has settled: which known keys came, and the parameters in force.
#[derive(Clone, Copy)]
pub struct Settled {
    pub seen: [bool; 28],
    pub parameters: Parameters,
}

impl Settled {
    // Nothing came yet: every standard value is in force.
    #[tactic(auto, unfolding(crate::specs::Table::none_seen))]
    pub fn fresh() -> Self
        ensures { result ≡ none_seen }
    {
        Self {
            seen: [false; 28],
            parameters: Parameters::standard(),
        }
    }
}
