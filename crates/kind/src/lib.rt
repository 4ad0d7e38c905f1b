#![tactic(auto)]

// The kind of a block, by its byte. Kinds 1 to 8 are edge blocks, 9 to 14 level blocks.
ghost use Rattle.std.specs.Prelude.{◌≡◌};
ghost use Rattle.kind.specs.Kind.{is_kind, is_edge, has_abort, can_abort, has_time_limit, has_time_out, is_continuous};

use std::marker::Model;

/// What the kind byte of a block says. Any byte is taken, as the rules ask of any byte what they ask; `is_kind` says whether it is one of the fourteen.
#[derive(Clone, Copy, Debug, PartialEq, Eq)]
pub struct Kind {
    byte: u8,
}

// Clauses see the byte: a kind is its number in the rules.
impl Model for Kind {
    ghost use Rattle.std.specs.Prelude.{ℕ};

    ghost Value = { ℕ };

    ghost view = { λ k. k.byte };

    ghost inverse = { λ n. record { byte = n } };
}

impl From<u8> for Kind {
    ghost from_gives = { λ byte k. k ≡ byte };

    fn from(byte: u8) -> Kind {
        Kind { byte }
    }
}

// Each property is a match with ranges, where there are ranges, on the byte: the form is fixed for the project.
impl Kind {
    /// The kind byte: 1 to 14 of a block of an accepted table.
    pub fn byte(self) -> u8
        ensures { result ≡ self }
    {
        self.byte
    }

    /// One of the fourteen kinds.
    #[tactic(auto, unfolding(crate::specs::Kind::is_kind))]
    pub fn is_kind(self) -> bool
        ensures { result ≡ is_kind self }
    {
        match self.byte {
            1..=14 => true,
            _ => false,
        }
    }

    /// Started by Execute; the other kinds are level blocks, run by Enable.
    #[tactic(auto, unfolding(crate::specs::Kind::is_edge))]
    pub fn is_edge(self) -> bool
        ensures { result ≡ is_edge self }
    {
        match self.byte {
            1..=8 => true,
            _ => false,
        }
    }

    /// A: an abort input.
    #[tactic(auto, unfolding(crate::specs::Kind::has_abort))]
    pub fn has_abort(self) -> bool
        ensures { result ≡ has_abort self }
    {
        match self.byte {
            5..=8 => true,
            _ => false,
        }
    }

    /// Comes to Aborting: a kind with an abort input, or a level block.
    #[tactic(auto, unfolding(crate::specs::Kind::can_abort))]
    pub fn can_abort(self) -> bool
        ensures { result ≡ can_abort self }
    {
        match self.byte {
            5..=14 => true,
            _ => false,
        }
    }

    /// TI: a time limit for one call.
    #[tactic(auto, unfolding(crate::specs::Kind::has_time_limit))]
    pub fn has_time_limit(self) -> bool
        ensures { result ≡ has_time_limit self }
    {
        match self.byte {
            2 | 4 | 6 | 8 | 10 | 12 | 14 => true,
            _ => false,
        }
    }

    /// To: a time-out for the job.
    #[tactic(auto, unfolding(crate::specs::Kind::has_time_out))]
    pub fn has_time_out(self) -> bool
        ensures { result ≡ has_time_out self }
    {
        match self.byte {
            3..=4 | 7..=8 | 11..=12 => true,
            _ => false,
        }
    }

    /// C: continuous, never Done.
    #[tactic(auto, unfolding(crate::specs::Kind::is_continuous))]
    pub fn is_continuous(self) -> bool
        ensures { result ≡ is_continuous self }
    {
        match self.byte {
            13..=14 => true,
            _ => false,
        }
    }
}
