// The shapes of records: of one shape one record can have given borders.
ghost use Rattle.std.specs.Prelude.{◌≡◌, ◌-◌};
ghost use Rattle.sbr_grid.specs.Grid.{by_class};

use sbr_grid::{FrameClass, SbrGrid};

// The ends of a frame, from which stored lengths are counted.
#[derive(Clone, Copy)]
pub enum Side {
    Leading,
    Trailing,
}

// A class and, in VarVar, a count of leading lengths. It is 0 in the others, since the definitions read class and count of every shape.
#[derive(Clone, Copy)]
pub struct Shape {
    pub class: FrameClass,
    pub leading: usize,
}

// Every shape, in the order of the keys of their records.
pub const SHAPES: [Shape; SbrGrid::MAX_SIDE_REL + 4] = [
    Shape {
        class: FrameClass::FixFix,
        leading: 0,
    },
    Shape {
        class: FrameClass::FixVar,
        leading: 0,
    },
    Shape {
        class: FrameClass::VarFix,
        leading: 0,
    },
    Shape {
        class: FrameClass::VarVar,
        leading: 0,
    },
    Shape {
        class: FrameClass::VarVar,
        leading: 1,
    },
    Shape {
        class: FrameClass::VarVar,
        leading: 2,
    },
    Shape {
        class: FrameClass::VarVar,
        leading: 3,
    },
];

impl Shape {
    // How many leading lengths a record of this shape has.
    pub fn lead_count(self, num_env: usize) -> usize
        ensures { result ≡ by_class self.class 0 0 (num_env - 1) self.leading }
    {
        match self.class {
            FrameClass::FixFix | FrameClass::FixVar => 0,
            FrameClass::VarFix => num_env.saturating_sub(1),
            FrameClass::VarVar => self.leading,
        }
    }

    // How many trailing lengths it has besides; none where the leading ones are too many.
    pub fn trail_count(self, num_env: usize) -> usize
        ensures { result ≡ by_class self.class 0 (num_env - 1) 0 (num_env - 1 - self.leading) }
    {
        match self.class {
            FrameClass::FixFix | FrameClass::VarFix => 0,
            FrameClass::FixVar => num_env.saturating_sub(1),
            FrameClass::VarVar => num_env.saturating_sub(1).saturating_sub(self.leading),
        }
    }
}
