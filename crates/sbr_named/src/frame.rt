// The record of a named frame: of each shape one, and the first that has what is named.
ghost use Rattle.std.specs.Prelude.{◌≡◌, true, ◌&&◌, map, ℕ, ◌+◌, ◌-◌, ◌≤◌, ◌<◌, eqb, length, get_or};
ghost use Rattle.std.specs.List.{find};
ghost use Rattle.std.specs.Ordering.{int_eq};
ghost use Rattle.std.specs.Cmp.Lexicographic.{pointwise};
ghost use Rattle.sbr_grid.specs.Grid.{by_class, first, view_of, record_of};
ghost use Rattle.sbr_time_grid.specs.TimeGrid.{time_grid};
ghost use Rattle.sbr_named.specs.Shapes.{stored_length, pointer_for, candidate, has_times, has_borders};
ghost use Rattle.sbr_named.specs.Code.{is_mark, side_lengths};

use crate::shape::{SHAPES, Shape, Side};
use sbr_grid::{FrameClass, SbrGrid, TimeGrid, is_overridden, noise_of, padded};

// A frame that is named: its slot count, its borders, the resolutions of its envelopes and its mark, each such as a frame can have.
#[derive(Clone, Copy)]
pub struct NamedFrame<'a> {
    pub num_slots: usize,
    pub borders: &'a [u32],
    pub freq_res: &'a [bool],
    pub l_a: i32,
    ghost few_slots: { num_slots ≤ 16 },
    ghost some: { 0 < length freq_res.now },
    ghost few: { length freq_res.now ≤ 5 },
    ghost count: { length borders.now ≡ length freq_res.now + 1 },
    ghost low: { (i : ℕ) → get_or borders.now i 0 ≤ 19 },
    ghost marked: { is_mark l_a ≡ true },
}

impl NamedFrame<'_> {
    // The border at a place; 0 behind the last one.
    fn border(&self, i: usize) -> u32
        ensures value { result ≡ get_or self.now.borders.now i 0 }
        ensures upper_bound { result ≤ 19 }
    {
        self.borders.get(i).copied().unwrap_or(0)
    }

    // The stored form of the length between the borders at two places.
    fn stored_length(&self, start: usize, end: usize) -> u8
        ensures { result ≡ stored_length (get_or self.now.borders.now start 0) (get_or self.now.borders.now end 0) }
    {
        (self.border(end).saturating_sub(self.border(start) + 2) / 2) as u8
    }

    // The stored length of the envelope that is i from the end of the frame on a side, of `count` ones; 0 behind them.
    fn length_at(&self, side: Side, count: usize, i: usize) -> u8
        ensures { result ≡ get_or (side_lengths side self.now.borders.now (length self.now.freq_res.now) count) i 0 }
    {
        if count <= i {
            return 0;
        }
        let num_env = self.freq_res.len();
        match side {
            Side::Leading => self.stored_length(i, i + 1),
            Side::Trailing => {
                self.stored_length(num_env.saturating_sub(i + 1), num_env.saturating_sub(i))
            }
        }
    }

    // The stored lengths of the `count` outermost envelopes of a side; the places behind them are 0.
    fn stored_lengths(&self, side: Side, count: usize) -> [u8; SbrGrid::MAX_REL_BORD]
        ensures { result ≡ first 0 4 (side_lengths side self.now.borders.now (length self.now.freq_res.now) count) }
    {
        std::array::from_fn(|i| self.length_at(side, count, i))
    }

    // The border byte of the first border, in the classes that send one.
    fn first_byte(&self, class: FrameClass) -> u8
        ensures { let b = get_or self.now.borders.now 0 0 in result ≡ by_class class 0 0 b b }
    {
        match class {
            FrameClass::FixFix | FrameClass::FixVar => 0,
            FrameClass::VarFix | FrameClass::VarVar => self.border(0) as u8,
        }
    }

    // The border byte of the last border.
    fn last_byte(&self, class: FrameClass) -> u8
        ensures { let b = get_or self.now.borders.now (length self.now.freq_res.now) 0 - self.now.num_slots in result ≡ by_class class 0 b 0 b }
    {
        match class {
            FrameClass::FixFix | FrameClass::VarFix => 0,
            FrameClass::FixVar | FrameClass::VarVar => {
                self.border(self.freq_res.len())
                    .saturating_sub(self.num_slots as u32) as u8
            }
        }
    }

    // The least pointer that gives the mark in a class, where one does.
    fn pointer(&self, class: FrameClass) -> u8
        ensures { result ≡ pointer_for class (length self.now.freq_res.now) self.now.l_a }
    {
        if self.l_a < 0 {
            return 0;
        }
        let mark = self.l_a as usize;
        match class {
            FrameClass::FixFix => 0,
            FrameClass::VarFix => (mark + 1) as u8,
            FrameClass::FixVar | FrameClass::VarVar => {
                (self.freq_res.len() + 1).saturating_sub(mark) as u8
            }
        }
    }

    // The record of a shape with these borders.
    fn candidate(&self, shape: Shape) -> SbrGrid
        ensures { let f = self.now in result ≡ record_of (candidate f.num_slots f.borders.now f.freq_res.now f.l_a shape) }
    {
        let num_env = self.freq_res.len();
        let num_rel_0 = shape.lead_count(num_env);
        let num_rel_1 = shape.trail_count(num_env);
        SbrGrid {
            frame_class: shape.class,
            num_env,
            num_noise: noise_of(num_env),
            freq_res: padded(self.freq_res, false),
            var_bord_0: self.first_byte(shape.class),
            var_bord_1: self.last_byte(shape.class),
            rel_bord_0: self.stored_lengths(Side::Leading, num_rel_0),
            num_rel_0,
            rel_bord_1: self.stored_lengths(Side::Trailing, num_rel_1),
            num_rel_1,
            pointer: self.pointer(shape.class),
            amp_res_override: is_overridden(shape.class, num_env),
        }
    }

    // Whether a time grid has the borders and the mark.
    fn has_times(&self, time: &TimeGrid) -> bool
        requires { time.now.num_env ≤ 5 }
        ensures { let t = time.now in result ≡ (pointwise eqb (first 0 (t.num_env + 1) t.t_e) self.now.borders.now && int_eq t.l_a self.now.l_a) }
    {
        time.borders() == self.borders && time.l_a == self.l_a
    }

    // Whether the time grid of a record has them.
    fn has_times_of(&self, grid: SbrGrid) -> bool
        ensures { let f = self.now in result ≡ has_times f.borders.now f.l_a (time_grid f.num_slots (view_of grid)) }
    {
        // Tried: `is_ok_and`; what `has_times` asks of a time grid isn't known in a closure.
        match &sbr_time_grid::derive_time_grid(grid, self.num_slots) {
            Ok(time) => self.has_times(time),
            Err(_) => false,
        }
    }

    // Whether a record is writable, and its time grid has them.
    #[tactic(auto, unfolding(crate::specs::Shapes::has_borders))]
    fn is_had_by(&self, grid: SbrGrid) -> bool
        ensures { let f = self.now in result ≡ has_borders f.num_slots f.borders.now f.l_a (view_of grid) }
    {
        sbr_writer::fits::writable(grid) && self.has_times_of(grid)
    }

    // The record of the first shape, in the order of the keys, that has what is named.
    pub fn first_record(&self) -> Option<SbrGrid>
        ensures { let f = self.now in result ≡ find (λ g. has_borders f.num_slots f.borders.now f.l_a (view_of g)) (map (λ s. record_of (candidate f.num_slots f.borders.now f.freq_res.now f.l_a s)) SHAPES) }
    {
        SHAPES
            .iter()
            .map(|shape| self.candidate(*shape))
            .find(|grid| self.is_had_by(*grid))
    }
}
