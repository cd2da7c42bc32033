// Envelope borders.
ghost use Rattle.std.specs.Prelude.{◌≡◌, ◌&&◌, ℕ, ◌+◌, ◌-◌, ◌*◌, ◌≤◌, ◌<◌, leb, nat_lt, get_or, drop, replicate};
ghost use Rattle.std.specs.List.{list_all, zip};
ghost use Rattle.sbr_grid.specs.Grid.{by_class, first, view_of};
ghost use Rattle.sbr_time_grid.specs.TimeGrid.{nint, slots, abs_bord_lead, abs_bord_trail, n_rel_lead, n_rel_trail, rel_bord_lead, rel_bord_trail, slot_sum, list_from, t_e_of, counts_fit, borders_fit};

use sbr_grid::{FrameClass, SbrGrid, TimeGrid, front};

// A record whose counts fit, in a frame of at most 16 slots.
#[derive(Clone, Copy)]
pub struct Frame {
    pub grid: SbrGrid,
    pub num_slots: u32,
    ghost some: { 0 < grid.num_env },
    ghost few: { grid.num_env ≤ 5 },
    ghost used: { n_rel_lead (view_of grid) + n_rel_trail (view_of grid) + 1 ≡ grid.num_env },
    ghost few_slots: { num_slots ≤ 16 },
}

// num / den to the nearest whole number, halves up.
fn nint_ratio(num: u32, den: u32) -> u32
    requires { (num ≤ 16) × (0 < den) × (den ≤ 5) }
    ensures value { result ≡ nint num den }
    ensures upper_bound { result ≤ 512 }
{
    (2 * num + den) / (2 * den)
}

// The slots of a stored relative length.
fn slots_of(raw: u8) -> u32
    ensures value { result ≡ slots raw }
    ensures upper_bound { result ≤ 512 }
{
    2 * raw as u32 + 2
}

#[tactic(auto, using(crate::proofs::Laws::lead_by))]
fn n_rel_lead(g: &SbrGrid) -> usize
    ensures { result ≡ n_rel_lead (view_of g.now) }
{
    match g.frame_class {
        FrameClass::FixFix => g.num_env.saturating_sub(1),
        FrameClass::FixVar => 0,
        FrameClass::VarFix | FrameClass::VarVar => g.num_rel_0,
    }
}

#[tactic(auto, using(crate::proofs::Laws::trail_by))]
fn n_rel_trail(g: &SbrGrid) -> usize
    ensures { result ≡ n_rel_trail (view_of g.now) }
{
    match g.frame_class {
        FrameClass::FixFix | FrameClass::VarFix => 0,
        FrameClass::FixVar | FrameClass::VarVar => g.num_rel_1,
    }
}

// The counts are within the record.
fn counts_held(g: &SbrGrid) -> bool
    ensures { result ≡ (leb 1 g.now.num_env && leb g.now.num_env 5 && leb g.now.num_rel_0 4 && leb g.now.num_rel_1 4) }
{
    1 <= g.num_env
        && g.num_env <= SbrGrid::MAX_NUM_ENV
        && g.num_rel_0 <= SbrGrid::MAX_REL_BORD
        && g.num_rel_1 <= SbrGrid::MAX_REL_BORD
}

// The counts are within the record, and those of the class in use fit the envelope count.
#[tactic(auto, using(crate::proofs::Laws::counts_by, crate::proofs::Laws::used_few))]
fn counts_fit(g: &SbrGrid) -> bool
    ensures { result ≡ counts_fit (view_of g.now) }
{
    counts_held(g) && n_rel_lead(g) + n_rel_trail(g) + 1 == g.num_env
}

// The border bytes that the class uses are at most 3.
#[tactic(auto, unfolding(crate::specs::TimeGrid::borders_fit))]
fn borders_fit(g: &SbrGrid) -> bool
    ensures { result ≡ borders_fit (view_of g.now) }
{
    match g.frame_class {
        FrameClass::FixFix => true,
        FrameClass::FixVar => g.var_bord_1 <= SbrGrid::MAX_VAR_BORD,
        FrameClass::VarFix => g.var_bord_0 <= SbrGrid::MAX_VAR_BORD,
        FrameClass::VarVar => {
            g.var_bord_0 <= SbrGrid::MAX_VAR_BORD && g.var_bord_1 <= SbrGrid::MAX_VAR_BORD
        }
    }
}

// The counts and the border bytes of a record fit.
pub fn fits(g: &SbrGrid) -> bool
    ensures { result ≡ (counts_fit (view_of g.now) && borders_fit (view_of g.now)) }
{
    counts_fit(g) && borders_fit(g)
}

impl Frame {
    #[tactic(auto, unfolding(crate::specs::TimeGrid::abs_bord_lead))]
    fn abs_bord_lead(&self) -> u32
        ensures value { result ≡ abs_bord_lead (view_of self.now.grid) }
        ensures upper_bound { result ≤ 255 }
    {
        match self.grid.frame_class {
            FrameClass::FixFix | FrameClass::FixVar => 0,
            FrameClass::VarFix | FrameClass::VarVar => self.grid.var_bord_0 as u32,
        }
    }

    #[tactic(auto, unfolding(crate::specs::TimeGrid::abs_bord_trail))]
    fn abs_bord_trail(&self) -> u32
        ensures { result ≡ abs_bord_trail self.now.num_slots (view_of self.now.grid) }
    {
        match self.grid.frame_class {
            FrameClass::FixFix | FrameClass::VarFix => self.num_slots,
            FrameClass::FixVar | FrameClass::VarVar => {
                self.num_slots + self.grid.var_bord_1 as u32
            }
        }
    }

    // The slots of a leading length: the step of FixFix, or the stored length.
    fn rel_bord_lead(&self, step: u32, raw: u8) -> u32
        requires { step ≤ 512 }
        ensures value { result ≡ by_class self.now.grid.frame_class step 0 (slots raw) (slots raw) }
        ensures upper_bound { result ≤ 512 }
    {
        match self.grid.frame_class {
            FrameClass::FixFix => step,
            FrameClass::FixVar => 0,
            FrameClass::VarFix | FrameClass::VarVar => slots_of(raw),
        }
    }

    // The borders from the first to the last that a leading length gives; the other places as they were. They are written by number: of places
    // behind `iter_mut().zip(..)` a proof knows nothing.
    fn leading(&self, t: &mut [u32; TimeGrid::MAX_BORDERS])
        ensures borders { let g = view_of self.now.grid in (j : ℕ) → j ≤ n_rel_lead g → get_or t.new j 0 ≡ abs_bord_lead g + slot_sum (rel_bord_lead self.now.num_slots g) j }
        ensures behind { (j : ℕ) → n_rel_lead (view_of self.now.grid) < j → get_or t.new j 0 ≡ get_or t.old j 0 }
    {
        let step = nint_ratio(self.num_slots, self.grid.num_env as u32);
        let mut b = self.abs_bord_lead();
        t[0] = b;
        // A copy of these four bytes: of a record from which a slice is lent, the optimiser keeps a whole copy.
        let stored = self.grid.rel_bord_0;
        let lengths = front(&stored, n_rel_lead(&self.grid));
        for (l, raw) in lengths.iter().enumerate() {
            b += self.rel_bord_lead(step, *raw);
            t[l + 1] = b;
        }
    }

    // The borders that trailing lengths give, from the last one back; the other places as they were.
    // Not one function with `leading`: other places, and a difference that stops at 0 in place of a sum, so only the loop's head would be shared.
    fn trailing(&self, t: &mut [u32; TimeGrid::MAX_BORDERS])
        ensures borders { let g = view_of self.now.grid in (j : ℕ) → n_rel_lead g < j → j ≤ self.now.grid.num_env → get_or t.new j 0 ≡ abs_bord_trail self.now.num_slots g - slot_sum (rel_bord_trail g) (self.now.grid.num_env - j) }
        ensures before { (j : ℕ) → j ≤ n_rel_lead (view_of self.now.grid) → get_or t.new j 0 ≡ get_or t.old j 0 }
        ensures behind { (j : ℕ) → self.now.grid.num_env < j → get_or t.new j 0 ≡ get_or t.old j 0 }
    {
        let le = self.grid.num_env;
        let mut b = self.abs_bord_trail();
        t[le] = b;
        let stored = self.grid.rel_bord_1;
        let lengths = front(&stored, n_rel_trail(&self.grid));
        for (l, raw) in lengths.iter().enumerate() {
            b = b.saturating_sub(slots_of(*raw));
            t[le - 1 - l] = b;
        }
    }

    // All borders, in places that are 0; those behind the borders stay 0. An array handed out would be copied, which the optimiser can't take away.
    pub fn t_e(&self, t: &mut [u32; TimeGrid::MAX_BORDERS])
        requires { t.old ≡ replicate 6 0 }
        ensures { t.new ≡ first 0 6 (list_from (t_e_of self.now.num_slots (view_of self.now.grid)) 0 (self.now.grid.num_env + 1)) }
    {
        self.leading(t);
        self.trailing(t);
    }
}

// Each border is above the one before it. sbr_bands has the same of bytes: one function over both types would name their order by a bound of its own.
pub fn rises(t: &[u32]) -> bool
    ensures { result ≡ list_all (λ p. nat_lt p.0 p.1) (zip t.now (drop 1 t.now)) }
{
    t.iter().zip(t.iter().skip(1)).all(|(a, b)| a < b)
}
