// Noise borders and the mark.
ghost use Rattle.std.specs.Prelude.{◌≡◌, true, get_or};
ghost use Rattle.sbr_grid.specs.Grid.{first, view_of};
ghost use Rattle.sbr_time_grid.specs.TimeGrid.{middle_border, noise_fits, noise_borders, l_a_of};

use crate::border::Frame;
use sbr_grid::{FrameClass, TimeGrid};

impl Frame {
    // The envelope border at which the two noise floors meet. `noise_fits` tests whether it lies inside the frame.
    #[tactic(auto, using(crate::proofs::Laws::middle_by, crate::proofs::Marks::pointer_low, crate::proofs::Marks::pointer_high))]
    fn middle_border(&self) -> usize
        ensures { result ≡ middle_border (view_of self.now.grid) }
    {
        let le = self.grid.num_env;
        let p = self.grid.pointer as usize;
        match self.grid.frame_class {
            FrameClass::FixFix => le / 2,
            FrameClass::VarFix => match p {
                0 => 1,
                1 => le - 1,
                _ => p - 1,
            },
            FrameClass::FixVar | FrameClass::VarVar => match p {
                0 | 1 => le - 1,
                _ => (le + 1).saturating_sub(p),
            },
        }
    }

    // The noise count fits the envelope count, and the noise floors meet inside the frame.
    #[tactic(auto, using(crate::proofs::Laws::noise_by))]
    pub fn noise_fits(&self) -> bool
        ensures { result ≡ noise_fits (view_of self.now.grid) }
    {
        if self.grid.num_env <= 1 {
            return self.grid.num_noise == 1;
        }
        self.grid.num_noise == 2 && (1..self.grid.num_env).contains(&self.middle_border())
    }

    // The noise borders among the envelope borders t; places past the last are zero.
    #[tactic(auto, using(crate::proofs::Laws::noise_inside))]
    pub fn t_q(&self, t: &[u32; TimeGrid::MAX_BORDERS]) -> [u32; TimeGrid::MAX_NOISE_BORDERS]
        requires { noise_fits (view_of self.now.grid) ≡ true }
        ensures { result ≡ first 0 3 (noise_borders self.now.grid.num_env (middle_border (view_of self.now.grid)) (λ l. get_or t.now l 0)) }
    {
        let le = self.grid.num_env;
        if le <= 1 {
            return [t[0], t[le], 0];
        }
        [t[0], t[self.middle_border()], t[le]]
    }

    // The marked envelope; -1 for none.
    #[tactic(auto, using(crate::proofs::Laws::mark_by, crate::proofs::Marks::pointer_low, crate::proofs::Marks::pointer_high, crate::proofs::Marks::pointer_some))]
    pub fn l_a(&self) -> i32
        ensures { result ≡ l_a_of (view_of self.now.grid) }
    {
        let le = self.grid.num_env as i32;
        let p = self.grid.pointer as i32;
        match self.grid.frame_class {
            FrameClass::FixFix => -1,
            FrameClass::FixVar | FrameClass::VarVar => if p == 0 { -1 } else { le + 1 - p },
            FrameClass::VarFix => if 1 < p { p - 1 } else { -1 },
        }
    }
}
