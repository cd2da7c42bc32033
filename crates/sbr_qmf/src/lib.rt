// A complex sample: src/sbr_qmf.rs; and how many of them a frame needs.
#![tactic(auto)]

ghost use Rattle.std.specs.Prelude.{◌≡◌, cond};
ghost use Rattle.sbr_grid.specs.Times.{is_slot_count};
ghost use Rattle.sbr_qmf.specs.Qmf.{norm_sqr, samples_needed};

// A sample's real and imaginary part.
#[derive(Clone, Copy)]
pub struct Complex {
    pub re: f64,
    pub im: f64,
}

impl Complex {
    // The squared magnitude.
    pub fn norm_sqr(self) -> f64
        ensures { result ≡ norm_sqr self }
    {
        self.re * self.re + self.im * self.im
    }
}

// How many numbers the samples of a frame have at the least, by its slot count: what a host sizes its buffer by. 0 for a slot count that every
// call refuses, and no `Option`: what could not fail before does not begin to.
#[tactic(auto, using(sbr_grid::proofs::Slots::slots_few))]
pub fn samples_needed(num_time_slots: usize) -> usize
    ensures { result ≡ cond (is_slot_count num_time_slots) (samples_needed num_time_slots) 0 }
{
    if sbr_grid::is_slot_count(num_time_slots) {
        (2 * (num_time_slots + 8) + 2) * 128
    } else {
        0
    }
}
