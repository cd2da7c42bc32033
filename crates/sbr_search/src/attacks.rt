// The onsets of a frame that has some.

ghost use Rattle.std.specs.Prelude.{◌≤◌};
ghost use Rattle.sbr_build.specs.Cases.{Case, onset_list};
ghost use Rattle.sbr_search.specs.Attacked.{Case-prop};

use sbr_build::{Frame, Onsets};

// A frame and its onsets, one to three.
#[derive(Clone, Copy)]
pub struct Attacks {
    pub onsets: Onsets,
    pub frame: Frame,
    pub ghost case: { Case frame.nts frame.lead (onset_list onsets) } by { Case-prop frame.nts frame.lead (onset_list onsets) },
    pub ghost some: { 1 ≤ onsets.count },
}
