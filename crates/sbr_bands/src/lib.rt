// The band tables and their tests: docs/ORDER.md, RF-11 to RF-18.
#![tactic(auto)]

ghost use Rattle.std.specs.Prelude.{◌≡◌, true, false, cond, ℕ, ◌≤◌, length, get_or};
ghost use Rattle.std.specs.List.{list_all};
ghost use Rattle.sbr_bands.specs.Tables.{climbs, among, drawn, ends_alike, high_fits, low_fits, tables_fit};

// Most bands of a column, and the largest entry of a table.
pub const MAX_BAND: u8 = 64;

// The tables of high and of low resolution: where bands begin, and where the last one ends.
#[derive(Clone, Copy)]
pub struct BandTables<'a> {
    pub high: &'a [u8],
    pub low: &'a [u8],
}

impl<'a> BandTables<'a> {
    // Whether the tables can be used.
    #[tactic(auto, using(crate::proofs::TableLaws::high_some))]
    pub fn fit(self) -> bool
        ensures { result ≡ tables_fit self.entry.high.now self.entry.low.now }
    {
        high_fits(self.high) && low_fits(self.high, self.low)
    }

    // The table of a resolution.
    pub fn of(self, high: bool) -> &'a [u8]
        ensures { result.now ≡ cond high self.entry.high.now self.entry.low.now }
    {
        if high { self.high } else { self.low }
    }
}

// Each entry is above the one before it. sbr_time_grid has the same of 32 bits: one function over both types would name their order by a bound of its own.
fn is_climbing(table: &[u8]) -> bool
    ensures { result ≡ climbs table.now }
{
    table.iter().zip(table.iter().skip(1)).all(|(a, b)| a < b)
}

// Two entries or more, rising, none above 64.
#[tactic(auto, unfolding(crate::specs::Tables::high_fits))]
fn high_fits(high: &[u8]) -> bool
    ensures { result ≡ high_fits high.now }
{
    2 <= high.len() && is_climbing(high) && high[high.len() - 1] <= MAX_BAND
}

// For each number whether it is an entry of the table.
#[tactic(auto, using(crate::proofs::TableLaws::marks_more))]
fn marks(table: &[u8]) -> [bool; 256]
    ensures { (b : ℕ) → get_or result b false ≡ among table.now b }
{
    let mut out = [false; 256];
    for b in table {
        out[*b as usize] = true;
    }
    out
}

// Whether every number is marked.
fn are_marked(marked: &[bool; 256], numbers: &[u8]) -> bool
    ensures { result ≡ list_all (λ b. get_or marked.now b false) numbers.now }
{
    numbers.iter().all(|b| marked[*b as usize])
}

// Every entry of low is one of high.
fn is_drawn(high: &[u8], low: &[u8]) -> bool
    ensures { result ≡ drawn high.now low.now }
{
    are_marked(&marks(high), low)
}

// Whether low begins and ends as high does.
fn ends_alike(high: &[u8], low: &[u8]) -> bool
    requires { 1 ≤ length high.now }
    ensures { result ≡ ends_alike high.now low.now }
{
    low.first() == high.first() && low.last() == high.last()
}

// Rising entries of high, with the same ends.
#[tactic(auto, unfolding(crate::specs::Tables::low_fits))]
fn low_fits(high: &[u8], low: &[u8]) -> bool
    requires { 1 ≤ length high.now }
    ensures { result ≡ low_fits high.now low.now }
{
    ends_alike(high, low) && is_climbing(low) && is_drawn(high, low)
}
