// Reports of a replay, read and counted by verdict.
//
// Its contracts cite specs/Tallies.antt.
#![tactic(auto)]

ghost use Rattle.std.specs.Prelude.{◌≡◌, ◌*◌, ◌≤◌, eqb, length};
ghost use Rattle.spend_tally.specs.Tallies.{number_in, verdict_in, one, count_of, tally_of};

// The bytes of a report.
const REPORT: usize = 8;

// The verdicts.
pub const AGREES: u32 = 0;

pub const DIFFERS: u32 = 1;

pub const MISMATCHED: u32 = 2;

pub const TOO_LARGE: u32 = 3;

// How many reports have each verdict.
#[derive(Clone, Copy)]
pub struct Tally {
    pub agree: usize,
    pub differ: usize,
    pub mismatched: usize,
    pub too_large: usize,
}

// The entry's number in report i.
pub fn number_in(reports: &[u8], i: usize) -> u32
    requires { 8 * i ≤ length reports.now }
    ensures { result ≡ number_in reports.now i }
{
    records::u32_or_zero(reports, REPORT * i)
}

// The verdict in report i.
pub fn verdict_in(reports: &[u8], i: usize) -> u32
    requires { 8 * i ≤ length reports.now }
    ensures { result ≡ verdict_in reports.now i }
{
    records::u32_or_zero(reports, REPORT * i + 4)
}

// 1 if two verdicts are one, else 0.
fn one_if(a: u32, b: u32) -> usize
    ensures { result ≡ one (eqb a b) }
{
    if a == b {
        return 1;
    }
    0
}

// How many of the first n reports have a verdict.
fn count_of(reports: &[u8], verdict: u32, n: usize) -> usize
    requires { 8 * n ≤ length reports.now }
    ensures { result ≡ count_of reports.now verdict n }
{
    let mut count = 0;
    for i in 0..n {
        count += one_if(verdict_in(reports, i), verdict);
    }
    count
}

// The first n reports, counted by verdict.
pub fn tally_of(reports: &[u8], n: usize) -> Tally
    requires { 8 * n ≤ length reports.now }
    ensures { result ≡ tally_of reports.now n }
{
    let agree = count_of(reports, AGREES, n);
    let differ = count_of(reports, DIFFERS, n);
    let mismatched = count_of(reports, MISMATCHED, n);
    let too_large = count_of(reports, TOO_LARGE, n);
    Tally {
        agree,
        differ,
        mismatched,
        too_large,
    }
}
