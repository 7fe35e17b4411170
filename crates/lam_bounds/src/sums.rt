// Sums over the plies that are fixed, of a table with a number for each item.

ghost use Rattle.std.specs.Prelude.{◌≡◌, ◌*◌, ◌^◌, ◌<◌, ◌≤◌, ◌+◌, length, All, if◌then◌else◌};
ghost use Rattle.lam_job.specs.Partial.{half, open_places as open_spec};
ghost use Rattle.lam_rules.specs.Conditions.{IsPartial};
ghost use Rattle.lam_bounds.specs.inside.RunningSums as by;

use lam_job::Job;
use lam_rules::Partial;
use lam_stock::ItemNo;

/// The sum over the fixed plies, with the liner where that counts.
pub fn whole_sum(values: &[u64; 64], job: &Job, with_liner: bool, partial: &Partial) -> u128
    requires liner { All (λ ply. ply.0 < 64) job.now.liner }
    requires few { partial.now.n ≤ 56 }
    requires within { length partial.now.prefix ≤ half job.now partial.now.n }
    requires known { All (λ ply. ply.0 < 64) partial.now.prefix }
    ensures value { result ≡ (if with_liner then by.table_sum values.now job.now.liner else 0)
        + by.fixed_sum values.now job.now partial.now }
    ensures small { result ≤ 2 ^ 80 }
{
    let fixed = fixed_sum(values, job, partial);
    if with_liner {
        return table_sum(values, job.liner.items()) + fixed;
    }
    fixed
}

// the sum of the numbers of some items
fn table_sum(values: &[u64; 64], numbers: &[ItemNo]) -> u128
    requires known { All (λ ply. ply.0 < 64) numbers.now }
    requires few { length numbers.now ≤ 64 }
    ensures value { result ≡ by.table_sum values.now numbers.now }
    ensures small { result ≤ 2 ^ 64 * length numbers.now }
{
    let mut sum = 0;
    for ply in numbers {
        sum += u128::from(values[ply.0 as usize]);
    }
    sum
}

// the sum over the fixed plies
fn fixed_sum(values: &[u64; 64], job: &Job, partial: &Partial) -> u128
    requires few { partial.now.n ≤ 56 }
    requires within { length partial.now.prefix ≤ half job.now partial.now.n }
    requires known { All (λ ply. ply.0 < 64) partial.now.prefix }
    ensures value { result ≡ by.fixed_sum values.now job.now partial.now }
    ensures small { result ≤ 2 ^ 66 * length partial.now.prefix }
{
    let plies = partial.prefix.items();
    let mut sum = 0;
    for k in 0..plies.len() {
        let places = places(job, partial.n, k);
        sum += so_many(places, values[plies[k].0 as usize]);
    }
    sum
}

/// At how many places the next ply lies: at its own, and where schedules are symmetric at that of
/// its mirror image, which in the middle is its own.
pub fn places(job: &Job, n: u8, settled: usize) -> u8
    requires { settled < 64 }
    ensures value { result ≡ by.places_of job.now n settled }
    ensures few { result ≤ 2 }
{
    if job.rules.symmetric && 2 * (settled + 1) <= n as usize {
        2
    } else {
        1
    }
}

/// So many times a number.
pub fn so_many(places: u8, each: u64) -> u128
    ensures value { result ≡ places * each }
    ensures small { result ≤ 2 ^ 72 }
{
    u128::from(places) * u128::from(each)
}

/// How many places are open.
pub fn open_places(job: &Job, partial: &Partial) -> u8
    requires few { partial.now.n ≤ 56 }
    requires within { length partial.now.prefix ≤ half job.now partial.now.n }
    ensures value { result ≡ open_spec job.now partial.now }
    ensures few { result ≤ 56 }
{
    let settled = partial.prefix.items().len();
    let fixed = if job.rules.symmetric {
        2 * settled
    } else {
        settled
    };
    if fixed < partial.n as usize {
        partial.n - fixed as u8
    } else {
        0
    }
}
