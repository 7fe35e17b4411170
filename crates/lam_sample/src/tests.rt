// The texts of samples as they stand, and read by the readers of their files.

ghost use Rattle.std.specs.Prelude.{◌≤◌};

use crate::sample_texts;
use lam_job::read_job;
use lam_stock::read_stock;
use std::alloc::Global;
use std::test::Fail;

#[test]
fn the_first_item_of_the_first_sample(rt: HostRuntime) -> Result<(), Fail> {
    let (_, catalogue) = sample_texts(rt.alloc(), 1)?;
    let line =
        "i1,pair,43000,13000,200,2300,415000,231000,67000,130000,59000,0,1700,160,231,281,59";
    assert_eq!(rt; catalogue.as_str().lines().nth(1), Some(line));
    Ok(())
}

// the items and the cases that the texts of a number are read as
fn counts(alloc: Global, number: u32) -> Result<Option<(usize, usize)>, Fail>
    requires least { 1 ≤ number }
    requires greatest { number ≤ 1000000 }
{
    let (job, catalogue) = sample_texts(alloc, number)?;
    let Ok(stock) = read_stock(alloc, catalogue.as_bytes()) else {
        return Ok(None);
    };
    let Ok(job) = read_job(alloc, job.as_bytes(), &stock) else {
        return Ok(None);
    };
    Ok(Some((stock.items().len(), job.cases.items().len())))
}

#[test]
fn samples_are_read(rt: HostRuntime) -> Result<(), Fail> {
    assert_eq!(rt; counts(rt.alloc(), 1)?, Some((6, 2)));
    assert_eq!(rt; counts(rt.alloc(), 2)?, Some((6, 2)));
    assert_eq!(rt; counts(rt.alloc(), 1_000_000)?, Some((6, 2)));
    Ok(())
}
